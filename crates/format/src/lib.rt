// The definitions of records, their reading and files stand in specs/, and the laws about them in proofs/. The code that is held to them stands in the crates above, whose
// contracts and proofs cite them. What it shares with them is the name of a rule set.
#![tactic(auto)]

// The rules under which a record is read: those up to E10, for what already lies in a cabinet, and today's, for everything else (document 02, E11).
#[derive(Clone, Copy)]
pub enum Rules {
    UpToE10,
    Today,
}
