// No code: specs/ says once what a call that writes something of a record makes of the record call's answer, and proofs/ has the laws about it, for
// the calls that do so and for what is promised of them. The calls are in the crates above, which say what is written.
#![tactic(auto)]
