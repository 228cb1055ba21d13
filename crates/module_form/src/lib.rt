// Which build this is: the module's, where this crate stands in the place of `form`.
#![tactic(auto)]

pub fn is_centre() -> bool {
    false
}
