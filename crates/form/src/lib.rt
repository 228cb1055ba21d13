// Which build this is: the centre's. The module's build has `module_form` in the place of this crate. There is no `ensures`, so what
// asks is proved for both answers, and no proof can rest on one of them.
#![tactic(auto)]

pub fn is_centre() -> bool {
    true
}
