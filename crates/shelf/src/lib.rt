// No code: specs/ says what the centre's key cabinet is, what its calls do to it, and what a history of calls is; proofs/ has the laws about them. The code is
// in crate cabinet, so that a wrong answer of its functions is tried without these proofs.
#![tactic(auto)]
