// The C interface, a static library: each function has its name in C, hands on the call of that name in `exports`, and states its
// clauses again, word for word, which .ci/contracts holds. A crate is a library or a static library, and no crate can stand on a
// static library: the theorems speak of `exports`.
#![tactic(auto)]

pub mod check;
pub mod confirming;
pub mod dates;
pub mod filing;
pub mod hashes;
pub mod mailing;
pub mod records;
pub mod trailing;
pub mod types;
pub mod walking;
pub mod writing;
