// The calls for users as the C interface has them: a slice is a pointer and a length there, and an answer is a struct by value. Each
// function hands on one call of the library and has its contract. The crate `exports_c` offers them to C under these names:
// bindings/c/obscurlane.h says it to a user of C.
#![tactic(auto)]

pub mod check;
pub mod confirming;
pub mod dates;
pub mod filing;
pub mod hashes;
pub mod mailing;
pub mod records;
pub mod trailing;
pub mod types;
pub mod walking;
pub mod writing;
