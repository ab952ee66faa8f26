// The library for a host in C or Rust: every call over numbers, lent slices and plain structs. The C declarations are in include/rei2.h.
#![tactic(auto)]

pub mod dynamic;
pub mod found;
pub mod held;
pub mod lent;
pub mod limits;
pub mod listed;
pub mod look;
pub mod names;
pub mod reply;
pub mod request;
pub mod running;
