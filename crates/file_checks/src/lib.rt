// Reading a tagged file: its bytes, one field, and the check pass over all of them.
#![tactic(auto)]

pub mod bytes;
pub mod faults;
pub mod fields;
