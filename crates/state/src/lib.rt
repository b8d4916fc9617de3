#![tactic(auto)]

mod flags;
pub mod moving;
pub mod now;
mod turning;
pub mod writing;
