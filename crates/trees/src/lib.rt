#![tactic(auto)]

mod costs;
pub mod deciding;
pub mod fields;
mod fill;
mod links;
pub mod making;
pub mod start;
