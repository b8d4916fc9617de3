// Each entry's answer as a number, and as what it leaves at a lent place.
#![tactic(auto)]

pub mod told;
