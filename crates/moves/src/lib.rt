#![tactic(auto)]

pub mod decide;
pub mod faults;
pub mod gains;
pub mod reading;
pub mod rows;
pub mod words;

// What a node, pair or tree call saves: over the words of the nodes that it names, and over all other edges.
#[derive(Clone, Copy)]
pub struct Saving {
    pub own: i64,
    pub others: i64,
}
