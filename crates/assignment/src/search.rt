// Block after block, until one has a place that gives the pattern.
ghost use Rattle.std.specs.Prelude.{option_to_list, ◌≡◌, ◌*◌, ◌^◌, ◌≤◌, length};
ghost use Rattle.assignment.specs.Assignment.{least_assignment};
ghost use Rattle.graph.specs.Tables.{lent_graph};

use crate::outputs::top_of;
use crate::{Question, block, words};

// Enough blocks for every assignment.
fn block_count(inputs: u32) -> u32
    requires { inputs ≤ 16 }
    ensures { (2 ^ inputs ≤ 64 * result) × (result ≤ 1024) }
{
    u32::pow(2, inputs.saturating_sub(6))
}

// The number of the least assignment that gives the pattern.
pub fn search(question: &Question, scratch: &mut [u64]) -> Option<u32>
    requires { question.now.lent.nodes ≤ length scratch.old }
    ensures { option_to_list result ≡ least_assignment (lent_graph question.now.lent) question.now.wanted.now }
{
    let end = block_count(question.lent.inputs);
    let top = top_of(question);
    for b in 0..end {
        let places = block::block_places(question, top, b, scratch);
        if places != 0 {
            return Some(64 * b + words::first_place(places));
        }
    }
    None
}
