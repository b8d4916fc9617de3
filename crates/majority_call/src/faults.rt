// What refuses a majority call.
ghost use Rattle.std.specs.Prelude.{◌≡◌};
ghost use Rattle.graph.specs.Answer.{refusal_number};
ghost use Rattle.hidden.specs.Truth.{triple};
ghost use Rattle.hidden.specs.Call.{triple_fault, majority_number};
ghost use Rattle.graph.specs.Tables.{lent_graph};

use graph::faults::check_admission;
use graph::{Lent, Refusal};
use moves::faults::{check_locked, check_node};
use tree_call::faults::check_scratch;

// The triple rises from above 0 to below the node.
fn check_triple(one: u32, two: u32, three: u32, node: u32) -> Result<(), Refusal>
    ensures { refusal_number result ≡ triple_fault (triple one two three) node }
{
    if one == 0 {
        return Err(Refusal::NoSuchNode);
    }
    if two <= one {
        return Err(Refusal::NoSuchNode);
    }
    if three <= two {
        return Err(Refusal::NoSuchNode);
    }
    if node <= three {
        return Err(Refusal::NoSuchNode);
    }
    Ok(())
}

// A locked node cannot have a move other than 0, nor become a majority.
pub fn check_majority(
    lent: &Lent,
    node: u32,
    one: u32,
    two: u32,
    three: u32,
    length: usize,
) -> Result<(), Refusal>
    ensures { let g = lent_graph lent.now in
        refusal_number result ≡ majority_number g lent.now.locks.now length (triple one two three) node }
{
    check_admission(lent)?;
    check_node(lent.inputs, lent.nodes, node)?;
    check_triple(one, two, three, node)?;
    check_locked(lent.locks[(node - lent.inputs - 1) as usize], 1)?;
    check_scratch(lent.nodes, length)
}
