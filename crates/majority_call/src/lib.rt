#![tactic(auto)]

ghost use Rattle.std.specs.Prelude.{◌≡◌, length};
ghost use Rattle.graph.specs.Answer.{outcome, ScratchKept};
ghost use Rattle.graph.specs.Literals.{graph_in};
ghost use Rattle.hidden.specs.Truth.{triple};
ghost use Rattle.hidden.specs.Call.{majority_answer, majority_call};

mod bytes;
mod deciding;
mod faults;
pub mod making;
pub mod valuing;

use graph::table::Table;
use graph::{Lent, Refusal};
use hidden::Majority;

// The majority call: a node, with three lower indices, rising and none of them 0, becomes one majority of the three where its truth value over
// them is one.
pub fn majority_call<'x>(
    inputs: u32,
    nodes: u32,
    outputs: u32,
    node_table: &'x mut [u32],
    node_bits: &'x mut [u64],
    output_table: &Table<'x>,
    locks: &'x [u8],
    node: u32,
    one: u32,
    two: u32,
    three: u32,
    scratch: &mut [u32],
) -> Result<Majority, Refusal>
    ensures outcome { let g = graph_in inputs nodes outputs node_table.old node_bits.old output_table.now.indices.now output_table.now.bits.now in
        let h = graph_in inputs nodes outputs node_table.new node_bits.new output_table.now.indices.now output_table.now.bits.now in
        outcome (majority_answer result) h ≡ majority_call g locks.now (length scratch.old) (triple one two three) node }
    ensures scratch { ScratchKept (majority_answer result) scratch.old scratch.new }
{
    let lent = Lent {
        inputs,
        nodes,
        outputs,
        node_table: Table {
            indices: node_table,
            bits: node_bits,
        },
        output_table: *output_table,
        locks,
    };
    faults::check_majority(&lent, node, one, two, three, scratch.len())?;
    Ok(deciding::decide(
        inputs, nodes, node_table, node_bits, node, one, two, three, scratch,
    ))
}
