#![tactic(auto)]

ghost use Rattle.std.specs.Prelude.{◌≡◌, length};
ghost use Rattle.graph.specs.Answer.{outcome, ScratchKept};
ghost use Rattle.graph.specs.Literals.{graph_in};
ghost use Rattle.moves.specs.Call.{saving_answer};
ghost use Rattle.resistive.specs.Resistive.{resistive_call};

mod deciding;
mod family;
mod keys;
mod numbers;
mod rewrite;

use graph::table::Table;
use graph::{Lent, Refusal};
use moves::Saving;
use tree_call::faults::check_tree;

// The call on a tree for resistive memory: of all choices of moves for the tree of a root that leave locked nodes alone and the root's
// readers unturned, the first with the most majorities of just one complemented input and, of these, the least C, by falling index.
pub fn resistive_call<'x>(
    inputs: u32,
    nodes: u32,
    outputs: u32,
    node_table: &'x [u32],
    node_bits: &'x mut [u64],
    output_table: &'x [u32],
    output_bits: &'x mut [u64],
    locks: &'x [u8],
    root: u32,
    scratch: &mut [u32],
) -> Result<Saving, Refusal>
    ensures outcome { let g = graph_in inputs nodes outputs node_table.now node_bits.old output_table.now output_bits.old in
        let k = graph_in inputs nodes outputs node_table.now node_bits.new output_table.now output_bits.new in
        outcome (saving_answer result) k ≡ resistive_call g locks.now (length scratch.old) root }
    ensures scratch { ScratchKept (saving_answer result) scratch.old scratch.new }
{
    let lent = Lent {
        inputs,
        nodes,
        outputs,
        node_table: Table {
            indices: node_table,
            bits: node_bits,
        },
        output_table: Table {
            indices: output_table,
            bits: output_bits,
        },
        locks,
    };
    check_tree(&lent, root, scratch.len())?;
    Ok(rewrite::rewrite_still(
        inputs,
        nodes,
        outputs,
        node_table,
        node_bits,
        output_table,
        output_bits,
        locks,
        root,
        scratch,
    ))
}
