#![tactic(auto)]

ghost use Rattle.std.specs.Prelude.{◌≡◌};
ghost use Rattle.graph.specs.Answer.{outcome};
ghost use Rattle.graph.specs.Literals.{graph_in};
ghost use Rattle.moves.specs.Call.{saving_answer, node_call, pair_call, gain_answer, trial_call};
ghost use Rattle.graph.specs.Tables.{lent_graph};

mod faults;
mod rewrite;
mod trying;
pub mod write;

use graph::table::Table;
use graph::{Lent, Refusal};
use moves::Saving;

// The node call: the move of a node with the least C, the lowest number among equals.
pub fn node_call<'x>(
    inputs: u32,
    nodes: u32,
    outputs: u32,
    node_table: &'x [u32],
    node_bits: &'x mut [u64],
    output_table: &'x [u32],
    output_bits: &'x mut [u64],
    locks: &'x [u8],
    node: u32,
) -> Result<Saving, Refusal>
    ensures { let g = graph_in inputs nodes outputs node_table.now node_bits.old output_table.now output_bits.old in
        let h = graph_in inputs nodes outputs node_table.now node_bits.new output_table.now output_bits.new in
        outcome (saving_answer result) h ≡ node_call g locks.now node }
{
    let lent = Lent {
        inputs,
        nodes,
        outputs,
        node_table: Table {
            indices: node_table,
            bits: node_bits,
        },
        output_table: Table {
            indices: output_table,
            bits: output_bits,
        },
        locks,
    };
    faults::check_node(&lent, node)?;
    let v = node - (inputs + 1);
    Ok(rewrite::rewrite_node(
        inputs,
        nodes,
        outputs,
        node_table,
        node_bits,
        output_table,
        output_bits,
        locks,
        v,
    ))
}

// The pair call: of all moves at the node that a word names and at the node itself, those with the least C, the lowest move at
// the named node first among equals. A word that names no node changes nothing.
pub fn pair_call<'x>(
    inputs: u32,
    nodes: u32,
    outputs: u32,
    node_table: &'x [u32],
    node_bits: &'x mut [u64],
    output_table: &'x [u32],
    output_bits: &'x mut [u64],
    locks: &'x [u8],
    node: u32,
    word: u32,
) -> Result<Saving, Refusal>
    ensures { let g = graph_in inputs nodes outputs node_table.now node_bits.old output_table.now output_bits.old in
        let h = graph_in inputs nodes outputs node_table.now node_bits.new output_table.now output_bits.new in
        outcome (saving_answer result) h ≡ pair_call g locks.now node word }
{
    let lent = Lent {
        inputs,
        nodes,
        outputs,
        node_table: Table {
            indices: node_table,
            bits: node_bits,
        },
        output_table: Table {
            indices: output_table,
            bits: output_bits,
        },
        locks,
    };
    faults::check_pair(&lent, node, word)?;
    Ok(rewrite::rewrite_named(
        inputs,
        nodes,
        outputs,
        node_table,
        node_bits,
        output_table,
        output_bits,
        locks,
        node,
        word,
    ))
}

// A trial: what a move at the node that a word names and a move at the node itself would save. Nothing is changed. A move that either
// node cannot have is refused.
pub fn trial(
    lent: &Lent,
    node: u32,
    word: u32,
    named_move: u32,
    node_move: u32,
) -> Result<i64, Refusal>
    ensures { let g = lent_graph lent.now in
        gain_answer result ≡ trial_call g lent.now.locks.now node word named_move node_move }
{
    faults::check_trial(lent, node, word, named_move, node_move)?;
    Ok(trying::named_saving(lent, node, word, named_move, node_move))
}
