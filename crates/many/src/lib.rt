// Many moves together: a list of nodes with a move each, made all or none.
#![tactic(auto)]

ghost use Rattle.std.specs.Prelude.{◌≡◌};
ghost use Rattle.graph.specs.Answer.{outcome};
ghost use Rattle.graph.specs.Literals.{graph_in};
ghost use Rattle.moves.specs.Call.{gain_answer};
ghost use Rattle.many.specs.Many.{many_call};

mod faults;
pub mod making;
mod walk;

use graph::table::Table;
use graph::{Lent, Refusal};

// Entry k is the node list[k] with the move bytes[k]; bytes past the list are not read: two slices, as the C interface has them. The whole list is tested before a word is
// turned.
pub fn many<'x>(
    inputs: u32,
    nodes: u32,
    outputs: u32,
    node_table: &'x [u32],
    node_bits: &'x mut [u64],
    output_table: &'x [u32],
    output_bits: &'x mut [u64],
    locks: &'x [u8],
    list: &[u32],
    bytes: &[u8],
) -> Result<i64, Refusal>
    ensures { let g = graph_in inputs nodes outputs node_table.now node_bits.old output_table.now output_bits.old in
        let h = graph_in inputs nodes outputs node_table.now node_bits.new output_table.now output_bits.new in
        outcome (gain_answer result) h ≡ many_call g locks.now list.now bytes.now }
{
    let lent = Lent {
        inputs,
        nodes,
        outputs,
        node_table: Table {
            indices: node_table,
            bits: node_bits,
        },
        output_table: Table {
            indices: output_table,
            bits: output_bits,
        },
        locks,
    };
    faults::check_many(&lent, list, bytes)?;
    Ok(making::make_all(
        inputs,
        nodes,
        outputs,
        node_table,
        node_bits,
        output_table,
        output_bits,
        list,
        bytes,
    ))
}
