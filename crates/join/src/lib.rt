// Two graphs joined.
#![tactic(auto)]

ghost use Rattle.std.specs.Prelude.{◌≡◌};
ghost use Rattle.graph.specs.Answer.{locked_outcome};
ghost use Rattle.graph.specs.Literals.{before, literals};
ghost use Rattle.tagged_file.specs.Load.{loaded_answer, loaded_graph};
ghost use Rattle.join.specs.Join.{join_call};
ghost use Rattle.graph.specs.Tables.{lent_graph};

mod faults;
mod fill;

use fill::Front;
use graph::table::room_of;
use graph::{Lent, Refusal};
use tagged_file::Sizes;

// Output k of the first graph drives input k of the second. Both are checked whole before anything is filled: a refusal has changed nothing.
pub fn join(
    first: &Lent,
    second: &Lent,
    joined_node_table: &mut [u32],
    joined_node_bits: &mut [u64],
    joined_output_table: &mut [u32],
    joined_output_bits: &mut [u64],
    joined_locks: &mut [u8],
) -> Result<Sizes, Refusal>
    ensures { let g = lent_graph first.now in
        let h = lent_graph second.now in
        let ns = literals joined_node_table.old joined_node_bits.old in
        let os = literals joined_output_table.old joined_output_bits.old in
        let k = loaded_graph result (literals joined_node_table.new joined_node_bits.new) (literals joined_output_table.new joined_output_bits.new) in
        locked_outcome (loaded_answer result) k joined_locks.new
        ≡ join_call g first.now.locks.now h second.now.locks.now ns os joined_locks.old }
{
    faults::check_join(
        first,
        second,
        room_of(joined_node_table, joined_node_bits),
        room_of(joined_output_table, joined_output_bits),
        joined_locks.len(),
    )?;
    let front = Front {
        outputs: first.output_table,
        base: first.inputs + first.nodes,
        inputs: second.inputs,
    };
    let got = fill::copy_nodes(
        first.nodes,
        &first.node_table,
        joined_node_table,
        joined_node_bits,
    );
    fill::meet_nodes(
        3 * first.nodes as usize,
        got,
        second.nodes,
        &second.node_table,
        &front,
        joined_node_table,
        joined_node_bits,
    );
    fill::meet_outputs(
        second.outputs,
        &second.output_table,
        &front,
        joined_output_table,
        joined_output_bits,
    );
    fill::copy_locks(first.nodes, first.locks, 0, joined_locks);
    fill::copy_locks(second.nodes, second.locks, first.nodes, joined_locks);
    Ok(Sizes {
        inputs: first.inputs,
        nodes: first.nodes + second.nodes,
        outputs: second.outputs,
    })
}
