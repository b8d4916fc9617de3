// Importing a graph from ASCII AIGER.
#![tactic(auto)]

ghost use Rattle.std.specs.Prelude.{◌≡◌};
ghost use Rattle.graph.specs.Answer.{locked_outcome};
ghost use Rattle.graph.specs.Literals.{before, literals};
ghost use Rattle.tagged_file.specs.Load.{loaded_answer, loaded_graph};
ghost use Rattle.aiger.specs.Import.{import_call};

mod faults;
mod fill;
mod header;
mod lines;

use graph::Refusal;
use graph::table::room_of;
use tagged_file::Sizes;
use tagged_file::locks::free;

// The first pass checks the whole text, the second fills the tables and frees every node: a refusal has changed nothing.
pub fn import(
    text: &[u8],
    node_table: &mut [u32],
    node_bits: &mut [u64],
    output_table: &mut [u32],
    output_bits: &mut [u64],
    locks: &mut [u8],
) -> Result<Sizes, Refusal>
    ensures { let ns = literals node_table.old node_bits.old in
        let os = literals output_table.old output_bits.old in
        locked_outcome (loaded_answer result) (loaded_graph result (literals node_table.new node_bits.new) (literals output_table.new output_bits.new)) locks.new
        ≡ import_call (before text) ns os locks.old }
{
    let header = header::read_header(
        text,
        room_of(node_table, node_bits),
        room_of(output_table, output_bits),
        locks.len(),
    )?;
    let sizes = header.sizes;
    let body = &text[header.size..];
    faults::check_inputs(body, sizes)?;
    let after = fill::after_ones(body, sizes.inputs);
    let gates = fill::fill_outputs(after, sizes.outputs, output_table, output_bits);
    fill::fill_gates(gates, sizes.nodes, node_table, node_bits);
    free(locks, sizes.nodes);
    Ok(sizes)
}
