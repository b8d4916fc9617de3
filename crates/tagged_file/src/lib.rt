// The tagged file: one field of it, loading a graph from it, writing a graph as one.
#![tactic(auto)]

ghost use Rattle.std.specs.Prelude.{◌≡◌};
ghost use Rattle.graph.specs.Answer.{locked_outcome, refusal_number};
ghost use Rattle.graph.specs.Literals.{before, literals};
ghost use Rattle.file_checks.specs.File.{field_number, field_payload};
ghost use Rattle.tagged_file.specs.Load.{loaded_answer, loaded_graph, load_call};
ghost use Rattle.tagged_file.specs.Write.{written_answer, write_outcome, write_call};
ghost use Rattle.graph.specs.Tables.{lent_graph};

mod emit;
mod faults;
mod fill;
pub mod locks;

use file_checks::{bytes, fields};
use graph::table::room_of;
use graph::{Lent, Refusal};

// How many inputs, nodes and outputs a graph has.
#[derive(Clone, Copy)]
pub struct Sizes {
    pub inputs: u32,
    pub nodes: u32,
    pub outputs: u32,
}

// Whether the field at the front is accepted.
pub fn check_field(bytes: &[u8]) -> Result<(), Refusal>
    ensures { refusal_number result ≡ field_number (before bytes) }
{
    fields::check_due(bytes, 1, 6)
}

// The payload of the field at the front, empty where it is refused.
pub fn field(bytes: &[u8]) -> &[u8]
    ensures { result.now ≡ field_payload (before bytes) }
{
    match check_field(bytes) {
        Ok(()) => {
            let n = bytes::two(bytes, 1) as usize;
            &bytes[3..3 + n]
        }
        Err(_) => &bytes[..0],
    }
}

// The first pass checks the whole file, the second fills the tables and the lock bytes: a refusal has changed nothing.
pub fn load(
    file: &[u8],
    node_table: &mut [u32],
    node_bits: &mut [u64],
    output_table: &mut [u32],
    output_bits: &mut [u64],
    locks: &mut [u8],
) -> Result<Sizes, Refusal>
    ensures { let ns = literals node_table.old node_bits.old in
        let os = literals output_table.old output_bits.old in
        locked_outcome (loaded_answer result) (loaded_graph result (literals node_table.new node_bits.new) (literals output_table.new output_bits.new)) locks.new
        ≡ load_call (before file) ns os locks.old }
{
    file_checks::faults::check_file(
        file,
        room_of(node_table, node_bits),
        room_of(output_table, output_bits),
        locks.len(),
    )?;
    let inputs = bytes::four(file, 3);
    let nodes = bytes::four(file, 7);
    let outputs = bytes::four(file, 11);
    let after = fill::fill_nodes(&file[15..], nodes, node_table, node_bits);
    let rest = fill::fill_outputs(after, outputs, output_table, output_bits);
    locks::free(locks, nodes);
    fill::fill_locks(rest, inputs + 1, locks);
    Ok(Sizes {
        inputs,
        nodes,
        outputs,
    })
}

// Returns the length of the file, which is known before the first byte is written: a refusal has changed nothing.
pub fn write(lent: &Lent, buffer: &mut [u8]) -> Result<usize, Refusal>
    ensures { let g = lent_graph lent.now in
        write_outcome (written_answer result) buffer.new ≡ write_call g lent.now.locks.now buffer.old }
{
    faults::check_write(lent, buffer.len())?;
    Ok(emit::put_file(lent, buffer))
}
