#![tactic(auto)]

ghost use Rattle.std.specs.Prelude.{◌≡◌, ℕ, ◌*◌, ◌≤◌, length};
ghost use Rattle.graph.specs.Admission.{Admitted, LockBytes};
ghost use Rattle.graph.specs.Answer.{locked_outcome, ScratchKept};
ghost use Rattle.graph.specs.Literals.{graph_in};
ghost use Rattle.hidden.specs.Find.{passed};
ghost use Rattle.hidden.specs.Drop.{dropped, dropped_locks};
ghost use Rattle.hidden.specs.Call.{found_answer, nodes_after_answer, find_call};

mod barred;
mod compacting;
mod down;
mod dropping;
mod faults;
mod following;
mod living;
mod masks;
mod nearness;
mod nodes;
mod numbering;
mod passing;
mod signs;
mod trying;

use graph::table::Table;
use graph::{Lent, Refusal};
use moves::words::wide;
use trees::fields::clear;

// Past all refusals: scratch is cleared, all nodes are passed, and what is not read then is dropped. Answers how many nodes are left.
fn pass_and_drop(
    inputs: u32,
    nodes: u32,
    outputs: u32,
    node_table: &mut [u32],
    node_bits: &mut [u64],
    output_table: &mut [u32],
    output_bits: &mut [u64],
    locks: &mut [u8],
    scratch: &mut [u32],
) -> u32
    requires { let g = graph_in inputs nodes outputs node_table.old node_bits.old output_table.old output_bits.old in
        Admitted g × LockBytes nodes locks.old × (8 * nodes ≤ length scratch.old) }
    ensures { let g = graph_in inputs nodes outputs node_table.old node_bits.old output_table.old output_bits.old in
        let k = graph_in inputs result outputs node_table.new node_bits.new output_table.new output_bits.new in
        let h = passed g locks.old nodes in
        (k ≡ dropped h locks.old) × (locks.new ≡ dropped_locks h locks.old) }
{
    clear(wide(nodes), scratch);
    passing::pass(inputs, nodes, node_table, node_bits, locks, scratch);
    dropping::drop_unread(
        inputs,
        nodes,
        outputs,
        node_table,
        node_bits,
        output_table,
        output_bits,
        locks,
        scratch,
    )
}

// The finder: each free node by rising index becomes the first majority that three indices near it give; then what is not read is dropped,
// and the rest renumbered with its locks. Freed words and lock bytes become 0.
pub fn find<'x>(
    inputs: u32,
    nodes: u32,
    outputs: u32,
    node_table: &'x mut [u32],
    node_bits: &'x mut [u64],
    output_table: &'x mut [u32],
    output_bits: &'x mut [u64],
    locks: &'x mut [u8],
    scratch: &mut [u32],
) -> Result<u32, Refusal>
    ensures outcome { let n = nodes_after_answer nodes (found_answer result) in
        let g = graph_in inputs nodes outputs node_table.old node_bits.old output_table.old output_bits.old in
        let k = graph_in inputs n outputs node_table.new node_bits.new output_table.new output_bits.new in
        locked_outcome (found_answer result) k locks.new ≡ find_call g locks.old (length scratch.old) }
    ensures scratch { ScratchKept (found_answer result) scratch.old scratch.new }
{
    let lent = Lent {
        inputs,
        nodes,
        outputs,
        node_table: Table {
            indices: node_table,
            bits: node_bits,
        },
        output_table: Table {
            indices: output_table,
            bits: output_bits,
        },
        locks,
    };
    faults::check_find(&lent, scratch.len())?;
    Ok(pass_and_drop(
        inputs,
        nodes,
        outputs,
        node_table,
        node_bits,
        output_table,
        output_bits,
        locks,
        scratch,
    ))
}
