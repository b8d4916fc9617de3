// What is not read is dropped, the rest moved together.
ghost use Rattle.std.specs.Prelude.{◌≡◌, ℕ, ◌+◌, ◌*◌, ◌≤◌, ◌<◌, length};
ghost use Rattle.graph.specs.Admission.{Admitted, LockBytes};
ghost use Rattle.graph.specs.Literals.{graph_in, held, literals};
ghost use Rattle.hidden.specs.Drop.{live, dropped, dropped_locks};
ghost use Rattle.finder.specs.Numbering.{rank_of, Numbers};
ghost use Rattle.finder.specs.Compacting.{NodeHolds, Cut};
ghost use Rattle.graph.specs.Tables.{lent_graph};

use crate::compacting::{clear_locks, clear_words, compact, renumber_outputs};
use crate::living::mark_living;
use crate::numbering::number_living;
use graph::Lent;
use graph::table::Table;
use moves::words::wide;

// The new index of each living node, and how many there are.
fn number(lent: &Lent, scratch: &mut [u32]) -> u32
    requires { let g = lent_graph lent.now in
        Admitted g × LockBytes lent.now.nodes lent.now.locks.now × (lent.now.nodes ≤ length scratch.old) }
    ensures { let g = lent_graph lent.now in
        (result ≤ lent.now.nodes) × (result ≡ rank_of (live g lent.now.locks.now) lent.now.nodes) × Numbers lent.now.inputs (live g lent.now.locks.now) lent.now.nodes scratch.new }
{
    mark_living(lent, scratch);
    number_living(lent.inputs, lent.nodes, scratch)
}

// The nodes that have numbers moved together, and zeros behind.
fn cut(
    inputs: u32,
    nodes: u32,
    node_table: &mut [u32],
    node_bits: &mut [u64],
    locks: &mut [u8],
    scratch: &[u32],
)
    requires { let ns = literals node_table.old node_bits.old in
        (nodes ≤ 100000) × (nodes ≤ length locks.old) × (nodes ≤ length scratch.now) × (3 * nodes ≤ held ns) × ((v : ℕ) → v < nodes → NodeHolds inputs scratch.now ns v) }
    ensures { let ns = literals node_table.old node_bits.old in
        let ns' = literals node_table.new node_bits.new in
        Cut inputs nodes scratch.now ns locks.old ns' locks.new }
{
    let n = wide(nodes);
    let t = compact(inputs, n, node_table, node_bits, locks, scratch);
    clear_words(node_table, node_bits, 3 * t, 3 * n);
    clear_locks(locks, t, n);
}

// Drops all that is not read, and answers how many nodes are left.
pub fn drop_unread<'x>(
    inputs: u32,
    nodes: u32,
    outputs: u32,
    node_table: &'x mut [u32],
    node_bits: &'x mut [u64],
    output_table: &'x mut [u32],
    output_bits: &'x mut [u64],
    locks: &'x mut [u8],
    scratch: &mut [u32],
) -> u32
    requires { let g = graph_in inputs nodes outputs node_table.old node_bits.old output_table.old output_bits.old in
        Admitted g × LockBytes nodes locks.old × (nodes ≤ length scratch.old) }
    ensures { let g = graph_in inputs nodes outputs node_table.old node_bits.old output_table.old output_bits.old in
        (graph_in inputs result outputs node_table.new node_bits.new output_table.new output_bits.new ≡ dropped g locks.old) × (locks.new ≡ dropped_locks g locks.old) }
{
    let lent = Lent {
        inputs,
        nodes,
        outputs,
        node_table: Table {
            indices: node_table,
            bits: node_bits,
        },
        output_table: Table {
            indices: output_table,
            bits: output_bits,
        },
        locks,
    };
    let left = number(&lent, scratch);
    cut(inputs, nodes, node_table, node_bits, locks, scratch);
    renumber_outputs(inputs, outputs, output_table, output_bits, scratch);
    left
}
