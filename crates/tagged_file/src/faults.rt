// How many bytes a file takes, and what refuses to write it.
ghost use Rattle.std.specs.Prelude.{◌≡◌, ◌==◌, count_by, List, ℕ, ◌+◌, ◌*◌, ◌≤◌, ◌<◌, length, get_or};
ghost use Rattle.graph.specs.Answer.{refusal_number};
ghost use Rattle.graph.specs.Graph.{graph_of};
ghost use Rattle.graph.specs.Inner.{IsWord, AllReadable};
ghost use Rattle.graph.specs.Literals.{held};
ghost use Rattle.tagged_file.specs.Write.{node_field, node_field_at, lock_field_at, in_order, file_of, write_number};
ghost use Rattle.graph.specs.Tables.{lent_graph, lent_table};

use graph::faults::check_admission;
use graph::table::Table;
use graph::{Lent, Refusal};

// The field of a node that has its third word at place j.
pub fn node_bytes(table: &Table, j: usize) -> usize
    requires { (j < held (lent_table table.now)) × IsWord (get_or (lent_table table.now) j 0) }
    ensures { ((x y : ℕ) → result ≡ length (node_field x y (get_or (lent_table table.now) j 0))) × (result ≤ 15) }
{
    if table.is_mark_at(j) {
        return 11;
    }
    15
}

pub fn nodes_bytes(nodes: u32, node_table: &Table) -> usize
    requires { AllReadable nodes (lent_table node_table.now) }
    ensures { (result ≡ length (in_order (node_field_at (lent_table node_table.now)) 0 nodes)) × (result ≤ 15 * nodes) }
{
    let mut size = 0;
    for v in 0..nodes as usize {
        size += node_bytes(node_table, 3 * v + 2);
    }
    size
}

fn locked_in(locks: &[u8]) -> usize
    ensures { result ≡ count_by (λ b. b == 1) locks.now }
{
    locks.iter().filter(|lock| **lock == 1).count()
}

pub fn locks_bytes(nodes: u32, locks: &[u8]) -> usize
    requires { nodes ≤ length locks.now }
    ensures { ((i : ℕ) → result ≡ length (in_order (lock_field_at i locks.now) 0 nodes)) × (result ≤ 7 * nodes) }
{
    7 * locked_in(&locks[..nodes as usize])
}

pub fn file_bytes(nodes: u32, outputs: u32, node_table: &Table, locks: &[u8]) -> usize
    requires { AllReadable nodes (lent_table node_table.now) × (nodes ≤ length locks.now) }
    ensures { let ns = lent_table node_table.now in
        ((i : ℕ) (os : List ℕ) → result ≡ length (file_of (graph_of i nodes outputs ns os) locks.now)) }
{
    18 + nodes_bytes(nodes, node_table) + 7 * outputs as usize + locks_bytes(nodes, locks)
}

// As many bytes as a file of so many nodes and outputs may have.
pub fn most_bytes(nodes: u32, outputs: u32) -> usize
    ensures { result ≡ 18 + 22 * nodes + 7 * outputs }
{
    18 + 22 * nodes as usize + 7 * outputs as usize
}

// Whether the graph may be written into a buffer of this many bytes. Where any file of so many nodes fits, it is not measured.
pub fn check_write(lent: &Lent, room: usize) -> Result<(), Refusal>
    ensures { let g = lent_graph lent.now in
        refusal_number result ≡ write_number g lent.now.locks.now room }
{
    check_admission(lent)?;
    if most_bytes(lent.nodes, lent.outputs) <= room {
        return Ok(());
    }
    if room < file_bytes(lent.nodes, lent.outputs, &lent.node_table, lent.locks) {
        return Err(Refusal::ShortBuffer);
    }
    Ok(())
}
