// What refuses a list of moves.
ghost use Rattle.std.specs.Prelude.{◌≡◌, List, ℕ, ◌≤◌, ◌<◌, length};
ghost use Rattle.graph.specs.Answer.{refusal_number};
ghost use Rattle.graph.specs.Graph.{graph_of};
ghost use Rattle.many.specs.Many.{rising_fault, entry_number, list_number, many_number};
ghost use Rattle.many.specs.Making.{Rooms};
ghost use Rattle.graph.specs.Tables.{lent_graph, lent_table};

use graph::faults::{check_content, check_tables};
use graph::table::{Table, byte_at};
use graph::{Lent, Refusal};
use moves::faults::{check_move, check_node};

// Whether entry j is above the entry before.
pub fn check_rising(list: &[u32], j: usize) -> Result<(), Refusal>
    requires { j < length list.now }
    ensures { refusal_number result ≡ rising_fault list.now j }
{
    if j == 0 {
        return Ok(());
    }
    if list[j - 1] < list[j] {
        return Ok(());
    }
    Err(Refusal::NotRising)
}

pub fn check_entry(
    inputs: u32,
    nodes: u32,
    node_table: &Table,
    locks: &[u8],
    list: &[u32],
    bytes: &[u8],
    j: usize,
) -> Result<(), Refusal>
    requires { let l = lent_table node_table.now in
        Rooms inputs nodes l locks.now × (j < length list.now) × (length list.now ≤ length bytes.now) }
    ensures { let l = lent_table node_table.now in
        ((o : ℕ) (os : List ℕ) → refusal_number result ≡ entry_number (graph_of inputs nodes o l os) locks.now list.now bytes.now j) }
{
    let u = list[j];
    check_node(inputs, nodes, u)?;
    check_rising(list, j)?;
    let m = byte_at(bytes, j);
    let v = (u - (inputs + 1)) as usize;
    check_move(node_table, locks, v, m)
}

pub fn check_list(
    inputs: u32,
    nodes: u32,
    node_table: &Table,
    locks: &[u8],
    list: &[u32],
    bytes: &[u8],
) -> Result<(), Refusal>
    requires { let l = lent_table node_table.now in
        Rooms inputs nodes l locks.now × (length list.now ≤ length bytes.now) }
    ensures { let l = lent_table node_table.now in
        ((o : ℕ) (os : List ℕ) → refusal_number result ≡ list_number (graph_of inputs nodes o l os) locks.now list.now bytes.now) }
{
    for j in 0..list.len() {
        check_entry(inputs, nodes, node_table, locks, list, bytes, j)?;
    }
    Ok(())
}

pub fn check_many(lent: &Lent, list: &[u32], bytes: &[u8]) -> Result<(), Refusal>
    ensures { let g = lent_graph lent.now in
        refusal_number result ≡ many_number g lent.now.locks.now list.now bytes.now }
{
    check_tables(lent)?;
    if bytes.len() < list.len() {
        return Err(Refusal::ShortSlice);
    }
    check_content(lent)?;
    check_list(
        lent.inputs,
        lent.nodes,
        &lent.node_table,
        lent.locks,
        list,
        bytes,
    )
}
