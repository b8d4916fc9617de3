// Whether a graph with its locks is refused, by 3, 4, 5 or 13.
ghost use Rattle.std.specs.Prelude.{◌≡◌, ℕ, ◌+◌, ◌*◌, ◌/◌, ◌<◌, ◌≤◌, max, List, length};
ghost use Rattle.graph.specs.Finite.{first, first_of, if_less, if_equal, sum};
ghost use Rattle.graph.specs.Graph.{graph_of, mark};
ghost use Rattle.graph.specs.Admission.{room_number, word_number, output_number, stray_number, literal_number, locks_number, content_number, tables_number, admission_number};
ghost use Rattle.graph.specs.Answer.{number_of, refusal_number};
ghost use Rattle.graph.specs.Inner.{over_at, high_node, fault_at, Counts, IsRefusal};
ghost use Rattle.graph.specs.Literals.{index_at, held, literals};
ghost use Rattle.graph.specs.Tables.{lent_graph, lent_table};

use crate::literal::MARK;
use crate::table::{Table, bit_at, ones_from, raw_at, room_of, thirds_at};
use crate::{Lent, Refusal};

// By the limits, by the literals that the lent tables hold, and by the lock bytes.
pub fn check_room(
    inputs: u32,
    nodes: u32,
    outputs: u32,
    node_room: usize,
    output_room: usize,
    lock_room: usize,
) -> Result<(), Refusal>
    ensures { refusal_number result ≡ room_number inputs nodes outputs node_room output_room lock_room }
{
    if 4096 < inputs {
        return Err(Refusal::OverLimit);
    }
    if 100000 < nodes {
        return Err(Refusal::OverLimit);
    }
    if 4096 < outputs {
        return Err(Refusal::OverLimit);
    }
    if node_room < 3 * nodes as usize {
        return Err(Refusal::ShortSlice);
    }
    if output_room < outputs as usize {
        return Err(Refusal::ShortSlice);
    }
    if lock_room < nodes as usize {
        return Err(Refusal::ShortSlice);
    }
    Ok(())
}

// 1 where the index x is above `last`, else 0: a number, so that no sweep jumps by it.
fn above(x: u32, last: u32) -> u32
    ensures { (result ≡ if_less x (last + 1) 0 1) × (result ≤ 1) }
{
    if x <= last {
        return 0;
    }
    1
}

// The same of a third word, which may be the mark.
fn third_above(x: u32, last: u32) -> u32
    requires { last ≤ 1000000 }
    ensures { (result ≡ if_equal x mark 0 (if_less x (last + 1) 0 1)) × (result ≤ 1) }
{
    above(std::num::wrapping_add_u32(x, 1), last + 1)
}

// How many of the three words from place `at` on name an index above `last`.
fn high_node(last: u32, table: &[u32], at: usize) -> u32
    requires { (last ≤ 1000000) × (at + 2 < length table.now) }
    ensures { (result ≡ high_node (last + 1) table.now at) × (result ≤ 3) }
{
    let x = above(raw_at(table, at), last);
    let y = above(raw_at(table, at + 1), last);
    let z = third_above(raw_at(table, at + 2), last);
    x + y + z
}

// The bit b where x is the mark, else 0.
fn mark_bit(x: u32, b: u32) -> u32
    ensures { (result ≡ if_equal x mark b 0) × (result ≤ b) }
{
    if x == MARK {
        return b;
    }
    0
}

// How many words of a node are at fault, where a mark with its bit counts for b.
fn node_faults(last: u32, table: &[u32], at: usize, b: u32) -> u32
    requires { (last ≤ 1000000) × (at + 2 < length table.now) × (b ≤ 2048) }
    ensures { (result ≡ high_node (last + 1) table.now at + if_equal (index_at table.now (at + 2)) mark b 0) × (result ≤ 2051) }
{
    let high = high_node(last, table, at);
    high + mark_bit(raw_at(table, at + 2), b)
}

// How many words are at fault, four nodes a turn with a sum for each, and the bits of their third words as they stand: the compiler makes vectors
// of that. So a mark with its bit counts for more than 1.
pub fn four_faults(inputs: u32, nodes: u32, node_table: &Table) -> u32
    requires { (inputs ≤ 4096) × (nodes ≤ 100000) × (3 * nodes ≤ length node_table.now.indices.now) × (3 * nodes ≤ 64 * length node_table.now.bits.now) }
    ensures { Counts (sum (12 * (nodes / 4)) (fault_at inputs node_table.now.indices.now node_table.now.bits.now)) result × (result ≤ 300000000) }
{
    let turns = nodes as usize / 4;
    let mut first: u32 = 0;
    let mut second: u32 = 0;
    let mut third: u32 = 0;
    let mut fourth: u32 = 0;
    for j in 0..turns {
        let at = 12 * j;
        let last = inputs + 4 * j as u32;
        let b = thirds_at(node_table.bits, at);
        first += node_faults(last, node_table.indices, at, b / 4 % 2 * 4);
        second += node_faults(last + 1, node_table.indices, at + 3, b / 32 % 2 * 32);
        third += node_faults(last + 2, node_table.indices, at + 6, b / 256 % 2 * 256);
        fourth += node_faults(last + 3, node_table.indices, at + 9, b / 2048 % 2 * 2048);
    }
    first + second + third + fourth
}

// How many words of the nodes after the last four are.
pub fn rest_faults(inputs: u32, nodes: u32, node_table: &Table) -> u32
    requires { (inputs ≤ 4096) × (nodes ≤ 100000) × (3 * nodes ≤ length node_table.now.indices.now) × (3 * nodes ≤ 64 * length node_table.now.bits.now) }
    ensures { let f = fault_at inputs node_table.now.indices.now node_table.now.bits.now in
        (sum (12 * (nodes / 4)) f + result ≡ sum (3 * nodes) f) × (result ≤ 300000000) }
{
    let mut c: u32 = 0;
    for v in (4 * (nodes / 4))..nodes {
        let at = 3 * v as usize;
        c += node_faults(
            inputs + v,
            node_table.indices,
            at,
            bit_at(node_table.bits, at + 2),
        );
    }
    c
}

// Refused by 5 where something is counted.
fn check_none(count: u32) -> Result<(), Refusal>
    ensures { refusal_number result ≡ if_less 0 count 5 0 }
{
    if 0 < count {
        return Err(Refusal::BadLiteral);
    }
    Ok(())
}

pub fn check_nodes(inputs: u32, nodes: u32, node_table: &Table) -> Result<(), Refusal>
    requires { (inputs ≤ 4096) × (nodes ≤ 100000) × (3 * nodes ≤ held (lent_table node_table.now)) }
    ensures { let ns = lent_table node_table.now in
        ((o : ℕ) (os : List ℕ) → refusal_number result ≡ first_of (3 * nodes) (word_number (graph_of inputs nodes o ns os))) }
{
    let fours = four_faults(inputs, nodes, node_table);
    let rest = rest_faults(inputs, nodes, node_table);
    check_none(fours + rest)
}

// How many of the outputs name an index above `last`.
pub fn high_outputs(last: u32, outputs: u32, output_table: &[u32]) -> u32
    requires { (outputs ≤ 4096) × (outputs ≤ length output_table.now) }
    ensures { result ≡ sum outputs (over_at (last + 1) output_table.now) }
{
    let mut c: u32 = 0;
    for j in 0..outputs {
        c += above(raw_at(output_table, j as usize), last);
    }
    c
}

pub fn check_outputs(
    inputs: u32,
    nodes: u32,
    outputs: u32,
    output_table: &Table,
) -> Result<(), Refusal>
    requires { (inputs ≤ 4096) × (nodes ≤ 100000) × (outputs ≤ 4096) × (outputs ≤ held (lent_table output_table.now)) }
    ensures { let os = lent_table output_table.now in
        ((ns : List ℕ) → refusal_number result ≡ first_of outputs (output_number (graph_of inputs nodes outputs ns os))) }
{
    check_none(high_outputs(inputs + nodes, outputs, output_table.indices))
}

// A bit is set past the last of n literals, in its word.
pub fn check_strays(n: usize, bits: &[u64]) -> Result<(), Refusal>
    requires { n ≤ 64 * length bits.now }
    ensures { (us : List ℕ) → refusal_number result ≡ stray_number n (literals us bits.now) }
{
    if n % 64 == 0 {
        return Ok(());
    }
    if ones_from(bits, n) != 0 {
        return Err(Refusal::BadLiteral);
    }
    Ok(())
}

pub fn check_words(lent: &Lent) -> Result<(), Refusal>
    requires { let ns = lent_table lent.now.node_table in
        let os = lent_table lent.now.output_table in
        (lent.now.inputs ≤ 4096) × (lent.now.nodes ≤ 100000) × (lent.now.outputs ≤ 4096) × (3 * lent.now.nodes ≤ held ns) × (lent.now.outputs ≤ held os) }
    ensures { refusal_number result ≡ first (first_of (3 * lent.now.nodes) (word_number (lent_graph lent.now))) (first_of lent.now.outputs (output_number (lent_graph lent.now))) }
{
    check_nodes(lent.inputs, lent.nodes, &lent.node_table)?;
    check_outputs(lent.inputs, lent.nodes, lent.outputs, &lent.output_table)
}

// By the bits past the last literals, then by the literals.
pub fn check_literals(lent: &Lent) -> Result<(), Refusal>
    requires { let ns = lent_table lent.now.node_table in
        let os = lent_table lent.now.output_table in
        (lent.now.inputs ≤ 4096) × (lent.now.nodes ≤ 100000) × (lent.now.outputs ≤ 4096) × (3 * lent.now.nodes ≤ held ns) × (lent.now.outputs ≤ held os) }
    ensures { refusal_number result ≡ literal_number (lent_graph lent.now) }
{
    check_strays(3 * lent.nodes as usize, lent.node_table.bits)?;
    check_strays(lent.outputs as usize, lent.output_table.bits)?;
    check_words(lent)
}

// By the greatest lock byte: that takes no jump a byte.
pub fn check_locks(nodes: u32, locks: &[u8]) -> Result<(), Refusal>
    requires { nodes ≤ length locks.now }
    ensures { refusal_number result ≡ locks_number nodes locks.now }
{
    let mut most: u8 = 0;
    for lock in &locks[..nodes as usize] {
        most = most.max(*lock);
    }
    if 1 < most {
        return Err(Refusal::BadLock);
    }
    Ok(())
}

// By all literals, then by all locks.
pub fn check_content(lent: &Lent) -> Result<(), Refusal>
    requires { tables_number (lent_graph lent.now) lent.now.locks.now ≡ 0 }
    ensures { refusal_number result ≡ content_number (lent_graph lent.now) lent.now.locks.now }
{
    check_literals(lent)?;
    check_locks(lent.nodes, lent.locks)
}

// By the limits and by what is lent.
pub fn check_tables(lent: &Lent) -> Result<(), Refusal>
    ensures { refusal_number result ≡ tables_number (lent_graph lent.now) lent.now.locks.now }
{
    check_room(
        lent.inputs,
        lent.nodes,
        lent.outputs,
        room_of(lent.node_table.indices, lent.node_table.bits),
        room_of(lent.output_table.indices, lent.output_table.bits),
        lent.locks.len(),
    )
}

pub fn check_admission(lent: &Lent) -> Result<(), Refusal>
    ensures { refusal_number result ≡ admission_number (lent_graph lent.now) lent.now.locks.now }
{
    check_tables(lent)?;
    check_content(lent)
}
