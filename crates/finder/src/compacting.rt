// Nodes moved together, their words by the new indices.
ghost use Rattle.std.specs.Prelude.{◌≡◌, Bool, List, ℕ, ◌+◌, ◌*◌, ◌/◌, ◌≤◌, ◌<◌, length, get_or};
ghost use Rattle.graph.specs.Graph.{graph_of};
ghost use Rattle.graph.specs.Literals.{held, literals};
ghost use Rattle.finder.specs.Compacting.{renumber_by, moved_word, moved_node, Holds, NodeHolds, OutputsMoved, Shifted, Moves, Compacted, Cleared};
ghost use Rattle.graph.specs.Tables.{lent_table};

use crate::nodes::Nodes;
use graph::literal::MARK;
use graph::table::{Table, set_word};
use moves::words::wide;

// A literal by the numbers in scratch.
pub fn renumbered(inputs: u32, scratch: &[u32], x: u32) -> u32
    requires { Holds inputs scratch.now x }
    ensures { result ≡ renumber_by inputs scratch.now x }
{
    let index = x / 2;
    if index <= inputs {
        return x;
    }
    2 * scratch[wide(index - inputs - 1)] + x % 2
}

// All outputs by the numbers in scratch.
pub fn renumber_outputs(
    inputs: u32,
    outputs: u32,
    output_table: &mut [u32],
    output_bits: &mut [u64],
    scratch: &[u32],
)
    requires { let os = literals output_table.old output_bits.old in
        (outputs ≤ held os) × ((j : ℕ) → j < outputs → Holds inputs scratch.now (get_or os j 0)) }
    ensures { let os = literals output_table.old output_bits.old in
        let os' = literals output_table.new output_bits.new in
        OutputsMoved inputs outputs scratch.now os os' }
{
    for j in 0..outputs {
        let at = wide(j);
        let x = Table {
            indices: output_table,
            bits: output_bits,
        }
        .edge_at(at);
        set_word(
            output_table,
            output_bits,
            at,
            renumbered(inputs, scratch, x),
        );
    }
}

// A third word may be the mark, which stays.
fn moved_third(inputs: u32, node_table: &Table, scratch: &[u32], v: usize) -> u32
    requires { let ns = lent_table node_table.now in
        (v ≤ 100000) × (3 * v + 3 ≤ held ns) × NodeHolds inputs scratch.now ns v }
    ensures { let ns = lent_table node_table.now in
        result ≡ moved_word inputs scratch.now ns (3 * v + 2) }
{
    let at = 3 * v + 2;
    if node_table.is_mark_at(at) {
        return MARK;
    }
    renumbered(inputs, scratch, node_table.edge_at(at))
}

// Node v to the place of node t.
fn move_node<'x>(
    inputs: u32,
    node_table: &'x mut [u32],
    node_bits: &'x mut [u64],
    scratch: &[u32],
    v: usize,
    t: usize,
)
    requires { let ns = literals node_table.old node_bits.old in
        (t ≤ v) × (v ≤ 100000) × (3 * v + 3 ≤ held ns) × NodeHolds inputs scratch.now ns v }
    ensures { let ns = literals node_table.old node_bits.old in
        literals node_table.new node_bits.new ≡ moved_node inputs scratch.now ns v t }
{
    let table = Table {
        indices: node_table,
        bits: node_bits,
    };
    let from = 3 * v;
    let at = 3 * t;
    let x = renumbered(inputs, scratch, table.edge_at(from));
    let y = renumbered(inputs, scratch, table.edge_at(from + 1));
    let z = moved_third(inputs, &table, scratch, v);
    set_word(node_table, node_bits, at, x);
    set_word(node_table, node_bits, at + 1, y);
    set_word(node_table, node_bits, at + 2, z);
}

// Node v with its lock to the place t, if it has a number; answers how many places are taken then.
fn shift(
    inputs: u32,
    node_table: &mut [u32],
    node_bits: &mut [u64],
    locks: &mut [u8],
    scratch: &[u32],
    v: usize,
    t: usize,
) -> usize
    requires { let ns = literals node_table.old node_bits.old in
        (t ≤ v) × (v ≤ 100000) × (v < length locks.old) × (v < length scratch.now) × (3 * v + 3 ≤ held ns) × NodeHolds inputs scratch.now ns v }
    ensures { let ns = literals node_table.old node_bits.old in
        let ns' = literals node_table.new node_bits.new in
        Shifted inputs scratch.now v t result ns locks.old ns' locks.new }
{
    if scratch[v] == 0 {
        return t;
    }
    move_node(inputs, node_table, node_bits, scratch, v, t);
    locks[t] = locks[v];
    t + 1
}

// All nodes that have numbers moved together; answers how many they are.
pub fn compact(
    inputs: u32,
    nodes: usize,
    node_table: &mut [u32],
    node_bits: &mut [u64],
    locks: &mut [u8],
    scratch: &[u32],
) -> usize
    requires { let ns = literals node_table.old node_bits.old in
        (nodes ≤ 100000) × (nodes ≤ length locks.old) × (nodes ≤ length scratch.now) × (3 * nodes ≤ held ns) × ((v : ℕ) → v < nodes → NodeHolds inputs scratch.now ns v) }
    ensures { let ns = literals node_table.old node_bits.old in
        let ns' = literals node_table.new node_bits.new in
        (result ≤ nodes) × ((o : ℕ) (os : List ℕ) (l : ℕ → Bool) → Moves (graph_of inputs nodes o ns os) l scratch.now → Compacted (graph_of inputs nodes o ns os) l locks.old nodes result ns' locks.new) }
{
    let mut t: usize = 0;
    for v in 0..nodes {
        t = shift(inputs, node_table, node_bits, locks, scratch, v, t);
    }
    t
}

// The words from a to b are 0. Not by fill: their bits lie in words that others share.
pub fn clear_words(table: &mut [u32], bits: &mut [u64], a: usize, b: usize)
    requires { let xs = literals table.old bits.old in
        (a ≤ b) × (b ≤ 300000) × (b ≤ held xs) }
    ensures { let xs = literals table.old bits.old in
        let xs' = literals table.new bits.new in
        Cleared a b xs xs' }
{
    for j in a..b {
        set_word(table, bits, j, 0);
    }
}

// And lock bytes.
pub fn clear_locks(locks: &mut [u8], a: usize, b: usize)
    requires { (a ≤ b) × (b ≤ 300000) × (b ≤ length locks.old) }
    ensures { Cleared a b locks.old locks.new }
{
    locks[a..b].fill(0);
}
