// What the words of a node add to C, as they stand and turned.
ghost use Rattle.std.specs.Prelude.{◌≡◌, ℕ, ◌+◌, ◌-◌, ◌<◌, ◌≤◌, List, slice_index};
ghost use Rattle.graph.specs.Finite.{if_equal};
ghost use Rattle.graph.specs.Graph.{graph_of, index};
ghost use Rattle.graph.specs.Inner.{Readable};
ghost use Rattle.graph.specs.Literals.{held};
ghost use Rattle.moves.specs.Decide.{bits_add, own_costs, naming};
ghost use Rattle.graph.specs.Tables.{lent_table};

use crate::rows;
use graph::table;
use graph::table::Table;

// What words with the bits x, y and z add, each as it stands and turned. An XOR's third is the mark, which adds nothing.
pub fn costs_of(x: u32, y: u32, z: u32, xor: bool) -> [u32; 6]
    requires { (x ≤ 1) × (y ≤ 1) × (z ≤ 1) }
    ensures { result ≡ bits_add x y z xor }
{
    if xor {
        return [x, 1 - x, y, 1 - y, 0, 0];
    }
    [x, 1 - x, y, 1 - y, z, 1 - z]
}

// What the words of node v add.
pub fn own_costs(node_table: &Table, v: usize) -> [u32; 6]
    requires { Readable (lent_table node_table.now) v }
    ensures { (i n o : ℕ) (os : List ℕ) → result ≡ own_costs (graph_of i n o (lent_table node_table.now) os) v }
{
    let at = 3 * v;
    let xor = rows::is_xor(node_table, v);
    let x = node_table.odd_at(at);
    let y = node_table.odd_at(at + 1);
    let z = node_table.odd_at(at + 2);
    costs_of(x, y, z, xor)
}

// 1 where the word at place j names index u.
pub fn names_at(table: &Table, j: usize, u: u32) -> u32
    requires { (j < held (lent_table table.now)) × (u < 2147483647) }
    ensures { result ≡ if_equal (index (slice_index (lent_table table.now) j)) u 1 0 }
{
    u32::from(table.index_at(j) == u)
}

// Which words of node v name index u.
pub fn which_name(node_table: &Table, v: usize, u: u32) -> [u32; 3]
    requires { Readable (lent_table node_table.now) v × (u < 2147483647) }
    ensures { (i n o : ℕ) (os : List ℕ) → result ≡ naming (graph_of i n o (lent_table node_table.now) os) v u }
{
    let at = 3 * v;
    let x = names_at(node_table, at, u);
    let y = names_at(node_table, at + 1, u);
    let z = names_at(node_table, at + 2, u);
    [x, y, z]
}

// a - b, or 0.
pub fn over(a: u32, b: u32) -> u32
    ensures { result ≡ a - b }
{
    if b < a {
        return a - b;
    }
    0
}

pub fn wide(x: u32) -> usize
    ensures { result ≡ x }
{
    x as usize
}

// Which node index u is, counted from 0: past every node where u is no node's. One test of the result then tells.
pub fn node_of(inputs: u32, u: u32) -> u32
    requires { inputs ≤ 4096 }
    ensures { (inputs < u → result ≡ u - (inputs + 1)) × (u ≤ inputs → 4294000000 ≤ result) }
{
    std::num::wrapping_sub_u32(u, inputs + 1)
}

// Node v, or the last where v is none. Words name inputs and nodes in no order that a processor could foresee: where hardly a node has what a
// sweep looks for, it looks there before it is known whether an index is a node's.
pub fn nearest(nodes: u32, v: u32) -> u32
    requires { 0 < nodes }
    ensures { (v < nodes → result ≡ v) × (nodes ≤ v → result ≡ nodes - 1) }
{
    if v < nodes {
        return v;
    }
    nodes - 1
}

pub fn narrow(x: usize) -> u32
    requires { x < 1000000 }
    ensures { result ≡ x }
{
    x as u32
}
