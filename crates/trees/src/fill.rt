// Readers, odd readers and the places of only readers: one sweep over each table, and one over the nodes.
ghost use Rattle.std.specs.Prelude.{◌≡◌, ℕ, ◌+◌, ◌*◌, ◌≤◌, ◌<◌, length};
ghost use Rattle.state.specs.State.{field};
ghost use Rattle.trees.specs.Filling.{Counting, Noted, Noting, Notes, only_place, Gathered, GatheredTo};
ghost use Rattle.graph.specs.Inner.{Names, Readable};
ghost use Rattle.graph.specs.Literals.{bit_of, held};
ghost use Rattle.graph.specs.Tables.{lent_table};

use crate::fields::{read, store};
use graph::literal::MARK;
use graph::table;
use graph::table::Table;
use moves::words::node_of;

// The word at place p, which has the index u and the bit b, noted at the node that it names: counted in field f, its bit added in field
// 1, its place kept in field f + 1. The mark names none.
pub fn note(inputs: u32, nodes: usize, u: u32, b: u32, p: u32, f: usize, scratch: &mut [u32])
    requires { Counting inputs nodes f scratch.old 999999 × (b ≤ 1) }
    ensures { (x : ℕ) → Names x u → b ≡ bit_of x → Noted inputs nodes f x p scratch.old scratch.new }
{
    let v = node_of(inputs, u) as usize;
    if nodes <= v {
        return;
    }
    let count = read(scratch, v, f);
    store(scratch, v, f, count + 1);
    let odd = read(scratch, v, 1);
    store(scratch, v, 1, odd + b);
    store(scratch, v, f + 1, p);
}

pub fn note_all(
    inputs: u32,
    nodes: usize,
    table: &Table,
    words: usize,
    f: usize,
    scratch: &mut [u32],
)
    requires { Noting inputs nodes f scratch.old × (words ≤ 300000) × (words ≤ held (lent_table table.now)) }
    ensures { Notes inputs nodes f (lent_table table.now) scratch.old scratch.new words }
{
    for p in 0..words {
        let u = table.index_at(p);
        let b = table.odd_at(p);
        note(inputs, nodes, u, b, p as u32, f, scratch);
    }
}

// The place of the only reader, if that is in the node table.
pub fn only_place(in_nodes: u32, in_outputs: u32, place: u32) -> u32
    ensures { result ≡ only_place in_nodes in_outputs place }
{
    if in_nodes != 1 {
        return MARK;
    }
    if in_outputs != 0 {
        return MARK;
    }
    place
}

// All readers of node v, the place of an only one, and the complement bits of its words, nothing being pending.
pub fn gather(table: &Table, scratch: &mut [u32], v: usize)
    requires { (v < 100000) × Readable (lent_table table.now) v × (8 * v + 8 ≤ length scratch.old) × (field scratch.old v 4 ≤ 1000000) × (field scratch.old v 6 ≤ 1000000) }
    ensures { Gathered (lent_table table.now) v scratch.old scratch.new }
{
    let a = read(scratch, v, 4);
    let b = read(scratch, v, 6);
    let p = read(scratch, v, 5);
    store(scratch, v, 0, a + b);
    store(scratch, v, 3, only_place(a, b, p));
    store(scratch, v, 2, 2 * table.three_at(v));
}

pub fn gather_all(nodes: usize, table: &Table, scratch: &mut [u32])
    requires { (nodes ≤ 100000) × (8 * nodes ≤ length scratch.old) × ((v : ℕ) → v < nodes → Readable (lent_table table.now) v × (field scratch.old v 4 ≤ 1000000) × (field scratch.old v 6 ≤ 1000000)) }
    ensures { GatheredTo (lent_table table.now) nodes scratch.old scratch.new nodes }
{
    for v in 0..nodes {
        gather(table, scratch, v);
    }
}
