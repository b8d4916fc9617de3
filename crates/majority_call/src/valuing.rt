// The truth value of a node over three indices as free variables: an explicit stack, whose nodes fall, is linked in scratch, and each
// node is valued once.
ghost use Rattle.std.specs.Prelude.{◌≡◌, ◌+◌, ◌-◌, ◌*◌, ◌/◌, ◌≤◌, ◌<◌, length, cond, false};
ghost use Rattle.state.specs.State.{field};
ghost use Rattle.graph.specs.Admission.{Admitted};
ghost use Rattle.evaluation.specs.Inner.{nodes_of};
ghost use Rattle.hidden.specs.Truth.{triple};
ghost use Rattle.hidden.specs.Ways.{Misses};
ghost use Rattle.majority_call.specs.Valuing.{is_valued, kept_at, known_at, exclusive_of, voted_of, Looked, Asked, Stored4, Valued, Truth};
ghost use Rattle.graph.specs.Tables.{lent_table};

use crate::bytes;
use graph::literal::{MARK, index_of};
use graph::table::Table;
use moves::words::{narrow, wide};
use trees::fields::{read, store};

// What is known of an index is a number, since a word of scratch holds it: a byte, this, or 512 and the index of a node that it waits for.
pub const LEAK: u32 = 256;

pub const UNKNOWN: u32 = 512;

// Whether scratch has a value of node v over the triple.
fn is_valued(scratch: &[u32], one: u32, two: u32, three: u32, v: usize) -> bool
    requires { (v < 100000) × (8 * v + 8 ≤ length scratch.now) }
    ensures { result ≡ is_valued scratch.now (triple one two three) v }
{
    if read(scratch, v, 2) != one {
        return false;
    }
    if read(scratch, v, 3) != two {
        return false;
    }
    read(scratch, v, 4) == three
}

fn stored(scratch: &[u32], one: u32, two: u32, three: u32, v: usize) -> u32
    requires { (v < 100000) × (8 * v + 8 ≤ length scratch.now) }
    ensures { result ≡ cond (is_valued scratch.now (triple one two three) v) (field scratch.now v 5) 512 }
{
    if is_valued(scratch, one, two, three, v) {
        return read(scratch, v, 5);
    }
    UNKNOWN
}

// A node below the triple that has an input below leaks.
fn kept_at(inputs: u32, scratch: &[u32], one: u32, two: u32, three: u32, v: usize) -> u32
    requires { (inputs ≤ 4096) × (v < 100000) × (8 * v + 8 ≤ length scratch.now) }
    ensures { result ≡ kept_at inputs scratch.now (triple one two three) v }
{
    if one as usize <= inputs as usize + 1 + v {
        return stored(scratch, one, two, three, v);
    }
    if 1 < read(scratch, v, 0) {
        return LEAK;
    }
    stored(scratch, one, two, three, v)
}

// What is known of an index without valuing a node.
fn known_at(inputs: u32, scratch: &[u32], one: u32, two: u32, three: u32, index: u32) -> u32
    requires { (inputs ≤ 4096) × (index ≤ inputs + 100000) × (8 * (index - inputs) ≤ length scratch.now) }
    ensures { result ≡ known_at inputs scratch.now (triple one two three) index }
{
    if index == one {
        return 170;
    }
    if index == two {
        return 204;
    }
    if index == three {
        return 240;
    }
    if index == 0 {
        return 0;
    }
    if index <= inputs {
        return LEAK;
    }
    kept_at(
        inputs,
        scratch,
        one,
        two,
        three,
        (index - inputs - 1) as usize,
    )
}

// Of the words x and y of an XOR and what is known of them.
fn exclusive_of(a: u32, b: u32, x: u32, y: u32) -> u32
    requires { (x / 2 < 200000) × (y / 2 < 200000) }
    ensures { result ≡ exclusive_of a b x y }
{
    if a == LEAK {
        return LEAK;
    }
    if b == LEAK {
        return LEAK;
    }
    if a == UNKNOWN {
        return UNKNOWN + index_of(x);
    }
    if b == UNKNOWN {
        return UNKNOWN + index_of(y);
    }
    bytes::exclusive_byte(bytes::turned(a, x), bytes::turned(b, y))
}

fn majority_of(a: u32, b: u32, c: u32, x: u32, y: u32, z: u32) -> u32
    requires { (x / 2 < 200000) × (y / 2 < 200000) × (z / 2 < 200000) }
    ensures { result ≡ voted_of a b c x y z }
{
    if a == LEAK {
        return LEAK;
    }
    if b == LEAK {
        return LEAK;
    }
    if c == LEAK {
        return LEAK;
    }
    if a == UNKNOWN {
        return UNKNOWN + index_of(x);
    }
    if b == UNKNOWN {
        return UNKNOWN + index_of(y);
    }
    if c == UNKNOWN {
        return UNKNOWN + index_of(z);
    }
    bytes::majority_byte(
        bytes::turned(a, x),
        bytes::turned(b, y),
        bytes::turned(c, z),
    )
}

// Looks at node v: its truth value, or 512 and the index of a node to be valued before it.
fn look(
    inputs: u32,
    nodes: u32,
    node_table: &Table,
    scratch: &[u32],
    one: u32,
    two: u32,
    three: u32,
    v: usize,
) -> u32
    requires { let g = nodes_of inputs nodes (lent_table node_table.now) in
        let t = triple one two three in
        Admitted g × (8 * nodes ≤ length scratch.now) × (v < nodes) × Asked g scratch.now t × Misses t (inputs + 1 + v) }
    ensures { let g = nodes_of inputs nodes (lent_table node_table.now) in
        Looked g scratch.now (triple one two three) v result }
{
    let at = 3 * v;
    let third = node_table.word_at(at + 2);
    let x = node_table.edge_at(at);
    let y = node_table.edge_at(at + 1);
    let a = known_at(inputs, scratch, one, two, three, index_of(x));
    let b = known_at(inputs, scratch, one, two, three, index_of(y));
    if third == MARK {
        return exclusive_of(a, b, x, y);
    }
    let c = known_at(inputs, scratch, one, two, three, index_of(third));
    majority_of(a, b, c, x, y, third)
}

// Stores the value of node v over the triple.
fn keep(scratch: &mut [u32], one: u32, two: u32, three: u32, v: usize, value: u32)
    requires { (v < 100000) × (8 * v + 8 ≤ length scratch.old) }
    ensures { Stored4 v (triple one two three) value scratch.old scratch.new }
{
    store(scratch, v, 2, one);
    store(scratch, v, 3, two);
    store(scratch, v, 4, three);
    store(scratch, v, 5, value);
}

// Goes down from a node to one whose words are all known, and values that. Answers which.
fn value_one(
    inputs: u32,
    nodes: u32,
    node_table: &Table,
    scratch: &mut [u32],
    one: u32,
    two: u32,
    three: u32,
    start: usize,
) -> usize
    requires { let g = nodes_of inputs nodes (lent_table node_table.now) in
        let t = triple one two three in
        Admitted g × (8 * nodes ≤ length scratch.old) × (start < nodes) × Asked g scratch.old t × Misses t (inputs + 1 + start) × (is_valued scratch.old t start ≡ false) }
    ensures { let g = nodes_of inputs nodes (lent_table node_table.now) in
        Valued g (triple one two three) start result scratch.old scratch.new }
{
    let mut v = start;
    let mut seen = look(inputs, nodes, node_table, scratch, one, two, three, v);
    while UNKNOWN <= seen {
        let next = (seen - UNKNOWN - inputs - 1) as usize;
        store(scratch, next, 1, narrow(v));
        v = next;
        seen = look(inputs, nodes, node_table, scratch, one, two, three, v);
    }
    keep(scratch, one, two, three, v, seen);
    v
}

// The truth value of node u over the triple, 256 being a leak.
pub fn truth(
    inputs: u32,
    nodes: u32,
    node_table: &Table,
    scratch: &mut [u32],
    one: u32,
    two: u32,
    three: u32,
    u: usize,
) -> u32
    requires { let g = nodes_of inputs nodes (lent_table node_table.now) in
        let t = triple one two three in
        Admitted g × (8 * nodes ≤ length scratch.old) × (u < nodes) × Asked g scratch.old t × (three < inputs + 1 + u) }
    ensures { let g = nodes_of inputs nodes (lent_table node_table.now) in
        Truth g (triple one two three) u result scratch.old scratch.new }
{
    if is_valued(scratch, one, two, three, u) {
        return read(scratch, u, 5);
    }
    let mut v = value_one(inputs, nodes, node_table, scratch, one, two, three, u);
    while v != u {
        let p = wide(read(scratch, v, 1));
        v = value_one(inputs, nodes, node_table, scratch, one, two, three, p);
    }
    read(scratch, u, 5)
}
