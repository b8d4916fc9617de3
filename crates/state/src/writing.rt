// What the state stands for, written out: the nodes' words of bits whole, and the outputs that are turned.
ghost use Rattle.std.specs.Prelude.{◌≡◌, List, ℕ, ◌+◌, ◌*◌, ◌≤◌, ◌<◌, length};
ghost use Rattle.graph.specs.Inner.{begun, BitsPut};
ghost use Rattle.graph.specs.Literals.{graph_in, held, literals};
ghost use Rattle.graph.specs.Turned.{turned_table, only, up_to};
ghost use Rattle.state.specs.State.{pending_at, due_in, kept_bit, bit_now, stands, Pendings, Ordered};

use crate::flags;
use graph::table;
use graph::table::Table;
use moves::words::{nearest, node_of};

// What `pending_of` tells, for a sweep: hardly a turn is pending.
pub fn due_of(inputs: u32, nodes: u32, u: u32, scratch: &[u32]) -> u32
    requires { Pendings inputs nodes scratch.now }
    ensures { (result ≡ pending_at inputs nodes scratch.now u) × (result ≤ 1) }
{
    let v = node_of(inputs, u);
    if nodes == 0 {
        return 0;
    }
    let w = nearest(nodes, v);
    let at = 8 * w as usize + 2;
    let due = flags::bit_of(scratch[at], 0);
    if due == 0 {
        return 0;
    }
    if w != v {
        return 0;
    }
    due
}

// The complement bit of the word at place j, of which b is kept.
fn word_bit(inputs: u32, nodes: u32, table: &[u32], j: usize, b: u32, scratch: &[u32]) -> u32
    requires { Pendings inputs nodes scratch.now × (j < length table.now) × (b ≤ 1) }
    ensures { (b ≡ kept_bit scratch.now j → result ≡ bit_now inputs nodes scratch.now table.now j) × (result ≤ 1) }
{
    (b + due_of(inputs, nodes, table::raw_at(table, j), scratch)) % 2
}

// The bits of node v's words, put behind those that are gathered.
fn write_node(
    inputs: u32,
    nodes: u32,
    table: &[u32],
    bits: &mut [u64],
    v: usize,
    got: u64,
    scratch: &[u32],
) -> u64
    requires { Pendings inputs nodes scratch.now × (v < nodes) × (3 * v + 2 < length table.now) × (3 * v + 2 < 64 * length bits.old) }
    ensures { let f = bit_now inputs nodes scratch.now table.now in
        ((bs : List ℕ) → BitsPut f bs (begun (3 * v) got bits.old) (3 * v) → BitsPut f bs (begun (3 * v + 3) result bits.new) (3 * v + 3)) }
{
    let at = 3 * v;
    let kept = scratch[8 * v + 2];
    let x = word_bit(inputs, nodes, table, at, flags::bit_of(kept, 1), scratch);
    let y = word_bit(
        inputs,
        nodes,
        table,
        at + 1,
        flags::bit_of(kept, 2),
        scratch,
    );
    let z = word_bit(
        inputs,
        nodes,
        table,
        at + 2,
        flags::bit_of(kept, 3),
        scratch,
    );
    let one = table::put_bit(bits, at, got, x);
    let two = table::put_bit(bits, at + 1, one, y);
    table::put_bit(bits, at + 2, two, z)
}

// The bits of all nodes' words.
pub fn write_nodes(inputs: u32, nodes: u32, table: &[u32], bits: &mut [u64], scratch: &[u32])
    requires { Pendings inputs nodes scratch.now × (3 * nodes ≤ length table.now) × (3 * nodes ≤ 64 * length bits.old) }
    ensures { BitsPut (bit_now inputs nodes scratch.now table.now) bits.old bits.new (3 * nodes) }
{
    let end = nodes as usize;
    let mut got: u64 = 0;
    for v in 0..end {
        got = write_node(inputs, nodes, table, bits, v, got, scratch);
    }
    table::put_last(bits, 3 * end, got);
}

// Output j.
fn write_output(inputs: u32, nodes: u32, table: &[u32], bits: &mut [u64], j: usize, scratch: &[u32])
    requires { Pendings inputs nodes scratch.now × (j < held (literals table.now bits.old)) }
    ensures { let l = literals table.now bits.old in
        literals table.now bits.new ≡ turned_table l (only j (due_in inputs nodes scratch.now l j)) }
{
    let u = Table {
        indices: table,
        bits,
    }
    .index_at(j);
    let t = due_of(inputs, nodes, u, scratch);
    table::turn_word(table, bits, j, t);
}

// All outputs.
pub fn write_outputs(
    inputs: u32,
    nodes: u32,
    table: &[u32],
    bits: &mut [u64],
    count: usize,
    scratch: &[u32],
)
    requires { Pendings inputs nodes scratch.now × (count ≤ held (literals table.now bits.old)) }
    ensures { let l = literals table.now bits.old in
        literals table.now bits.new ≡ turned_table l (up_to count (due_in inputs nodes scratch.now l)) }
{
    for j in 0..count {
        write_output(inputs, nodes, table, bits, j, scratch);
    }
}

// The tables become those of the graph that the state stands for.
pub fn write_out(
    inputs: u32,
    nodes: u32,
    outputs: u32,
    node_table: &[u32],
    node_bits: &mut [u64],
    output_table: &[u32],
    output_bits: &mut [u64],
    scratch: &[u32],
)
    requires { let g = graph_in inputs nodes outputs node_table.now node_bits.old output_table.now output_bits.old in
        Ordered g scratch.now }
    ensures { let g = graph_in inputs nodes outputs node_table.now node_bits.old output_table.now output_bits.old in
        let h = graph_in inputs nodes outputs node_table.now node_bits.new output_table.now output_bits.new in
        h ≡ stands g scratch.now }
{
    write_nodes(inputs, nodes, node_table, node_bits, scratch);
    write_outputs(
        inputs,
        nodes,
        output_table,
        output_bits,
        outputs as usize,
        scratch,
    );
}
