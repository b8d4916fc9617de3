// A list of moves made by one sweep of each table. A node's words name indices below its own, so that when the sweep comes to a node it is
// known of each of them whether its readers are turned: a bit an index says so, in words of this call's own.
ghost use Rattle.std.specs.Prelude.{◌≡◌, false, cond, List, ℕ, ◌+◌, ◌*◌, ◌%◌, ◌≤◌, ◌<◌, length, get_or};
ghost use Rattle.graph.specs.Admission.{Admitted};
ghost use Rattle.graph.specs.Count.{C};
ghost use Rattle.graph.specs.Finite.{difference};
ghost use Rattle.graph.specs.Graph.{index, is_xor};
ghost use Rattle.graph.specs.Turned.{turned_table, only, up_to};
ghost use Rattle.graph.specs.Literals.{bit_at, graph_in, held, literals};
ghost use Rattle.moves.specs.Apply.{Choice};
ghost use Rattle.moves.specs.Call.{moved};
ghost use Rattle.moves.specs.Rows.{arity, kind_moves};
ghost use Rattle.many.specs.Making.{Ready, Listed, Noted, Row, bare, chosen, nodes_to, named};
ghost use Rattle.graph.specs.Tables.{lent_table};

use crate::walk;
use graph::table::Table;
use graph::{Lent, table};
use moves::rows;

// Words for a bit of each index that a graph can have: 4,096 inputs, 100,000 nodes and the constant.
const SEEN: usize = 1627;

// What move m of a kind turns, four bits: words 1 to 3, lowest first, and every reader. The rows of document 01's table are one number: a table
// would be written out at each use.
fn row_of(xor: bool, m: u32) -> u32
    requires { m < arity xor }
    ensures { Row xor m result }
{
    (11088112u32 >> (4 * (2 * xor as u32 + m))) % 16
}

// Turns bit u t times.
pub fn note(seen: &mut [u64], u: usize, t: u32)
    requires { u < 64 * length seen.old }
    ensures { (w : ℕ) → bit_at seen.new w ≡ (bit_at seen.old w + only u t w) % 2 }
{
    let k = u / 64;
    seen[k] = table::flipped(seen[k], u % 64, t);
}

// How often the word at place j is turned, by its own node's move, which turns it f times, and by that of the index that it names.
pub fn turns_at(table: &Table, seen: &[u64], j: usize, f: u32) -> u32
    requires { let l = lent_table table.now in
        (f ≤ 1) × (j < held l) × (index (get_or l j 0) < 104128) × (length seen.now ≡ 1627) }
    ensures { let l = lent_table table.now in
        (result ≡ f + named seen.now l j) × (result ≤ 2) }
{
    let u = table.index_at(j);
    f + table::bit_at(seen, u as usize)
}

// The first of two indices where `xor` holds, else the second.
fn either_index(xor: bool, u: u32, v: u32) -> u32
    ensures { result ≡ cond xor u v }
{
    if xor {
        return u;
    }
    v
}

// The same of the third word of the node whose words are from place `at` on. An XOR has none: its first index is looked up, so that nothing jumps by
// the kind, which a processor could not foresee.
fn third_turns(table: &Table, seen: &[u64], at: usize, xor: bool, f: u32) -> u32
    requires { let l = lent_table table.now in
        (f ≤ 1) × (at + 2 < held l) × (index (get_or l at 0) < 104128) × (xor ≡ false → index (get_or l (at + 2) 0) < 104128) × (length seen.now ≡ 1627) }
    ensures { let l = lent_table table.now in
        (result ≡ cond xor 0 (f + named seen.now l (at + 2))) × (result ≤ 2) }
{
    let first = table.index_at(at);
    let third = table.index_at(at + 2);
    let u = either_index(xor, first, third);
    (f + table::bit_at(seen, u as usize)) * (1 - xor as u32)
}

// Turns the words of node v as its move's row says: an XOR's two or a majority's three. A sweep that has come to the node goes past it.
fn turn_words<'x>(
    inputs: u32,
    nodes: u32,
    node_table: &'x [u32],
    node_bits: &'x mut [u64],
    seen: &[u64],
    v: usize,
    xor: bool,
    row: u32,
)
    requires { let g = bare inputs nodes (literals node_table.now node_bits.old) in
        Admitted g × (v < nodes) × (xor ≡ is_xor g v) × (length seen.now ≡ 1627) }
    ensures { let l = literals node_table.now node_bits.old in
        let k = literals node_table.now node_bits.new in
        ((d : Choice) (ns : List ℕ) → Admitted (bare inputs nodes ns) → Noted (bare inputs nodes ns) d seen.now (inputs + 1 + v)
        → Row xor (d (inputs + 1 + v)) row → l ≡ nodes_to inputs nodes ns d (3 * v) → k ≡ nodes_to inputs nodes ns d (3 * v + 3)) }
{
    let table = Table {
        indices: node_table,
        bits: node_bits,
    };
    let at = 3 * v;
    let x = turns_at(&table, seen, at, row % 2);
    let y = turns_at(&table, seen, at + 1, row / 2 % 2);
    let z = third_turns(&table, seen, at, xor, row / 4 % 2);
    table::turn_three(node_table, node_bits, at, x, y, z);
}

// The same, and notes whether the node's readers are turned.
fn turn_node(
    inputs: u32,
    nodes: u32,
    node_table: &[u32],
    node_bits: &mut [u64],
    seen: &mut [u64],
    v: u32,
    m: u32,
)
    requires { let g = bare inputs nodes (literals node_table.now node_bits.old) in
        Admitted g × (v < nodes) × (m < kind_moves g (inputs + 1 + v)) × (length seen.old ≡ 1627) }
    ensures { let l = literals node_table.now node_bits.old in
        let k = literals node_table.now node_bits.new in
        ((d : Choice) (ns : List ℕ) → Admitted (bare inputs nodes ns) → Noted (bare inputs nodes ns) d seen.old (inputs + 1 + v)
        → m ≡ d (inputs + 1 + v) → l ≡ nodes_to inputs nodes ns d (3 * v)
        → (k ≡ nodes_to inputs nodes ns d (3 * v + 3)) × Noted (bare inputs nodes ns) d seen.new (inputs + 1 + v + 1)) }
{
    let xor = rows::is_xor(
        &Table {
            indices: node_table,
            bits: node_bits,
        },
        v as usize,
    );
    let row = row_of(xor, m);
    turn_words(
        inputs, nodes, node_table, node_bits, seen, v as usize, xor, row,
    );
    note(seen, (inputs + 1 + v) as usize, row / 8 % 2);
}

// The nodes go by rising index, and the list beside them.
fn turn_nodes(
    inputs: u32,
    nodes: u32,
    node_table: &[u32],
    node_bits: &mut [u64],
    seen: &mut [u64],
    list: &[u32],
    bytes: &[u8],
)
    requires { let l = literals node_table.now node_bits.old in
        Ready inputs nodes l list.now bytes.now × Noted (bare inputs nodes l) (chosen list.now bytes.now) seen.old (inputs + 1) }
    ensures { let l = literals node_table.now node_bits.old in
        let k = literals node_table.now node_bits.new in
        let d = chosen list.now bytes.now in
        (k ≡ nodes_to inputs nodes l d (3 * nodes)) × Noted (bare inputs nodes l) d seen.new (inputs + 1 + nodes) }
{
    let mut k: usize = 0;
    for v in 0..nodes {
        let u = inputs + 1 + v;
        let m = walk::move_at(list, bytes, u, k);
        turn_node(inputs, nodes, node_table, node_bits, seen, v, m);
        k = walk::next_place(list, u, k);
    }
}

fn turn_outputs(outputs: u32, output_table: &[u32], output_bits: &mut [u64], seen: &[u64])
    requires { let l = literals output_table.now output_bits.old in
        (outputs ≤ held l) × ((j : ℕ) → j < outputs → index (get_or l j 0) < 104128) × (length seen.now ≡ 1627) }
    ensures { let l = literals output_table.now output_bits.old in
        literals output_table.now output_bits.new ≡ turned_table l (up_to outputs (named seen.now l)) }
{
    let end = outputs as usize;
    for j in 0..end {
        let t = turns_at(
            &Table {
                indices: output_table,
                bits: output_bits,
            },
            seen,
            j,
            0,
        );
        table::turn_word(output_table, output_bits, j, t);
    }
}

// All moves of the list made, and what they save.
pub fn make_all<'x>(
    inputs: u32,
    nodes: u32,
    outputs: u32,
    node_table: &'x [u32],
    node_bits: &'x mut [u64],
    output_table: &'x [u32],
    output_bits: &'x mut [u64],
    list: &[u32],
    bytes: &[u8],
) -> i64
    requires { let g = graph_in inputs nodes outputs node_table.now node_bits.old output_table.now output_bits.old in
        Admitted g × Listed g list.now bytes.now }
    ensures graph { let g = graph_in inputs nodes outputs node_table.now node_bits.old output_table.now output_bits.old in
        let h = graph_in inputs nodes outputs node_table.now node_bits.new output_table.now output_bits.new in
        h ≡ moved g list.now bytes.now }
    ensures saved { let g = graph_in inputs nodes outputs node_table.now node_bits.old output_table.now output_bits.old in
        result ≡ difference (C g) (C (moved g list.now bytes.now)) }
{
    let lent = Lent {
        inputs,
        nodes,
        outputs,
        node_table: Table {
            indices: node_table,
            bits: node_bits,
        },
        output_table: Table {
            indices: output_table,
            bits: output_bits,
        },
        locks: &[],
    };
    let before = graph::edges::complemented(&lent);
    let mut seen = [0u64; SEEN];
    turn_nodes(inputs, nodes, node_table, node_bits, &mut seen, list, bytes);
    turn_outputs(outputs, output_table, output_bits, &seen);
    let turned = Lent {
        inputs,
        nodes,
        outputs,
        node_table: Table {
            indices: node_table,
            bits: node_bits,
        },
        output_table: Table {
            indices: output_table,
            bits: output_bits,
        },
        locks: &[],
    };
    let after = graph::edges::complemented(&turned);
    graph::signed::less(before as u64, after as u64)
}
