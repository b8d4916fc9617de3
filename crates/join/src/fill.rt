// The joined graph's words and locks, into lent slices.
ghost use Rattle.std.specs.Prelude.{◌≡◌, [], ◌∷◌, ℕ, ◌+◌, ◌*◌, ◌≤◌, ◌<◌, length, get_or};
ghost use Rattle.std.proofs.Math.Seq.{paste};
ghost use Rattle.graph.specs.Finite.{tab, if_equal};
ghost use Rattle.graph.specs.Graph.{mark, index};
ghost use Rattle.graph.specs.Inner.{IsWord, Readable, begun, three_bits, words_put};
ghost use Rattle.graph.specs.Literals.{literals, held, filled};
ghost use Rattle.join.specs.Filling.{met_by, met_word_by, Meets, Stand};
ghost use Rattle.graph.specs.Tables.{lent_table};

use graph::literal::{MARK, turned};
use graph::table::{Table, copy_words, put_last, put_node, put_word, raw_at};

// The first graph as the second meets it: its outputs, its indices above the constant, and the second's inputs, which its outputs drive.
#[derive(Clone, Copy)]
pub struct Front<'a> {
    pub outputs: Table<'a>,
    pub base: u32,
    pub inputs: u32,
    ghost meets: { Meets (lent_table outputs) base inputs },
}

// A literal of the second graph, met. Most name nodes: that is asked first.
pub fn met(x: u32, front: &Front) -> u32
    requires { index x ≤ 104096 }
    ensures { (result ≡ met_by (lent_table front.now.outputs) front.now.base front.now.inputs x) × (index result ≤ 208192) }
{
    let index = x / 2;
    if front.inputs < index {
        return x + 2 * front.base - 2 * front.inputs;
    }
    if index == 0 {
        return x;
    }
    let y = front.outputs.edge_at((index - 1) as usize);
    turned(x % 2, y)
}

// The same of a third word, which may be the mark.
pub fn met_third(x: u32, front: &Front) -> u32
    requires { (x ≡ mark → ⊥) → index x ≤ 104096 }
    ensures { (result ≡ if_equal x mark mark (met_by (lent_table front.now.outputs) front.now.base front.now.inputs x)) × IsWord result }
{
    if x == MARK {
        return MARK;
    }
    met(x, front)
}

// Word k of node v, whose words have these bits, where it is known to be an edge: without the test of the mark.
pub fn edge_of(table: &Table, v: usize, k: usize, three: u32) -> u32
    requires { let l = lent_table table.now in
        Readable l v × (k ≤ 2) × (index (get_or l (3 * v + k) 0) < 2147483647) × (three ≡ three_bits l v) }
    ensures { result ≡ get_or (lent_table table.now) (3 * v + k) 0 }
{
    2 * raw_at(table.indices, 3 * v + k) + (three >> k) % 2
}

// Puts the words of the first's nodes: what has full words of bits is copied. Returns the bits that are gathered then.
pub fn copy_nodes(
    nodes: u32,
    node_table: &Table,
    joined_node_table: &mut [u32],
    joined_node_bits: &mut [u64],
) -> u64
    requires fact { let ns = lent_table node_table.now in
        (nodes ≤ 100000) × (3 * nodes ≤ held ns) × ((j : ℕ) → j < 3 * nodes → IsWord (get_or ns j 0)) }
    requires nodes_bound { 3 * nodes ≤ held (literals joined_node_table.old joined_node_bits.old) }
    ensures { let ns = lent_table node_table.now in
        let before = literals joined_node_table.old joined_node_bits.old in
        literals joined_node_table.new (begun (3 * nodes) result joined_node_bits.new) ≡ filled (tab (3 * nodes) (λ j. get_or ns j 0)) before }
{
    let end = 3 * nodes as usize;
    let words = end / 64;
    copy_words(words, node_table, joined_node_table, joined_node_bits);
    let mut got: u64 = 0;
    for j in 64 * words..end {
        let x = node_table.word_at(j);
        got = put_word(joined_node_table, joined_node_bits, j, got, x);
    }
    got
}

// Puts the words of node v of the second, met, from place `at` on.
pub fn meet_node(
    v: usize,
    at: usize,
    got: u64,
    second_node_table: &Table,
    front: &Front,
    joined_node_table: &mut [u32],
    joined_node_bits: &mut [u64],
) -> u64
    requires stand { Stand (v + 1) (lent_table second_node_table.now) }
    requires at_bound { at + 3 ≤ held (literals joined_node_table.old joined_node_bits.old) }
    ensures { let word = met_word_by (lent_table second_node_table.now) (lent_table front.now.outputs) front.now.base front.now.inputs in
        let words = word (3 * v) ∷ word (3 * v + 1) ∷ word (3 * v + 2) ∷ [] in
        let before = literals joined_node_table.old (begun at got joined_node_bits.old) in
        literals joined_node_table.new (begun (at + 3) result joined_node_bits.new) ≡ words_put at words before }
{
    let three = second_node_table.three_at(v);
    let first = edge_of(second_node_table, v, 0, three);
    let x = met(first, front);
    let second = edge_of(second_node_table, v, 1, three);
    let y = met(second, front);
    let third = second_node_table.word_of(v, 2, three);
    let z = met_third(third, front);
    put_node(joined_node_table, joined_node_bits, at, got, x, y, z)
}

// Puts the words of the second's nodes, met, from place `start` on, and the last word of bits.
pub fn meet_nodes(
    start: usize,
    got: u64,
    second_nodes: u32,
    second_node_table: &Table,
    front: &Front,
    joined_node_table: &mut [u32],
    joined_node_bits: &mut [u64],
)
    requires stand { Stand second_nodes (lent_table second_node_table.now) }
    requires start_bound { (start ≤ 300000) × (start + 3 * second_nodes ≤ held (literals joined_node_table.old joined_node_bits.old)) }
    ensures { let word = met_word_by (lent_table second_node_table.now) (lent_table front.now.outputs) front.now.base front.now.inputs in
        let before = literals joined_node_table.old (begun start got joined_node_bits.old) in
        literals joined_node_table.new joined_node_bits.new ≡ words_put start (tab (3 * second_nodes) word) before }
{
    let end = second_nodes as usize;
    let mut more = got;
    for v in 0..end {
        more = meet_node(
            v,
            start + 3 * v,
            more,
            second_node_table,
            front,
            joined_node_table,
            joined_node_bits,
        );
    }
    put_last(joined_node_bits, start + 3 * end, more);
}

// Puts the second's outputs, met.
pub fn meet_outputs(
    outputs: u32,
    second_output_table: &Table,
    front: &Front,
    joined_output_table: &mut [u32],
    joined_output_bits: &mut [u64],
)
    requires fact { let ps = lent_table second_output_table.now in
        (outputs ≤ held ps) × ((j : ℕ) → j < outputs → index (get_or ps j 0) ≤ 104096) }
    requires outputs_bound { outputs ≤ held (literals joined_output_table.old joined_output_bits.old) }
    ensures { let ps = lent_table second_output_table.now in
        let os = lent_table front.now.outputs in
        let before = literals joined_output_table.old joined_output_bits.old in
        literals joined_output_table.new joined_output_bits.new ≡ filled (tab outputs (λ j. met_by os front.now.base front.now.inputs (get_or ps j 0))) before }
{
    let end = outputs as usize;
    let mut got: u64 = 0;
    for j in 0..end {
        let x = second_output_table.edge_at(j);
        let y = met(x, front);
        got = put_word(joined_output_table, joined_output_bits, j, got, y);
    }
    put_last(joined_output_bits, end, got);
}

// Copies so many lock bytes to place `start` on, one by one, as crate graph copies words.
pub fn copy_locks(count: u32, locks: &[u8], start: u32, joined_locks: &mut [u8])
    requires { (count ≤ length locks.now) × (start + count ≤ length joined_locks.old) }
    ensures { joined_locks.new ≡ paste joined_locks.old start locks.now count }
{
    let first = start as usize;
    for v in 0..count as usize {
        joined_locks[first + v] = locks[v];
    }
}
