ghost use Rattle.std.specs.Prelude.{◌≡◌, false, cond, List, ℕ, ◌+◌, ◌*◌, ◌/◌, ◌%◌, ◌≤◌, ◌<◌, length, take, get_or};
ghost use Rattle.graph.specs.Value.{majority, exclusive, node_value};
ghost use Rattle.graph.specs.Graph.{index};
ghost use Rattle.graph.specs.Literals.{bit, bit_of, held};
ghost use Rattle.evaluation.specs.Word.{gather};
ghost use Rattle.evaluation.specs.Inner.{by_index, column, literal_word, nodes_of, Named, NodeNamed, NodeBelow, NodeWords, Filled};
ghost use Rattle.graph.specs.Tables.{lent_table};

use crate::front;
use graph::Lent;
use graph::table::Table;

// All bits of `word` turned where b is 1.
pub fn turned(word: u64, b: u32) -> u64
    requires { b ≤ 1 }
    ensures { result ≡ gather (λ j. (bit j word + b) % 2) 64 }
{
    word ^ (b as u64) * u64::MAX
}

fn majority_word(x: u64, y: u64, z: u64) -> u64
    ensures { (j : ℕ) → bit j result ≡ majority (bit j x) (bit j y) (bit j z) }
{
    x & y | x & z | y & z
}

fn exclusive_word(x: u64, y: u64) -> u64
    ensures { (j : ℕ) → bit j result ≡ exclusive (bit j x) (bit j y) }
{
    x ^ y
}

// Words of 64 assignments by index, wherever they stand.
pub trait Words {
    ghost can_read: { Self → ℕ → Type 0 };

    ghost words: { Self → List ℕ };

    fn word(&self, index: u32) -> u64
        requires { can_read self.now index }
        ensures { result ≡ get_or (words self.now) index 0 };
}

// The words of the inputs, and of the nodes so far.
#[derive(Clone, Copy)]
pub struct Apart<'a> {
    pub inputs: u32,
    pub of_inputs: &'a [u64],
    pub of_nodes: &'a [u64],
}

impl Words for Apart<'_> {
    ghost can_read = { λ s k. (s.inputs ≤ length s.of_inputs.now) × (k < s.inputs + 1 + length s.of_nodes.now) };

    ghost words = { λ s. by_index s.inputs s.of_inputs.now s.of_nodes.now };

    fn word(&self, index: u32) -> u64 {
        if index == 0 {
            return 0;
        }
        if index <= self.inputs {
            return self.of_inputs[(index - 1) as usize];
        }
        self.of_nodes[(index - self.inputs - 1) as usize]
    }
}

// Each word at the place of its index.
#[derive(Clone, Copy)]
pub(crate) struct InRow<'a> {
    pub(crate) all: &'a [u64],
}

impl Words for InRow<'_> {
    ghost can_read = { λ s k. k < length s.all.now };

    ghost words = { λ s. s.all.now };

    fn word(&self, index: u32) -> u64 {
        self.all[index as usize]
    }
}

// The word of the literal at place j of a table, whose bit is b.
pub fn literal_word<W: Words>(words: &W, table: &Table, j: usize, b: u32) -> u64
    requires { let x = get_or (lent_table table.now) j 0 in
        (j < held (lent_table table.now)) × Named (W.can_read words.now) x × (b ≡ bit_of x) × (b ≤ 1) }
    ensures { result ≡ literal_word (W.words words.now) (get_or (lent_table table.now) j 0) }
{
    turned(words.word(table.index_at(j)), b)
}

// The first of two indices where `xor` holds, else the second. A function of its own, so that no caller jumps by the kind.
pub fn either_index(xor: bool, u: u32, v: u32) -> u32
    ensures { result ≡ cond xor u v }
{
    if xor {
        return u;
    }
    v
}

// The word of a majority's third literal, whose bit is b, the node's words being from place `at` on. An XOR has none: the word of its first index is looked
// up, so that nothing jumps by the kind, which a processor could not foresee.
fn third_word<W: Words>(words: &W, table: &Table, at: usize, b: u32, xor: bool) -> u64
    requires { let l = lent_table table.now in
        (at + 2 < held l) × Named (W.can_read words.now) (get_or l at 0) × (xor ≡ false → Named (W.can_read words.now) (get_or l (at + 2) 0))
        × (b ≡ bit_of (get_or l (at + 2) 0)) × (b ≤ 1) }
    ensures { xor ≡ false → result ≡ literal_word (W.words words.now) (get_or (lent_table table.now) (at + 2) 0) }
{
    let last = at + 2;
    let first = table.index_at(at);
    let third = table.index_at(last);
    turned(words.word(either_index(xor, first, third)), b)
}

// The words of a node's literals joined as its kind says, by a mask.
pub fn joined_word(xor: bool, x: u64, y: u64, z: u64) -> u64
    ensures { (j : ℕ) → j < 64 → bit j result ≡ cond xor (exclusive (bit j x) (bit j y)) (majority (bit j x) (bit j y) (bit j z)) }
{
    let a = majority_word(x, y, z);
    let e = exclusive_word(x, y);
    a ^ (a ^ e) & xor as u64 * u64::MAX
}

// The word of node v, from those of the indices that its words name.
pub(crate) fn node_word<W: Words>(words: &W, node_table: &Table, v: usize) -> u64
    requires { NodeNamed (W.can_read words.now) (lent_table node_table.now) v }
    ensures { (i n j : ℕ) → j < 64 → bit j result ≡ node_value (nodes_of i n (lent_table node_table.now)) (column j (W.words words.now)) v }
{
    let at = 3 * v;
    let three = node_table.three_at(v);
    let xor = node_table.is_mark_at(at + 2);
    let x = literal_word(words, node_table, at, three % 2);
    let y = literal_word(words, node_table, at + 1, three / 2 % 2);
    let z = third_word(words, node_table, at, three / 4 % 2, xor);
    joined_word(xor, x, y, z)
}

// Fills in the word of node v.
fn fill_node<'x>(lent: &Lent, v: usize, input_words: &'x [u64], scratch: &'x mut [u64])
    requires { let l = lent_table lent.now.node_table in
        (lent.now.inputs ≤ length input_words.now) × (v < length scratch.old) × (v ≤ 100000) × NodeBelow lent.now.inputs l v }
    ensures { let l = lent_table lent.now.node_table in
        Filled lent.now.inputs l input_words.now scratch.old v scratch.new (v + 1) }
{
    let words = Apart {
        inputs: lent.inputs,
        of_inputs: input_words,
        of_nodes: &scratch[..v],
    };
    scratch[v] = node_word(&words, &lent.node_table, v);
}

// Fills in the words of the nodes from `begin` on and below `end`, where those below `begin` are there.
pub fn fill_rest(lent: &Lent, begin: usize, end: usize, input_words: &[u64], scratch: &mut [u64])
    requires { let l = lent_table lent.now.node_table in
        (lent.now.inputs ≤ length input_words.now) × (end ≤ length scratch.old) × (end ≤ 100000) × ((v : ℕ) → v < end → NodeBelow lent.now.inputs l v) × (begin ≤ end) }
    ensures { let l = lent_table lent.now.node_table in
        Filled lent.now.inputs l input_words.now scratch.old begin scratch.new end }
{
    for v in begin..end {
        fill_node(lent, v, input_words, scratch);
    }
}

// Fills the nodes' words into the front of `scratch`, in one pass.
pub fn fill_nodes(lent: &Lent, input_words: &[u64], scratch: &mut [u64])
    requires { let l = lent_table lent.now.node_table in
        (lent.now.inputs ≤ length input_words.now) × (lent.now.nodes ≤ length scratch.old) × (lent.now.nodes ≤ 100000) × ((v : ℕ) → v < lent.now.nodes → NodeBelow lent.now.inputs l v) }
    ensures { let g = nodes_of lent.now.inputs lent.now.nodes (lent_table lent.now.node_table) in
        NodeWords g input_words.now (take lent.now.nodes scratch.new) lent.now.nodes }
{
    let begin = front::fill_front(lent, input_words, scratch);
    fill_rest(lent, begin, lent.nodes as usize, input_words, scratch);
}
