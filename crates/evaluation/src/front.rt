// The words of the first nodes, while scratch has room for the constant's and the inputs' words before them: then each word of an index is
// found at its place, by nothing but the index. Afterwards the nodes' words move to the front, where the rest goes on.
ghost use Rattle.std.specs.Prelude.{◌≡◌, List, [], ℕ, ◌+◌, ◌≤◌, ◌<◌, length, take, drop};
ghost use Rattle.evaluation.specs.Inner.{by_index, nodes_of, NodeBelow, NodeWords, Front};
ghost use Rattle.graph.specs.Tables.{lent_table};

use crate::values::{InRow, node_word};
use graph::Lent;

// Fills in the words of the constant and the inputs, each at its index: one by one, as they are moved below.
pub fn fill_low(inputs: u32, input_words: &[u64], scratch: &mut [u64])
    requires { (inputs ≤ length input_words.now) × (inputs < length scratch.old) }
    ensures { take (inputs + 1) scratch.new ≡ by_index inputs input_words.now [] }
{
    scratch[0] = 0;
    for k in 0..inputs as usize {
        scratch[k + 1] = input_words[k];
    }
}

// Fills in the word of node v, at the place of its index.
fn front_node(lent: &Lent, v: usize, scratch: &mut [u64])
    requires { let l = lent_table lent.now.node_table in
        NodeBelow lent.now.inputs l v × (v ≤ 100000) × (lent.now.inputs + 1 + v < length scratch.old) }
    ensures { let l = lent_table lent.now.node_table in
        ((n : ℕ) (ws : List ℕ) → Front (nodes_of lent.now.inputs n l) ws scratch.old v → Front (nodes_of lent.now.inputs n l) ws scratch.new (v + 1)) }
{
    let end = lent.inputs as usize + 1 + v;
    let words = InRow {
        all: &scratch[..end],
    };
    scratch[end] = node_word(&words, &lent.node_table, v);
}

// The same of the nodes from one on, up to another.
pub fn front_nodes(lent: &Lent, begin: usize, end: usize, scratch: &mut [u64])
    requires { let l = lent_table lent.now.node_table in
        (end ≤ 100000) × (lent.now.inputs + 1 + end ≤ length scratch.old) × ((v : ℕ) → v < end → NodeBelow lent.now.inputs l v) × (begin ≤ end) }
    ensures { let l = lent_table lent.now.node_table in
        ((n : ℕ) (ws : List ℕ) → Front (nodes_of lent.now.inputs n l) ws scratch.old begin → Front (nodes_of lent.now.inputs n l) ws scratch.new end) }
{
    for v in begin..end {
        front_node(lent, v, scratch);
    }
}

// Moves so many words, from place `first` on, to the front: one by one, since the library for C would need `memmove` for the library's copies, and for
// nothing else.
pub fn shift(first: usize, many: usize, scratch: &mut [u64])
    requires { first + many ≤ length scratch.old }
    ensures { take many scratch.new ≡ take many (drop first scratch.old) }
{
    for k in 0..many {
        scratch[k] = scratch[first + k];
    }
}

// Fills the words of the first nodes into the front of `scratch`, as many as there is room for behind the words of the constant and the inputs.
// Returns how many these are.
pub fn fill_front(lent: &Lent, input_words: &[u64], scratch: &mut [u64]) -> usize
    requires { let l = lent_table lent.now.node_table in
        (lent.now.inputs ≤ length input_words.now) × (lent.now.nodes ≤ length scratch.old) × (lent.now.nodes ≤ 100000) × ((v : ℕ) → v < lent.now.nodes → NodeBelow lent.now.inputs l v) }
    ensures { let l = lent_table lent.now.node_table in
        (result ≤ lent.now.nodes) × ((n : ℕ) → NodeWords (nodes_of lent.now.inputs n l) input_words.now (take result scratch.new) result) }
{
    if lent.nodes <= lent.inputs {
        return 0;
    }
    let many = (lent.nodes - lent.inputs - 1) as usize;
    fill_low(lent.inputs, input_words, scratch);
    front_nodes(lent, 0, many, scratch);
    shift(lent.inputs as usize + 1, many, scratch);
    many
}
