// Signatures: the values of each index under 32 fixed assignments, field 7 of a node. Where a node is a majority of three indices, complemented
// somehow, no two of these differ from it at once under any assignment; so most triples are passed over without valuing a node.
ghost use Rattle.std.specs.Prelude.{◌≡◌, true, ℕ, ◌+◌, ◌-◌, ◌*◌, ◌/◌, ◌%◌, ◌≤◌, ◌<◌, length};
ghost use Rattle.graph.specs.Admission.{Admitted};
ghost use Rattle.graph.specs.Literals.{bit};
ghost use Rattle.graph.specs.Value.{majority};
ghost use Rattle.evaluation.specs.Inner.{nodes_of};
ghost use Rattle.finder.specs.Signs.{input_sign, sign_of, TurnedWord, NodeSign, SignSet, Never₃, Votes};
ghost use Rattle.graph.specs.Tables.{lent_table};
ghost use Rattle.finder.specs.Nodes.{nodes_in};

use crate::nodes::Nodes;
use graph::literal::{MARK, index_of};
use graph::table::Table;
use trees::fields::{read, store};

const ONES: u32 = 4294967295;

const MIXER: u64 = 2783377641436327;

// Input k under the 32 assignments.
fn input_sign(k: u32) -> u32
    requires { k ≤ 4096 }
    ensures { result ≡ input_sign k }
{
    let x = k as u64 * MIXER;
    ((x / 1048576 ^ x / 512) % 4294967296) as u32
}

// The signature of an index.
pub fn sign_of(inputs: u32, scratch: &[u32], index: u32) -> u32
    requires { (inputs ≤ 4096) × (index ≤ inputs + 100000) × (8 * (index - inputs) ≤ length scratch.now) }
    ensures { result ≡ sign_of inputs scratch.now index }
{
    if index == 0 {
        return 0;
    }
    if index <= inputs {
        return input_sign(index);
    }
    read(scratch, (index - inputs - 1) as usize, 7)
}

// All bits of a word turned where b is 1.
fn turned(word: u32, b: u32) -> u32
    requires { b ≤ 1 }
    ensures { TurnedWord word b result }
{
    word ^ b * ONES
}

// The signature of a literal.
fn literal_sign(inputs: u32, scratch: &[u32], x: u32) -> u32
    requires { (inputs ≤ 4096) × (x / 2 ≤ inputs + 100000) × (8 * (x / 2 - inputs) ≤ length scratch.now) }
    ensures { TurnedWord (sign_of inputs scratch.now (x / 2)) (x % 2) result }
{
    turned(sign_of(inputs, scratch, index_of(x)), x % 2)
}

fn majority_sign(x: u32, y: u32, z: u32) -> u32
    ensures { (j : ℕ) → bit j result ≡ majority (bit j x) (bit j y) (bit j z) }
{
    x & y | x & z | y & z
}

// The signature of node v, from those of the indices that it names.
fn node_sign(graph: &Nodes, scratch: &[u32], v: usize) -> u32
    requires { let g = nodes_in graph.now in
        Admitted g × (8 * graph.now.nodes ≤ length scratch.now) × (v < graph.now.nodes) }
    ensures { let g = nodes_in graph.now in
        NodeSign g v scratch.now result }
{
    let at = 3 * v;
    let third = graph.table.word_at(at + 2);
    let x = literal_sign(graph.inputs, scratch, graph.table.edge_at(at));
    let y = literal_sign(graph.inputs, scratch, graph.table.edge_at(at + 1));
    if third == MARK {
        return x ^ y;
    }
    let z = literal_sign(graph.inputs, scratch, third);
    majority_sign(x, y, z)
}

// Stores it.
pub fn set_sign(graph: &Nodes, scratch: &mut [u32], v: usize)
    requires { let g = nodes_in graph.now in
        Admitted g × (8 * graph.now.nodes ≤ length scratch.old) × (v < graph.now.nodes) }
    ensures { let g = nodes_in graph.now in
        SignSet g v scratch.old scratch.new }
{
    let w = node_sign(graph, scratch, v);
    store(scratch, v, 7, w);
}

// Whether no two of three words are set at once, the third or its complement.
fn fits(p: u32, q: u32, r: u32) -> bool
    ensures { (c : ℕ) → c ≤ 1 → Never₃ 0 0 c p q r → result ≡ true }
{
    if p & q != 0 {
        return false;
    }
    if (p | q) & r == 0 {
        return true;
    }
    (p | q) & turned(r, 1) == 0
}

// Whether the signature w may be that of a majority of indices with the signatures x, y and z.
pub fn could_be(w: u32, x: u32, y: u32, z: u32) -> bool
    ensures { (c : ℕ) → Votes c w x y z → result ≡ true }
{
    let p = x ^ w;
    let q = y ^ w;
    let r = z ^ w;
    let not_p = turned(p, 1);
    let not_q = turned(q, 1);
    if fits(p, q, r) {
        return true;
    }
    if fits(not_p, q, r) {
        return true;
    }
    if fits(p, not_q, r) {
        return true;
    }
    fits(not_p, not_q, r)
}
