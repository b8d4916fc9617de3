// The triples of a rising list tried at a node, in order: which is the first that gives a majority. Tables are only read.
ghost use Rattle.std.specs.Prelude.{◌≡◌, false, [], ℕ, suc, ◌+◌, ◌*◌, ◌≤◌, ◌<◌, length, take};
ghost use Rattle.graph.specs.Admission.{Admitted};
ghost use Rattle.graph.specs.Literals.{bit};
ghost use Rattle.evaluation.specs.Inner.{nodes_of};
ghost use Rattle.hidden.specs.Majority.{is_majority};
ghost use Rattle.hidden.specs.Truth.{triple, truth};
ghost use Rattle.hidden.specs.Find.{near, triples};
ghost use Rattle.hidden.specs.Inner.{Rising, left₁, left₂, left₃};
ghost use Rattle.majority_call.specs.Valuing.{Facts};
ghost use Rattle.finder.specs.Signs.{Signed};
ghost use Rattle.finder.specs.Meeting.{Tells, ThirdsMet, WaysKnown};
ghost use Rattle.finder.specs.Trying.{Ready, SignsRead, byte_found, Tried, trial_byte, trial_three, Sought};
ghost use Rattle.graph.specs.Tables.{lent_table};
ghost use Rattle.finder.specs.Nodes.{nodes_in};

use crate::barred::nothing_to_find;
use crate::following::gather_ways;
use crate::masks::{allowed_places, spread, thirds, too_few};
use crate::nearness::reach;
use crate::nodes::Nodes;
use crate::signs::{could_be, sign_of};
use graph::table::Table;
use majority_call::{making, valuing};
use moves::words::wide;
use trees::fields::read;

// How many words down an index is near.
const WORDS: u32 = 3;

// A triple and the node's truth value over it, of majority's class.
#[derive(Clone, Copy)]
pub struct Trial {
    pub byte: u8,
    pub one: u32,
    pub two: u32,
    pub three: u32,
}

// The truth value of node v over the three, where it is a majority's.
fn tried(graph: &Nodes, scratch: &mut [u32], one: u32, two: u32, three: u32, v: usize) -> Option<u8>
    requires { let g = nodes_in graph.now in
        Admitted g × (8 * graph.now.nodes ≤ length scratch.old) × (v < graph.now.nodes) × Facts g scratch.old × Rising (triple one two three) (graph.now.inputs + 1 + v) }
    ensures { let g = nodes_in graph.now in
        Tried g (triple one two three) v (byte_found result) scratch.old scratch.new }
{
    let byte = valuing::truth(
        graph.inputs,
        graph.nodes,
        &graph.table,
        scratch,
        one,
        two,
        three,
        v,
    );
    if byte == valuing::LEAK {
        return None;
    }
    if making::is_majority(byte) {
        return Some(byte as u8);
    }
    None
}

// The same, by the signatures w of the node, x of the first and y of the second: most triples do not fit, and of these nothing is valued.
fn tried_if_fit(
    graph: &Nodes,
    scratch: &mut [u32],
    one: u32,
    two: u32,
    three: u32,
    v: usize,
    w: u32,
    x: u32,
    y: u32,
) -> Option<u8>
    requires { let g = nodes_in graph.now in
        let t = triple one two three in
        Admitted g × (8 * graph.now.nodes ≤ length scratch.old) × (v < graph.now.nodes) × Facts g scratch.old × Rising t (graph.now.inputs + 1 + v) × SignsRead g v one two w x y scratch.old }
    ensures { let g = nodes_in graph.now in
        Tried g (triple one two three) v (byte_found result) scratch.old scratch.new }
{
    let z = sign_of(graph.inputs, scratch, three);
    if could_be(w, x, y, z) {
        return tried(graph, scratch, one, two, three, v);
    }
    None
}

// The same, where the places of thirds that meet every way have that of the third.
fn tried_if_met(
    graph: &Nodes,
    scratch: &mut [u32],
    one: u32,
    two: u32,
    three: u32,
    v: usize,
    w: u32,
    x: u32,
    y: u32,
    met: u64,
    c: usize,
) -> Option<u8>
    requires { let g = nodes_in graph.now in
        let t = triple one two three in
        Admitted g × (8 * graph.now.nodes ≤ length scratch.old) × (v < graph.now.nodes) × Facts g scratch.old × Rising t (graph.now.inputs + 1 + v) × SignsRead g v one two w x y scratch.old × (c < 64) × (bit c met ≡ 0 → is_majority (truth g t (graph.now.inputs + 1 + v)) ≡ false) }
    ensures { let g = nodes_in graph.now in
        Tried g (triple one two three) v (byte_found result) scratch.old scratch.new }
{
    if (met >> c) % 2 == 0 {
        return None;
    }
    tried_if_fit(graph, scratch, one, two, three, v, w, x, y)
}

// Those with the indices at places a and b.
fn try_thirds(
    graph: &Nodes,
    scratch: &mut [u32],
    list: &[u32],
    m: usize,
    a: usize,
    b: usize,
    v: usize,
    met: u64,
) -> Option<Trial>
    requires { let g = nodes_in graph.now in
        Ready g v m list.now scratch.old × (a < b) × (b < m) × (m ≤ 39) × ThirdsMet g v m list.now a b met }
    ensures { let g = nodes_in graph.now in
        let l = take m list.now in
        Sought g v (left₃ l a b (suc b)) (left₂ l a (suc b)) (trial_byte result) (trial_three result) scratch.old scratch.new }
{
    let one = list[a];
    let two = list[b];
    let w = read(scratch, v, 7);
    let x = sign_of(graph.inputs, scratch, one);
    let y = sign_of(graph.inputs, scratch, two);
    for c in b + 1..m {
        let three = list[c];
        let tried = tried_if_met(graph, scratch, one, two, three, v, w, x, y, met, c);
        if let Some(byte) = tried {
            return Some(Trial {
                byte,
                one,
                two,
                three,
            });
        }
    }
    None
}

// Those with the indices at places a and b, if some third may meet every way with them.
fn try_pair(
    graph: &Nodes,
    scratch: &mut [u32],
    list: &[u32],
    m: usize,
    allowed: u64,
    ways: &[u64],
    n: usize,
    a: usize,
    b: usize,
    v: usize,
) -> Option<Trial>
    requires { let g = nodes_in graph.now in
        Ready g v m list.now scratch.old × (a < b) × (b < m) × WaysKnown g v m list.now allowed n ways.now }
    ensures { let g = nodes_in graph.now in
        let l = take m list.now in
        Sought g v (left₃ l a b (suc b)) (left₂ l a (suc b)) (trial_byte result) (trial_three result) scratch.old scratch.new }
{
    let met = thirds(ways, n, allowed, a, b);
    if (met >> b) < 2 {
        return None;
    }
    try_thirds(graph, scratch, list, m, a, b, v, met)
}

// Those with the index at place a.
fn try_seconds(
    graph: &Nodes,
    scratch: &mut [u32],
    list: &[u32],
    m: usize,
    allowed: u64,
    ways: &[u64],
    n: usize,
    a: usize,
    v: usize,
) -> Option<Trial>
    requires { let g = nodes_in graph.now in
        Ready g v m list.now scratch.old × (a < m) × WaysKnown g v m list.now allowed n ways.now }
    ensures { let g = nodes_in graph.now in
        let l = take m list.now in
        Sought g v (left₁ l a) (left₁ l (suc a)) (trial_byte result) (trial_three result) scratch.old scratch.new }
{
    for b in a + 1..m {
        let found = try_pair(graph, scratch, list, m, allowed, ways, n, a, b, v);
        if let Some(trial) = found {
            return Some(trial);
        }
    }
    None
}

// All of them.
fn try_triples(
    graph: &Nodes,
    scratch: &mut [u32],
    list: &[u32],
    m: usize,
    allowed: u64,
    ways: &[u64],
    n: usize,
    v: usize,
) -> Option<Trial>
    requires { let g = nodes_in graph.now in
        Ready g v m list.now scratch.old × WaysKnown g v m list.now allowed n ways.now }
    ensures { let g = nodes_in graph.now in
        Sought g v (triples (take m list.now)) [] (trial_byte result) (trial_three result) scratch.old scratch.new }
{
    for a in 0..m {
        let found = try_seconds(graph, scratch, list, m, allowed, ways, n, a, v);
        if let Some(trial) = found {
            return Some(trial);
        }
    }
    None
}

// All that are near node v.
pub fn try_near(graph: &Nodes, scratch: &mut [u32], v: u32) -> Option<Trial>
    requires { let g = nodes_in graph.now in
        Admitted g × (8 * graph.now.nodes ≤ length scratch.old) × (v < graph.now.nodes) × Facts g scratch.old × Signed g (v + 1) scratch.old × Tells g scratch.old }
    ensures { let g = nodes_in graph.now in
        Sought g v (triples (near g (graph.now.inputs + 1 + v))) [] (trial_byte result) (trial_three result) scratch.old scratch.new }
{
    let w = wide(v);
    if nothing_to_find(graph, w) {
        return None;
    }
    let mut list = [0u32; 39];
    let u = graph.inputs + 1 + v;
    let m = reach(graph, &mut list, 0, u, WORDS);
    let allowed = allowed_places(graph, &list, m, w);
    if too_few(m, allowed) {
        return None;
    }
    let mut ways = [0u64; 27];
    let n = gather_ways(graph, scratch, &list, m, w, allowed, &mut ways);
    if spread(&ways, n, allowed) {
        return None;
    }
    try_triples(graph, scratch, &list, m, allowed, &ways, n, w)
}
