// The numbers of a node's words with what stands in scratch: costs below the node that is decided, moves above it.
ghost use Rattle.std.specs.Prelude.{◌≡◌, true, [], ◌∷◌, ◌≢◌, ℕ, ◌+◌, ◌*◌, ◌≤◌, ◌<◌};
ghost use Rattle.graph.specs.Graph.{mark, is_edge};
ghost use Rattle.moves.specs.Rows.{flag};
ghost use Rattle.resistive.specs.Family.{stored};
ghost use Rattle.state.specs.State.{field, Ordered};
ghost use Rattle.resistive_call.specs.Keys.{turn_cost, word_at, word_keys};
ghost use Rattle.graph.specs.Tables.{lent_graph};

use graph::literal::MARK;
use graph::{Lent, table};
use moves::decide::given_costs;
use moves::rows;
use moves::words::which_name;
use trees::fields::read;

// One of the two costs that are stored in one word.
pub fn stored_cost(x: u32, t: u32) -> u32
    ensures { result ≡ stored x t }
{
    if x % 2 == t {
        return 0;
    }
    x / 2
}

// Whether move m of a kind turns the readers: 1 of a majority, 2 and 3 of an XOR, and none that the kind lacks, of which `flag_of` tells nothing.
pub fn turns_readers(xor: bool, m: u32) -> u32
    ensures { (result ≡ flag xor m 3) × (result ≤ 1) }
{
    if xor {
        if m / 2 == 1 {
            return 1;
        }
        return 0;
    }
    if m == 1 {
        return 1;
    }
    0
}

// What both turns of index u cost while node v is decided, v itself turned s times, in one word as costs are stored. Of an index that does
// not choose the other turn is out of the question: it costs 304,100.
pub fn turns_of(lent: &Lent, v: usize, s: u32, u: u32, scratch: &[u32]) -> u32
    requires { let g = lent_graph lent.now in
        Ordered g scratch.now × (v < lent.now.nodes) × (s ≤ 1) × (u < lent.now.inputs + 1 + lent.now.nodes) }
    ensures { let g = lent_graph lent.now in
        ((t : ℕ) → t < 2 → stored result t ≡ turn_cost g scratch.now v s u t) }
{
    if u <= lent.inputs {
        return 608200;
    }
    let w = (u - (lent.inputs + 1)) as usize;
    if read(scratch, w, 3) == MARK {
        return 608200;
    }
    let x = read(scratch, w, 4);
    if w < v {
        return x;
    }
    if w == v {
        return 608200 + s;
    }
    608200 + turns_readers(rows::is_xor(&lent.node_table, w), x)
}

// What it costs that word k + 1 of node w ends with the bit 0, or 1.
pub fn word_keys(lent: &Lent, w: usize, k: usize, v: usize, s: u32, scratch: &[u32]) -> [u32; 2]
    requires { let g = lent_graph lent.now in
        Ordered g scratch.now × (w < lent.now.nodes) × (k < 3) × (is_edge g (3 * w + k) ≡ true) × (v < lent.now.nodes) × (s ≤ 1) }
    ensures { let g = lent_graph lent.now in
        result ≡ word_at g scratch.now v s (3 * w + k) 0 ∷ word_at g scratch.now v s (3 * w + k) 1 ∷ [] }
{
    let x = lent.node_table.edge_at(3 * w + k);
    let c = turns_of(lent, v, s, x / 2, scratch);
    let b = x % 2;
    [stored_cost(c, b), stored_cost(c, 1 - b)]
}

// Those of all words of node w. An XOR's third is the mark, which has no bit.
pub fn numbers_at(lent: &Lent, w: usize, v: usize, s: u32, scratch: &[u32]) -> [u32; 6]
    requires { let g = lent_graph lent.now in
        Ordered g scratch.now × (w < lent.now.nodes) × (v < lent.now.nodes) × (s ≤ 1) }
    ensures { let g = lent_graph lent.now in
        result ≡ word_keys g scratch.now v s w }
{
    let x = word_keys(lent, w, 0, v, s, scratch);
    let y = word_keys(lent, w, 1, v, s, scratch);
    if rows::is_xor(&lent.node_table, w) {
        return [x[0], x[1], y[0], y[1], 0, 304100];
    }
    let z = word_keys(lent, w, 2, v, s, scratch);
    [x[0], x[1], y[0], y[1], z[0], z[1]]
}

// Those of the reader w of node v once v is turned, from those before it: only the word that names v differs.
pub fn turned_at(lent: &Lent, w: usize, v: usize, z: [u32; 6], scratch: &[u32]) -> [u32; 6]
    requires { let g = lent_graph lent.now in
        Ordered g scratch.now × (w < lent.now.nodes) × (v < lent.now.nodes) × (field scratch.now v 3 ≢ mark) × (z ≡ word_keys g scratch.now v 0 w) }
    ensures { let g = lent_graph lent.now in
        result ≡ word_keys g scratch.now v 1 w }
{
    let which = which_name(&lent.node_table, w, lent.inputs + 1 + v as u32);
    given_costs(z, which, 1)
}
