// The graph that tables and scratch stand for, read a bit at a time.
ghost use Rattle.std.specs.Prelude.{◌≡◌, true, ◌+◌, ◌*◌, ◌≤◌, ◌<◌, length};
ghost use Rattle.graph.specs.Graph.{word, complement, is_edge};
ghost use Rattle.state.specs.State.{pending_at, stands, Pendings, Ordered};
ghost use Rattle.moves.specs.Decide.{own_costs, numbers_of};
ghost use Rattle.graph.specs.Tables.{lent_graph};

use crate::flags;
use graph::{Lent, table};
use moves::decide::NodeNumbers;
use moves::{rows, words};

// Whether a turn of the readers of index u is pending; u may be the mark.
pub fn pending_of(inputs: u32, nodes: u32, u: u32, scratch: &[u32]) -> u32
    requires { Pendings inputs nodes scratch.now }
    ensures { (result ≡ pending_at inputs nodes scratch.now u) × (result ≤ 1) }
{
    let v = words::node_of(inputs, u);
    if nodes <= v {
        return 0;
    }
    let at = 8 * v as usize + 2;
    flags::bit_of(scratch[at], 0)
}

// The complement bit of word k + 1 of node v, where that is an edge: the kept one, with what is pending.
pub fn bit_now(lent: &Lent, v: usize, k: usize, scratch: &[u32]) -> u32
    requires { let g = lent_graph lent.now in
        Ordered g scratch.now × (v < lent.now.nodes) × (k < 3) }
    ensures { let g = lent_graph lent.now in
        (is_edge g (3 * v + k) ≡ true → result ≡ complement (word (stands g scratch.now) (3 * v + k))) × (result ≤ 1) }
{
    let u = lent.node_table.index_at(3 * v + k);
    let at = 8 * v + 2;
    let kept = flags::bit_of(scratch[at], 1 + k);
    (kept + pending_of(lent.inputs, lent.nodes, u, scratch)) % 2
}

// What each word of node v adds to C, as it stands and turned.
pub fn own_costs(lent: &Lent, v: usize, scratch: &[u32]) -> [u32; 6]
    requires { let g = lent_graph lent.now in
        Ordered g scratch.now × (v < lent.now.nodes) }
    ensures { let g = lent_graph lent.now in
        result ≡ own_costs (stands g scratch.now) v }
{
    let x = bit_now(lent, v, 0, scratch);
    let y = bit_now(lent, v, 1, scratch);
    let z = bit_now(lent, v, 2, scratch);
    words::costs_of(x, y, z, rows::is_xor(&lent.node_table, v))
}

// The numbers that node v's moves are decided by.
pub fn numbers_now(lent: &Lent, v: usize, scratch: &[u32]) -> NodeNumbers
    requires { let g = lent_graph lent.now in
        Ordered g scratch.now × (v < lent.now.nodes) × (lent.now.nodes ≤ length lent.now.locks.now) }
    ensures { let g = lent_graph lent.now in
        result ≡ numbers_of (stands g scratch.now) lent.now.locks.now v }
{
    let at = 8 * v;
    let xor = rows::is_xor(&lent.node_table, v);
    let moves = rows::moves_at(&lent.node_table, lent.locks, v);
    let costs = own_costs(lent, v, scratch);
    NodeNumbers {
        xor,
        moves,
        costs,
        readers: scratch[at],
        odd: scratch[at + 1],
    }
}
