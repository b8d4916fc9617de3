// A move made in scratch: the node's own bits, and all its readers by its pending bit.
ghost use Rattle.std.specs.Prelude.{◌≡◌, true, false, ◌+◌, ◌-◌, ◌*◌, ◌≤◌, ◌<◌};
ghost use Rattle.graph.specs.Graph.{is_edge};
ghost use Rattle.moves.specs.Rows.{kind_moves};
ghost use Rattle.moves.specs.Apply.{none, at, apply};
ghost use Rattle.state.specs.State.{stands, Ordered};
ghost use Rattle.state.specs.Step.{word_turned, readers_turned, Became};
ghost use Rattle.graph.specs.Tables.{lent_graph};

use crate::{flags, now};
use graph::{Lent, table};
use moves::rows;

// How many of d complemented readers are left once a reader with the bit b has been turned.
pub fn adjusted(b: u32, d: u32) -> u32
    requires { (b ≤ 1) × (b ≤ d) × (d ≤ 304096) }
    ensures { result + b ≡ d + (1 - b) }
{
    if b == 0 {
        return d + 1;
    }
    d - 1
}

// Turns word k + 1 of node v; the node that it names, if any, has one complemented reader more or less.
pub fn turn_word(lent: &Lent, v: usize, k: usize, scratch: &mut [u32])
    requires { let g = lent_graph lent.now in
        Ordered g scratch.old × (v < lent.now.nodes) × (k < 3) × (is_edge g (3 * v + k) ≡ true) }
    ensures { let g = lent_graph lent.now in
        Became scratch.old g scratch.new (word_turned (stands g scratch.old) (3 * v + k) 1) }
{
    let shown = now::bit_now(lent, v, k, scratch);
    let u = lent.node_table.index_at(3 * v + k);
    let at = 8 * v + 2;
    scratch[at] = flags::flipped(scratch[at], 1 + k);
    if u <= lent.inputs {
        return;
    }
    let w = u - (lent.inputs + 1);
    let to = 8 * w as usize + 1;
    scratch[to] = adjusted(shown, scratch[to]);
}

// The same, f times: 0 or 1.
pub fn turn_word_by(lent: &Lent, v: usize, k: usize, f: u32, scratch: &mut [u32])
    requires { let g = lent_graph lent.now in
        Ordered g scratch.old × (v < lent.now.nodes) × (k < 3) × (is_edge g (3 * v + k) ≡ false → f ≡ 0) × (f ≤ 1) }
    ensures { let g = lent_graph lent.now in
        Became scratch.old g scratch.new (word_turned (stands g scratch.old) (3 * v + k) f) }
{
    if f == 0 {
        return;
    }
    turn_word(lent, v, k, scratch);
}

// Turns all readers of node v f times, 0 or 1: the complemented ones are then the others.
pub fn turn_readers(lent: &Lent, v: usize, f: u32, scratch: &mut [u32])
    requires { let g = lent_graph lent.now in
        Ordered g scratch.old × (v < lent.now.nodes) × (f ≤ 1) }
    ensures { let g = lent_graph lent.now in
        Became scratch.old g scratch.new (readers_turned (stands g scratch.old) (lent.now.inputs + 1 + v) f) }
{
    if f == 0 {
        return;
    }
    let at = 8 * v;
    let others = scratch[at] - scratch[at + 1];
    let pending = flags::flipped(scratch[at + 2], 0);
    scratch[at + 1] = others;
    scratch[at + 2] = pending;
}

// Makes the move m at node v.
pub fn turn_node(lent: &Lent, v: usize, m: u32, scratch: &mut [u32])
    requires { let g = lent_graph lent.now in
        Ordered g scratch.old × (v < lent.now.nodes) × (m < kind_moves g (lent.now.inputs + 1 + v)) }
    ensures { let g = lent_graph lent.now in
        Became scratch.old g scratch.new (apply (stands g scratch.old) (at none (lent.now.inputs + 1 + v) m)) }
{
    let xor = rows::is_xor(&lent.node_table, v);
    let f = rows::flag_of(xor, m, 0);
    turn_word_by(lent, v, 0, f, scratch);
    let f = rows::flag_of(xor, m, 1);
    turn_word_by(lent, v, 1, f, scratch);
    let f = rows::flag_of(xor, m, 2);
    turn_word_by(lent, v, 2, f, scratch);
    let f = rows::flag_of(xor, m, 3);
    turn_readers(lent, v, f, scratch);
}
