// A tree decided: the costs of its nodes by rising index, their moves by falling index. Only scratch is written.
ghost use Rattle.std.specs.Prelude.{◌≡◌, true, ◌+◌, ◌*◌, ◌/◌, ◌≤◌, ◌<◌, length};
ghost use Rattle.graph.specs.Graph.{is_edge, is_xor};
ghost use Rattle.choice.specs.Inner.{FirstBelow};
ghost use Rattle.moves.specs.Rows.{kind_moves, moves_at};
ghost use Rattle.moves.specs.Tree.{is_root};
ghost use Rattle.moves.specs.Cost.{word_costs};
ghost use Rattle.moves.specs.Decide.{cost_with};
ghost use Rattle.state.specs.State.{field, stands, Ordered};
ghost use Rattle.trees.specs.Costing.{inner_at, cost_at, CostedBelow, CostsOnly};
ghost use Rattle.trees.specs.Deciding.{shows_at, odd_at, ReaderDecided, TreeDecided};
ghost use Rattle.graph.specs.Tables.{lent_graph};

use crate::costs;
use crate::fields::{read, store};
use graph::Lent;
use graph::literal::MARK;
use moves::{decide, rows};
use state::now;

// The bit that the word at place p shows the node that it names, once the move stored at its own node is made.
pub fn shown_bit(lent: &Lent, p: usize, scratch: &[u32]) -> u32
    requires { let g = lent_graph lent.now in
        Ordered g scratch.now × (p < 3 * lent.now.nodes) × (is_edge g p ≡ true) × (field scratch.now (p / 3) 4 < kind_moves g (lent.now.inputs + 1 + p / 3)) }
    ensures { let g = lent_graph lent.now in
        result ≡ shows_at g scratch.now p }
{
    let w = p / 3;
    let xor = rows::is_xor(&lent.node_table, w);
    let f = rows::flag_of(xor, read(scratch, w, 4), p % 3);
    let b = now::bit_now(lent, w, p % 3, scratch);
    (b + f) % 2
}

// How many readers of node v are complemented once the nodes above it are decided.
pub fn odd_at(lent: &Lent, v: usize, scratch: &[u32]) -> u32
    requires { let g = lent_graph lent.now in
        Ordered g scratch.now × (v < lent.now.nodes) × ReaderDecided g scratch.now v }
    ensures { let g = lent_graph lent.now in
        result ≡ odd_at g scratch.now v }
{
    let place = read(scratch, v, 3);
    if place == MARK {
        return read(scratch, v, 1);
    }
    shown_bit(lent, place as usize, scratch)
}

// The first least move of node v, with the costs stored below it and the moves stored above it.
pub fn decide_at(lent: &Lent, v: usize, scratch: &[u32]) -> u32
    requires { let g = lent_graph lent.now in
        Ordered g scratch.now × (v < lent.now.nodes) × ReaderDecided g scratch.now v × (lent.now.nodes ≤ length lent.now.locks.now) }
    ensures { let g = lent_graph lent.now in
        FirstBelow (cost_with (is_xor g v) (word_costs (stands g scratch.now) (inner_at lent.now.inputs scratch.now) (cost_at lent.now.inputs scratch.now) v) (field scratch.now v 0) (odd_at g scratch.now v)) (moves_at g lent.now.locks.now (lent.now.inputs + 1 + v)) result }
{
    let z = costs::tree_numbers(lent, v, scratch);
    let readers = read(scratch, v, 0);
    let odd = odd_at(lent, v, scratch);
    decide::first_least(
        rows::is_xor(&lent.node_table, v),
        rows::moves_at(&lent.node_table, lent.locks, v),
        z,
        readers,
        odd,
    )
}

// The moves of the tree of node `root`, whose costs are stored, by falling index: each in the place of the node's costs.
pub fn fill_moves(lent: &Lent, root: usize, scratch: &mut [u32])
    requires { let g = lent_graph lent.now in
        Ordered g scratch.old × (root < lent.now.nodes) × (is_root g (lent.now.inputs + 1 + root) ≡ true) × CostedBelow (stands g scratch.old) lent.now.locks.now scratch.old (lent.now.inputs + 1 + root) root × (lent.now.nodes ≤ length lent.now.locks.now) }
    ensures { let g = lent_graph lent.now in
        TreeDecided (stands g scratch.old) lent.now.locks.now (lent.now.inputs + 1 + root) scratch.new × CostsOnly scratch.old scratch.new }
{
    let mut v = root as u32;
    while v != MARK {
        let w = v as usize;
        let m = decide_at(lent, w, scratch);
        store(scratch, w, 4, m);
        v = read(scratch, w, 5);
    }
}

// The best moves of the tree of node `root`, in scratch.
pub fn decide_tree(lent: &Lent, root: usize, scratch: &mut [u32])
    requires { let g = lent_graph lent.now in
        Ordered g scratch.old × (root < lent.now.nodes) × (is_root g (lent.now.inputs + 1 + root) ≡ true) × (lent.now.nodes ≤ length lent.now.locks.now) }
    ensures { let g = lent_graph lent.now in
        TreeDecided (stands g scratch.old) lent.now.locks.now (lent.now.inputs + 1 + root) scratch.new × CostsOnly scratch.old scratch.new }
{
    costs::fill_costs(lent, root, scratch);
    fill_moves(lent, root, scratch);
}
