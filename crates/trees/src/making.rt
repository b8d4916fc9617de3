// The tree step: a tree decided, then its moves made.
ghost use Rattle.std.specs.Prelude.{◌≡◌, true, ◌+◌, ◌≤◌, ◌<◌, length};
ghost use Rattle.graph.specs.Count.{C};
ghost use Rattle.moves.specs.Call.{rewrite};
ghost use Rattle.moves.specs.Tree.{is_root, tree};
ghost use Rattle.state.specs.State.{stands, Ordered};
ghost use Rattle.state.specs.Step.{Made, Parted};
ghost use Rattle.trees.specs.Deciding.{TreeDecided};
ghost use Rattle.trees.specs.Stepping.{TreeMade, tree_moved};
ghost use Rattle.graph.specs.Tables.{lent_graph};

use crate::deciding;
use crate::fields::read;
use graph::Lent;
use graph::literal::MARK;
use state::moving;
use state::moving::Step;

// The moves of the tree of node `root`, which stand in scratch, made one by one; count is C before, and C after is returned.
pub fn make_moves(lent: &Lent, root: usize, count: u32, scratch: &mut [u32]) -> u32
    requires { let g = lent_graph lent.now in
        let h = stands g scratch.old in
        Ordered g scratch.old × (root < lent.now.nodes) × (is_root g (lent.now.inputs + 1 + root) ≡ true) × (count ≡ C h) × TreeDecided h lent.now.locks.now (lent.now.inputs + 1 + root) scratch.old × (lent.now.nodes ≤ length lent.now.locks.now) }
    ensures { let g = lent_graph lent.now in
        Made scratch.old g scratch.new (tree_moved (stands g scratch.old) lent.now.locks.now (lent.now.inputs + 1 + root)) result }
{
    let mut c = count;
    let mut v = root as u32;
    while v != MARK {
        let w = v as usize;
        let m = read(scratch, w, 4);
        c = moving::make_move(lent, w, m, c, scratch);
        v = read(scratch, w, 5);
    }
    c
}

// The tree call at node `root`, whose moves stand in scratch, in the state; count is C before. Of all the tree only the root has readers
// outside of it.
pub fn decided_step(lent: &Lent, root: usize, count: u32, scratch: &mut [u32]) -> Step
    requires { let g = lent_graph lent.now in
        let h = stands g scratch.old in
        Ordered g scratch.old × (root < lent.now.nodes) × (is_root g (lent.now.inputs + 1 + root) ≡ true) × (count ≡ C h) × TreeDecided h lent.now.locks.now (lent.now.inputs + 1 + root) scratch.old × (lent.now.nodes ≤ length lent.now.locks.now) }
    ensures { let g = lent_graph lent.now in
        let h = stands g scratch.old in
        let u = lent.now.inputs + 1 + root in
        Made scratch.old g scratch.new (tree_moved h lent.now.locks.now u) result.count × Parted (rewrite h lent.now.locks.now (tree h u)) result }
{
    let before = read(scratch, root, 1);
    let made = make_moves(lent, root, count, scratch);
    let after = read(scratch, root, 1);
    Step {
        count: made,
        before,
        after,
    }
}

// The tree call at node `root`, in the state.
pub fn tree_step(lent: &Lent, root: usize, count: u32, scratch: &mut [u32]) -> Step
    requires { let g = lent_graph lent.now in
        Ordered g scratch.old × (root < lent.now.nodes) × (is_root g (lent.now.inputs + 1 + root) ≡ true) × (count ≡ C (stands g scratch.old)) × (lent.now.nodes ≤ length lent.now.locks.now) }
    ensures { let g = lent_graph lent.now in
        let h = stands g scratch.old in
        let u = lent.now.inputs + 1 + root in
        TreeMade scratch.old g scratch.new (tree_moved h lent.now.locks.now u) result.count × Parted (rewrite h lent.now.locks.now (tree h u)) result }
{
    deciding::decide_tree(lent, root, scratch);
    decided_step(lent, root, count, scratch)
}
