// Moves at one node and at a pair, each decided by the numbers at hand and made in constant time.
ghost use Rattle.std.specs.Prelude.{◌≡◌, [], ◌∷◌, ◌+◌, ◌≤◌, ◌<◌, length};
ghost use Rattle.graph.specs.Count.{C};
ghost use Rattle.moves.specs.Rows.{moves_at};
ghost use Rattle.moves.specs.Apply.{none, at, apply};
ghost use Rattle.moves.specs.Call.{moved, best_at, rewrite, word_fault, pair_rewrite};
ghost use Rattle.moves.specs.Decide.{cost_of, Counted};
ghost use Rattle.state.specs.State.{stands, Ordered};
ghost use Rattle.state.specs.Step.{Made, Parted};
ghost use Rattle.graph.specs.Tables.{lent_graph};

use crate::{now, turning};
use graph::{Lent, table};
use moves::decide::NodeNumbers;
use moves::{decide, gains, words};

// What a call leaves: C after it, and the odd edges outside of its nodes that name one of them, before and after, or both up to
// one number.
#[derive(Clone, Copy)]
pub struct Step {
    pub count: u32,
    pub before: u32,
    pub after: u32,
}

// The moves of a pair, with those odd edges.
#[derive(Clone, Copy)]
pub struct PairChoice {
    pub named: u32,
    pub node: u32,
    pub before: u32,
    pub after: u32,
}

// C after the move m of a node, from C before it.
pub fn count_after(node: NodeNumbers, m: u32, count: u32) -> u32
    requires { Counted node × (m < node.moves) × (cost_of node 0 ≤ count) × (count ≤ 304096) }
    ensures { result + cost_of node 0 ≡ count + cost_of node m }
{
    let z = node.costs;
    let before = decide::move_cost(node.xor, z, node.readers, node.odd, 0);
    let z = node.costs;
    let after = decide::move_cost(node.xor, z, node.readers, node.odd, m);
    count + after - before
}

// Makes the move m at node v; count is C before it, and C after it is returned.
pub fn make_move(lent: &Lent, v: usize, m: u32, count: u32, scratch: &mut [u32]) -> u32
    requires { let g = lent_graph lent.now in
        Ordered g scratch.old × (v < lent.now.nodes) × (m < moves_at g lent.now.locks.now (lent.now.inputs + 1 + v)) × (count ≡ C (stands g scratch.old)) × (lent.now.nodes ≤ length lent.now.locks.now) }
    ensures { let g = lent_graph lent.now in
        Made scratch.old g scratch.new (apply (stands g scratch.old) (at none (lent.now.inputs + 1 + v) m)) result }
{
    if m == 0 {
        return count;
    }
    let node = now::numbers_now(lent, v, scratch);
    let after = count_after(node, m, count);
    turning::turn_node(lent, v, m, scratch);
    after
}

// The node call at node v.
pub fn node_step(lent: &Lent, v: usize, count: u32, scratch: &mut [u32]) -> Step
    requires { let g = lent_graph lent.now in
        Ordered g scratch.old × (v < lent.now.nodes) × (count ≡ C (stands g scratch.old)) × (lent.now.nodes ≤ length lent.now.locks.now) }
    ensures { let g = lent_graph lent.now in
        let h = stands g scratch.old in
        Made scratch.old g scratch.new (moved h ((lent.now.inputs + 1 + v) ∷ []) (best_at h lent.now.locks.now ((lent.now.inputs + 1 + v) ∷ []))) result.count × Parted (rewrite h lent.now.locks.now ((lent.now.inputs + 1 + v) ∷ [])) result }
{
    let node = now::numbers_now(lent, v, scratch);
    let z = node.costs;
    let m = decide::first_least(node.xor, node.moves, z, node.readers, node.odd);
    let odds = gains::node_odds(node, m);
    let after = make_move(lent, v, m, count, scratch);
    Step {
        count: after,
        before: odds.before,
        after: odds.after,
    }
}

// The moves that the pair of node p and a higher node v is best with.
pub fn pair_moves(lent: &Lent, p: usize, v: usize, scratch: &[u32]) -> PairChoice
    requires { let g = lent_graph lent.now in
        Ordered g scratch.now × (p < v) × (v < lent.now.nodes) × (lent.now.nodes ≤ length lent.now.locks.now) }
    ensures { let g = lent_graph lent.now in
        let h = stands g scratch.now in
        (result.named < moves_at g lent.now.locks.now (lent.now.inputs + 1 + p)) × (result.node < moves_at g lent.now.locks.now (lent.now.inputs + 1 + v)) × (result.named ∷ result.node ∷ [] ≡ best_at h lent.now.locks.now ((lent.now.inputs + 1 + p) ∷ (lent.now.inputs + 1 + v) ∷ [])) × Parted (rewrite h lent.now.locks.now ((lent.now.inputs + 1 + p) ∷ (lent.now.inputs + 1 + v) ∷ [])) (record { count = 0; before = result.before; after = result.after }) }
{
    let named = now::numbers_now(lent, p, scratch);
    let node = now::numbers_now(lent, v, scratch);
    let which = words::which_name(&lent.node_table, v, lent.inputs + 1 + p as u32);
    let best = decide::first_pair(named, node, which);
    let odds = gains::pair_odds(named, node, which, best.named, best.node);
    PairChoice {
        named: best.named,
        node: best.node,
        before: odds.before,
        after: odds.after,
    }
}

// The best moves of the pair of node p and a higher node v, made.
pub fn move_pair(lent: &Lent, p: usize, v: usize, count: u32, scratch: &mut [u32]) -> Step
    requires { let g = lent_graph lent.now in
        Ordered g scratch.old × (p < v) × (v < lent.now.nodes) × (count ≡ C (stands g scratch.old)) × (lent.now.nodes ≤ length lent.now.locks.now) }
    ensures { let g = lent_graph lent.now in
        let h = stands g scratch.old in
        Made scratch.old g scratch.new (moved h ((lent.now.inputs + 1 + p) ∷ (lent.now.inputs + 1 + v) ∷ []) (best_at h lent.now.locks.now ((lent.now.inputs + 1 + p) ∷ (lent.now.inputs + 1 + v) ∷ []))) result.count × Parted (rewrite h lent.now.locks.now ((lent.now.inputs + 1 + p) ∷ (lent.now.inputs + 1 + v) ∷ [])) result }
{
    let both = pair_moves(lent, p, v, scratch);
    let middle = make_move(lent, p, both.named, count, scratch);
    let after = make_move(lent, v, both.node, middle, scratch);
    Step {
        count: after,
        before: both.before,
        after: both.after,
    }
}

// The pair call at word k (1 to 3) of node v.
pub fn pair_step(lent: &Lent, v: usize, k: usize, count: u32, scratch: &mut [u32]) -> Step
    requires { let g = lent_graph lent.now in
        Ordered g scratch.old × (v < lent.now.nodes) × (word_fault g (lent.now.inputs + 1 + v) k ≡ 0) × (count ≡ C (stands g scratch.old)) × (lent.now.nodes ≤ length lent.now.locks.now) }
    ensures { let g = lent_graph lent.now in
        let h = stands g scratch.old in
        Made scratch.old g scratch.new (pair_rewrite h lent.now.locks.now (lent.now.inputs + 1 + v) k).graph result.count × Parted (pair_rewrite h lent.now.locks.now (lent.now.inputs + 1 + v) k) result }
{
    let at = 3 * v + (k - 1);
    let u = lent.node_table.index_at(at);
    if u <= lent.inputs {
        return Step {
            count,
            before: 0,
            after: 0,
        };
    }
    let p = (u - (lent.inputs + 1)) as usize;
    move_pair(lent, p, v, count, scratch)
}
