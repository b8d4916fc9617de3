// The three phases of a round, over the state that crate state keeps in scratch.
ghost use Rattle.std.specs.Prelude.{◌≡◌, ℕ, ◌+◌, ◌*◌, ◌<◌, ◌≤◌, length};
ghost use Rattle.graph.specs.Admission.{LockBytes};
ghost use Rattle.graph.specs.Count.{C};
ghost use Rattle.moves.specs.Call.{word_fault};
ghost use Rattle.state.specs.State.{stands, Ordered};
ghost use Rattle.rounds.specs.Round.{each, tree_at, node_at, pair_at, pairs_at};
ghost use Rattle.settling.specs.declared.phases.Tally.{Tally};
ghost use Rattle.settling.specs.Phase.{Room, Ready, Calls, Added, Phase};
ghost use Rattle.graph.specs.Tables.{lent_graph};

use graph::Lent;
use graph::literal::MARK;
use state::moving::Step;

// C as it stands, and the sums over all calls so far of the odd edges outside of each call's nodes, before and after the call.
#[derive(Clone, Copy)]
pub struct Tally {
    pub count: u32,
    pub before: u64,
    pub after: u64,
}

// The tally after one more call.
pub fn with_step(tally: Tally, step: Step) -> Tally
    requires { Room tally 300000000000000000 }
    ensures { Added tally step result }
{
    let before = tally.before + step.before as u64;
    let after = tally.after + step.after as u64;
    Tally {
        count: step.count,
        before,
        after,
    }
}

// The calls at each node by rising index.
fn at_each<F: Fn(usize, Tally, &mut [u32]) -> Tally>(
    lent: &Lent,
    tally: Tally,
    scratch: &mut [u32],
    call: F,
) -> Tally
    ghost calls: { Calls }
    requires ready { let g = lent_graph lent.now in
        Ordered g scratch.old × (tally.count ≡ C (stands g scratch.old)) × Room tally 200000000000000000 × (calls.most ≤ 3) }
    requires callable { (v : ℕ) (t : Tally) (s : _) → v < lent.now.nodes → Ready (lent_graph lent.now) t s.now → F.pre call v t s }
    requires makes { (v : ℕ) (t : Tally) (s : _) (u : Tally) (z : _) → v < lent.now.nodes → Ready (lent_graph lent.now) t s.now → F.post call v t s u z → Phase (calls.made v) calls.most (lent_graph lent.now) s.now t z.now u }
    ensures { Phase (each calls.made lent.now.nodes) (calls.most * lent.now.nodes) (lent_graph lent.now) scratch.old tally scratch.new result }
{
    let end = lent.nodes as usize;
    let mut t = tally;
    for v in 0..end {
        t = call(v, t, scratch);
    }
    t
}

// The tree call at node v, where it is a root.
pub fn tree_call_at(lent: &Lent, v: usize, tally: Tally, scratch: &mut [u32]) -> Tally
    requires { let g = lent_graph lent.now in
        Ordered g scratch.old × (v < lent.now.nodes) × (tally.count ≡ C (stands g scratch.old)) × Room tally 300000000000000000 × LockBytes lent.now.nodes lent.now.locks.now }
    ensures { let g = lent_graph lent.now in
        Phase (tree_at lent.now.locks.now v) 1 g scratch.old tally scratch.new result }
{
    let only = 8 * v + 3;
    if scratch[only] != MARK {
        return tally;
    }
    let step = trees::making::tree_step(lent, v, tally.count, scratch);
    with_step(tally, step)
}

// The tree call at each root.
pub fn tree_calls(lent: &Lent, tally: Tally, scratch: &mut [u32]) -> Tally
    requires { let g = lent_graph lent.now in
        Ordered g scratch.old × (tally.count ≡ C (stands g scratch.old)) × Room tally 200000000000000000 × LockBytes lent.now.nodes lent.now.locks.now }
    ensures { let g = lent_graph lent.now in
        Phase (each (tree_at lent.now.locks.now) lent.now.nodes) lent.now.nodes g scratch.old tally scratch.new result }
{
    at_each(lent, tally, scratch, |v, t, s| tree_call_at(lent, v, t, s))
}

// The node call at node v.
pub fn node_call_at(lent: &Lent, v: usize, tally: Tally, scratch: &mut [u32]) -> Tally
    requires { let g = lent_graph lent.now in
        Ordered g scratch.old × (v < lent.now.nodes) × (tally.count ≡ C (stands g scratch.old)) × Room tally 300000000000000000 × LockBytes lent.now.nodes lent.now.locks.now }
    ensures { let g = lent_graph lent.now in
        Phase (node_at lent.now.locks.now v) 1 g scratch.old tally scratch.new result }
{
    let single = state::moving::node_step(lent, v, tally.count, scratch);
    with_step(tally, single)
}

// The node call at each node.
pub fn single_calls(lent: &Lent, tally: Tally, scratch: &mut [u32]) -> Tally
    requires { let g = lent_graph lent.now in
        Ordered g scratch.old × (tally.count ≡ C (stands g scratch.old)) × Room tally 200000000000000000 × LockBytes lent.now.nodes lent.now.locks.now }
    ensures { let g = lent_graph lent.now in
        Phase (each (node_at lent.now.locks.now) lent.now.nodes) lent.now.nodes g scratch.old tally scratch.new result }
{
    at_each(lent, tally, scratch, |v, t, s| node_call_at(lent, v, t, s))
}

// The pair call at word k of node v, which has one.
pub fn pair_call_at(lent: &Lent, v: usize, k: usize, tally: Tally, scratch: &mut [u32]) -> Tally
    requires { let g = lent_graph lent.now in
        Ordered g scratch.old × (v < lent.now.nodes) × (word_fault g (lent.now.inputs + 1 + v) k ≡ 0) × (tally.count ≡ C (stands g scratch.old)) × Room tally 300000000000000000 × LockBytes lent.now.nodes lent.now.locks.now }
    ensures { let g = lent_graph lent.now in
        Phase (pair_at lent.now.locks.now v k) 1 g scratch.old tally scratch.new result }
{
    let step = state::moving::pair_step(lent, v, k, tally.count, scratch);
    with_step(tally, step)
}

// At the words of node v in order; an XOR has two.
pub fn pair_calls_at(lent: &Lent, v: usize, tally: Tally, scratch: &mut [u32]) -> Tally
    requires { let g = lent_graph lent.now in
        Ordered g scratch.old × (v < lent.now.nodes) × (tally.count ≡ C (stands g scratch.old)) × Room tally 250000000000000000 × LockBytes lent.now.nodes lent.now.locks.now }
    ensures { let g = lent_graph lent.now in
        Phase (pairs_at lent.now.locks.now v) 3 g scratch.old tally scratch.new result }
{
    let a = pair_call_at(lent, v, 1, tally, scratch);
    let b = pair_call_at(lent, v, 2, a, scratch);
    if moves::rows::is_xor(&lent.node_table, v) {
        return b;
    }
    pair_call_at(lent, v, 3, b, scratch)
}

// At each node.
pub fn pair_calls(lent: &Lent, tally: Tally, scratch: &mut [u32]) -> Tally
    requires { let g = lent_graph lent.now in
        Ordered g scratch.old × (tally.count ≡ C (stands g scratch.old)) × Room tally 200000000000000000 × LockBytes lent.now.nodes lent.now.locks.now }
    ensures { let g = lent_graph lent.now in
        Phase (each (pairs_at lent.now.locks.now) lent.now.nodes) (3 * lent.now.nodes) g scratch.old tally scratch.new result }
{
    at_each(lent, tally, scratch, |v, t, s| pair_calls_at(lent, v, t, s))
}
