// Deciding from numbers: what the words of a node add, its readers, and how many of these are complemented.
ghost use Rattle.std.specs.Prelude.{◌≡◌, ℕ, ◌+◌, ◌*◌, ◌<◌, ◌≤◌, true, false, slice_index};
ghost use Rattle.choice.specs.Inner.{FirstBelow};
ghost use Rattle.graph.specs.Finite.{if_equal};
ghost use Rattle.moves.specs.Rows.{arity};
ghost use Rattle.moves.specs.Decide.{cost_by, cost_with, Weighed, Numbers, MovesOf, LeastBelow, given, Counted, CountedPair, pair_cost, FirstPair, Answered};
ghost use Rattle.moves.specs.Pair.{pair_saving, saving_numbered, GreatestBelow, Won};

use crate::rows;
use graph::signed;

// x where f is 0, else y. That f counts turns and is added to indices shows that a bool would be no plainer.
pub fn either(f: u32, x: u32, y: u32) -> u32
    ensures { result ≡ if_equal f 0 x y }
{
    if f == 0 {
        return x;
    }
    y
}

// What is weighed of a node's moves: what its words add as they stand and turned, and its readers, which add `still`, or `turned` once all are turned.
#[derive(Clone, Copy)]
pub struct Weights {
    pub costs: [u32; 6],
    pub still: u32,
    pub turned: u32,
}

// What move m of a node leaves of its words and readers.
pub fn cost_by(xor: bool, w: Weights, m: u32) -> u32
    requires { Weighed w.costs w.still w.turned × (m < arity xor) }
    ensures { (result ≡ cost_by xor w.costs w.still w.turned m) × (result ≤ 3 + (w.still + w.turned)) }
{
    let z = w.costs;
    let a = rows::flag_of(xor, m, 0) as usize;
    let b = 2 + rows::flag_of(xor, m, 1) as usize;
    let c = 4 + rows::flag_of(xor, m, 2) as usize;
    let shown = either(rows::flag_of(xor, m, 3), w.still, w.turned);
    z[a] + z[b] + z[c] + shown
}

// The same for a node with that many readers, `odd` of them complemented.
pub fn move_cost(xor: bool, z: [u32; 6], readers: u32, odd: u32, m: u32) -> u32
    requires { Numbers z readers odd × (m < arity xor) }
    ensures { (result ≡ cost_with xor z readers odd m) × (result ≤ 3 + readers) }
{
    let w = Weights {
        costs: z,
        still: odd,
        turned: readers - odd,
    };
    cost_by(xor, w, m)
}

// The first of some least moves, and what it leaves.
#[derive(Clone, Copy)]
pub struct LeastMove {
    pub number: u32,
    pub cost: u32,
}

impl LeastMove {
    // No move, which leaves that much.
    pub fn no_move(cost: u32) -> LeastMove
        ensures { (f : ℕ → ℕ) → cost ≡ f 0 → LeastBelow f 1 result.number result.cost }
    {
        LeastMove { number: 0, cost }
    }

    // Move m in its place where that leaves less.
    pub fn or_move(self, m: u32, cost: u32) -> LeastMove
        ensures { (f : ℕ → ℕ) → LeastBelow f m self.number self.cost → cost ≡ f m → LeastBelow f (m + 1) result.number result.cost }
    {
        if cost < self.cost {
            return LeastMove { number: m, cost };
        }
        self
    }
}

// The kind and the moves are written out, so that the compiler reads the table of rows and the code has no jumps.
pub fn least_of_majority(w: Weights) -> LeastMove
    requires { Weighed w.costs w.still w.turned }
    ensures { LeastBelow (cost_by false w.costs w.still w.turned) 2 result.number result.cost }
{
    let least = LeastMove::no_move(cost_by(false, w, 0));
    least.or_move(1, cost_by(false, w, 1))
}

pub fn least_of_xor(w: Weights) -> LeastMove
    requires { Weighed w.costs w.still w.turned }
    ensures { LeastBelow (cost_by true w.costs w.still w.turned) 4 result.number result.cost }
{
    let least = LeastMove::no_move(cost_by(true, w, 0));
    let least = least.or_move(1, cost_by(true, w, 1));
    let least = least.or_move(2, cost_by(true, w, 2));
    least.or_move(3, cost_by(true, w, 3))
}

// The first of the least moves of a node of either kind that has so many: of one, where it is locked.
pub fn least_of(xor: bool, moves: u32, w: Weights) -> LeastMove
    requires { Weighed w.costs w.still w.turned × MovesOf xor moves }
    ensures { LeastBelow (cost_by xor w.costs w.still w.turned) moves result.number result.cost }
{
    if moves == 1 {
        return LeastMove::no_move(cost_by(xor, w, 0));
    }
    if xor {
        return least_of_xor(w);
    }
    least_of_majority(w)
}

// The first of a node's least moves.
pub fn least_move(xor: bool, moves: u32, z: [u32; 6], readers: u32, odd: u32) -> LeastMove
    requires { Numbers z readers odd × MovesOf xor moves }
    ensures { LeastBelow (cost_with xor z readers odd) moves result.number result.cost }
{
    let w = Weights {
        costs: z,
        still: odd,
        turned: readers - odd,
    };
    least_of(xor, moves, w)
}

// Its number alone.
pub fn first_least(xor: bool, moves: u32, z: [u32; 6], readers: u32, odd: u32) -> u32
    requires { Numbers z readers odd × MovesOf xor moves }
    ensures { FirstBelow (cost_with xor z readers odd) moves result }
{
    let least = least_move(xor, moves, z, readers, odd);
    least.number
}

// The numbers of a node: its kind, how many moves it has, what its words add as they stand and turned, its readers, and how many are complemented.
#[derive(Clone, Copy)]
pub struct NodeNumbers {
    pub xor: bool,
    pub moves: u32,
    pub costs: [u32; 6],
    pub readers: u32,
    pub odd: u32,
}

// The numbers of a named node and of the node that names it, and which words of that one do.
#[derive(Clone, Copy)]
pub struct Pair {
    pub named: NodeNumbers,
    pub node: NodeNumbers,
    pub which: [u32; 3],
}

// A move at the named node, and one at the node that names it.
#[derive(Clone, Copy)]
pub struct PairMoves {
    pub named: u32,
    pub node: u32,
}

// The words' costs once the readers among them have been turned f times.
pub fn given_costs(z: [u32; 6], which: [u32; 3], f: u32) -> [u32; 6]
    requires { (i : ℕ) → slice_index which i ≤ 1 }
    ensures { result ≡ given z which f }
{
    let a = either(f, 0, which[0]);
    let b = either(f, 0, which[1]);
    let c = either(f, 0, which[2]);
    [
        either(a, z[0], z[1]),
        either(a, z[1], z[0]),
        either(b, z[2], z[3]),
        either(b, z[3], z[2]),
        either(c, z[4], z[5]),
        either(c, z[5], z[4]),
    ]
}

// The node's first least move once the readers of the node that some of its words name have been turned f times, and what
// it leaves, with what its words add turned once more.
pub fn answer_given(node: NodeNumbers, which: [u32; 3], f: u32) -> LeastMove
    requires { Counted node × ((i : ℕ) → slice_index which i ≤ 1) }
    ensures { Answered node which f result.number result.cost }
{
    let y = node.costs;
    let z = given_costs(y, which, f);
    let least = least_move(node.xor, node.moves, z, node.readers, node.odd);
    LeastMove {
        number: least.number,
        cost: least.cost + (z[1] + z[3] + z[5]),
    }
}

// What move a at the named node and move k at the node leave.
pub fn pair_cost(pair: Pair, a: u32, k: u32) -> u32
    requires { CountedPair pair × (a < pair.named.moves) × (k < pair.node.moves) }
    ensures { result ≡ pair_cost pair.named pair.node pair.which a k }
{
    let named = pair.named;
    let node = pair.node;
    let x = named.costs;
    let first = move_cost(named.xor, x, named.readers, named.odd, a);
    let f = rows::flag_of(named.xor, a, 3);
    let y = node.costs;
    let turned = given_costs(y, pair.which, f);
    let second = move_cost(node.xor, turned, node.readers, node.odd, k);
    first + second + (turned[1] + turned[3] + turned[5])
}

// The first of the least pairs of moves, by the named node's and then by the node's: the node's answer depends only on whether
// the named node's readers are turned, so that it is worked out twice and weighed in with these readers.
pub fn first_pair(named: NodeNumbers, node: NodeNumbers, which: [u32; 3]) -> PairMoves
    requires { Counted named × Counted node × ((i : ℕ) → slice_index which i ≤ 1) }
    ensures { FirstPair (pair_cost named node which) named.moves node.moves result.named result.node }
{
    let still = answer_given(node, which, 0);
    let turned = answer_given(node, which, 1);
    let x = named.costs;
    let w = Weights {
        costs: x,
        still: named.odd + still.cost,
        turned: named.readers - named.odd + turned.cost,
    };
    let first = least_of(named.xor, named.moves, w);
    let f = rows::flag_of(named.xor, first.number, 3);
    PairMoves {
        named: first.number,
        node: either(f, still.number, turned.number),
    }
}

// What move a at the named node and move k at the node save: what no moves leave, less what these leave.
pub fn pair_saving(pair: Pair, a: u32, k: u32) -> i64
    requires { CountedPair pair × (a < pair.named.moves) × (k < pair.node.moves) }
    ensures { result ≡ pair_saving pair.named pair.node pair.which a k }
{
    let before = pair_cost(pair, 0, 0);
    let after = pair_cost(pair, a, k);
    signed::less(before as u64, after as u64)
}

// A combination of moves on a pair by its number, the named node's move counting first, and what it saves.
#[derive(Clone, Copy)]
pub struct Combination {
    pub number: u32,
    pub saving: i64,
}

// What combination c saves.
pub fn saving_numbered(pair: Pair, c: u32) -> i64
    requires { CountedPair pair × (c < pair.named.moves * pair.node.moves) }
    ensures { result ≡ saving_numbered pair.named pair.node pair.which c }
{
    let moves = pair.node.moves;
    pair_saving(pair, c / moves, c % moves)
}

// Combination c where it saves more than the best below it.
pub fn if_more(pair: Pair, best: Combination, c: u32) -> Combination
    requires { CountedPair pair × (c < pair.named.moves * pair.node.moves) × GreatestBelow pair.named pair.node pair.which c best }
    ensures { GreatestBelow pair.named pair.node pair.which (c + 1) result }
{
    let saving = saving_numbered(pair, c);
    let most = best.saving;
    if most < saving {
        return Combination { number: c, saving };
    }
    best
}

// The first combination that saves most.
pub fn best_numbered(pair: Pair) -> Combination
    requires { CountedPair pair }
    ensures { GreatestBelow pair.named pair.node pair.which (pair.named.moves * pair.node.moves) result }
{
    let all = pair.named.moves * pair.node.moves;
    let saving = saving_numbered(pair, 0);
    let mut best = Combination { number: 0, saving };
    for c in 1..all {
        best = if_more(pair, best, c);
    }
    best
}

// Both moves of a pair, and what they save.
#[derive(Clone, Copy)]
pub struct BestPair {
    pub named: u32,
    pub node: u32,
    pub saving: u32,
}

// The first pair of moves that saves most, each worked out from the numbers as they stand.
pub fn best_pair(pair: Pair) -> BestPair
    requires { CountedPair pair }
    ensures { Won pair.named pair.node pair.which result }
{
    let best = best_numbered(pair);
    let moves = pair.node.moves;
    let saving = best.saving;
    BestPair {
        named: best.number / moves,
        node: best.number % moves,
        saving: signed::count_of(saving),
    }
}
