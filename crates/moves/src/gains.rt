// A saving in two parts: over the words of the nodes that a call names, and over all other edges, of which only those change that
// name one of these nodes.
ghost use Rattle.std.specs.Prelude.{◌≡◌, ◌<◌, ◌≤◌};
ghost use Rattle.moves.specs.Call.{told_saving};
ghost use Rattle.moves.specs.Decide.{Counted};
ghost use Rattle.moves.specs.Outside.{odd_by, between_by, NodeOdds, PairOdds, saved_by};

use crate::decide::{NodeNumbers, either};
use crate::{Saving, rows};
use graph::signed;

// The odd edges outside before and after a call, or both up to one number.
#[derive(Clone, Copy)]
pub struct Odds {
    pub before: u32,
    pub after: u32,
}

// The odd readers of a node, all of them turned f times.
pub fn odd_by(node: NodeNumbers, f: u32) -> u32
    requires { Counted node }
    ensures { (result ≡ odd_by node f) × (result ≤ 304096) }
{
    either(f, node.odd, node.readers - node.odd)
}

// Those of a node's words that name another, turned f times.
pub fn between_by(node: NodeNumbers, which: [u32; 3], f: u32) -> u32
    requires { Counted node × (f ≤ 1) }
    ensures { (result ≡ between_by node which f) × (result ≤ 3) }
{
    let z = node.costs;
    let at = f as usize;
    let a = either(which[0], 0, z[at]);
    let b = either(which[1], 0, z[2 + at]);
    let c = either(which[2], 0, z[4 + at]);
    a + b + c
}

// Of move k of a node.
pub fn node_odds(node: NodeNumbers, k: u32) -> Odds
    requires { Counted node × (k < node.moves) }
    ensures { NodeOdds node k result }
{
    let f = rows::flag_of(node.xor, k, 3);
    let before = odd_by(node, 0);
    let after = odd_by(node, f);
    Odds { before, after }
}

// Of move a of a node and move k of the node whose words name it.
pub fn pair_odds(named: NodeNumbers, node: NodeNumbers, which: [u32; 3], a: u32, k: u32) -> Odds
    requires { Counted named × Counted node × (a < named.moves) × (k < node.moves) }
    ensures { PairOdds named node which a k result }
{
    let f = rows::flag_of(named.xor, a, 3);
    let e = rows::flag_of(node.xor, k, 3);
    let before = odd_by(named, 0) + odd_by(node, 0) + between_by(node, which, f);
    let after = odd_by(named, f) + odd_by(node, e) + between_by(node, which, 0);
    Odds { before, after }
}

// C before and after a call, or both up to one number, and the odd edges outside.
pub fn saved_by(before: u32, after: u32, odds: Odds) -> Saving
    ensures { told_saving result ≡ saved_by before after odds.before odds.after }
{
    let own = signed::less(
        before as u64 + odds.after as u64,
        after as u64 + odds.before as u64,
    );
    let others = signed::less(odds.before as u64, odds.after as u64);
    Saving { own, others }
}
