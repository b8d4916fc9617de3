// A node's family from the numbers of its words: what it costs that each ends with the bit 0, or 1.
ghost use Rattle.std.specs.Prelude.{◌≡◌, true, false, ◌⊎◌, ◌+◌, ◌*◌, ◌≤◌, ◌<◌, min};
ghost use Rattle.choice.specs.Inner.{FirstBelow};
ghost use Rattle.moves.specs.Rows.{arity, flag};
ghost use Rattle.resistive.specs.Family.{weight, family_by, packed};
ghost use Rattle.resistive_call.specs.Keys.{third_by, chain_by, Weighed, Low, LowWeights, score_by, turn_by, key_by};

use moves::decide::{LeastMove, Weights, either};
use moves::rows;

// What a node of the tree with n complemented inputs adds to the key.
pub fn weight_of(xor: bool, n: u32) -> u32
    requires { n ≤ 3 }
    ensures { (result ≡ weight true xor n) × (result ≤ 304100) }
{
    if xor {
        return n;
    }
    if n == 1 {
        return 1;
    }
    n + 304097
}

// The third word of a node: what it costs that it ends with the bit 0, or 1, n of the others being complemented.
pub fn third(xor: bool, even: u32, odd: u32, n: u32) -> u32
    requires { (even ≤ 304100) × (odd ≤ 304100) × (n ≤ 2) }
    ensures { (result ≡ third_by xor even odd n) × (result ≤ 608200) }
{
    (even + weight_of(xor, n)).min(odd + weight_of(xor, n + 1))
}

// All three words, each with both of its costs.
pub fn chain(xor: bool, a: u32, b: u32, c: u32, d: u32, e: u32, f: u32) -> u32
    requires { (a ≤ 304100) × (b ≤ 304100) × (c ≤ 304100) × (d ≤ 304100) × (e ≤ 304100) × (f ≤ 304100) }
    ensures { (result ≡ chain_by xor a b c d e f) × (result ≤ 1216400) }
{
    let none = third(xor, e, f, 0);
    let one = third(xor, e, f, 1);
    let two = third(xor, e, f, 2);
    let even = (c + none).min(d + one);
    let odd = (c + one).min(d + two);
    (a + even).min(b + odd)
}

// Under move k, which the compiler knows.
pub fn family_of(xor: bool, z: [u32; 6], k: u32) -> u32
    requires { Low z × (k < arity xor) }
    ensures { (result ≡ family_by xor z k) × (result ≤ 1216400) }
{
    let a = rows::flag_of(xor, k, 0) as usize;
    let b = rows::flag_of(xor, k, 1) as usize;
    let c = rows::flag_of(xor, k, 2) as usize;
    chain(xor, z[a], z[1 - a], z[2 + b], z[3 - b], z[4 + c], z[5 - c])
}

// Whether move k turns the third word: an XOR has none.
pub fn turns_third(xor: bool, k: u32) -> u32
    requires { k < arity xor }
    ensures { (result ≡ flag xor k 2) × (result ≤ 1) }
{
    if xor {
        return 0;
    }
    k
}

// Under a move that is known only now: what it turns is worked out, since a table would be written out at each use.
pub fn family_under(xor: bool, z: [u32; 6], k: u32) -> u32
    requires { Low z × (k < arity xor) }
    ensures { (result ≡ family_by xor z k) × (result ≤ 1216400) }
{
    let a = (k + k / 2) % 2;
    let b = k % 2;
    let c = turns_third(xor, k);
    chain(
        xor,
        either(a, z[0], z[1]),
        either(a, z[1], z[0]),
        either(b, z[2], z[3]),
        either(b, z[3], z[2]),
        either(c, z[4], z[5]),
        either(c, z[5], z[4]),
    )
}

// Move m with what the node's reader adds: `still`, or `turned` once its readers are turned.
pub fn score(xor: bool, w: Weights, m: u32) -> u32
    requires { LowWeights w × (m < arity xor) }
    ensures { result ≡ score_by xor w.costs w.still w.turned m }
{
    let shown = either(rows::flag_of(xor, m, 3), w.still, w.turned);
    let z = w.costs;
    family_of(xor, z, m) + shown
}

// Kinds and moves are written out, so that the compiler reads the table of rows.
pub fn first_of_majority(w: Weights) -> u32
    requires { LowWeights w }
    ensures { FirstBelow (score_by false w.costs w.still w.turned) 2 result }
{
    let least = LeastMove::no_move(score(false, w, 0));
    let least = least.or_move(1, score(false, w, 1));
    least.number
}

// Of an XOR's first two moves, or of all.
pub fn first_of_xor(moves: u32, w: Weights) -> u32
    requires { LowWeights w × ((moves ≡ 2) ⊎ (moves ≡ 4)) }
    ensures { FirstBelow (score_by true w.costs w.still w.turned) moves result }
{
    let least = LeastMove::no_move(score(true, w, 0));
    let least = least.or_move(1, score(true, w, 1));
    if moves == 2 {
        return least.number;
    }
    let least = least.or_move(2, score(true, w, 2));
    let least = least.or_move(3, score(true, w, 3));
    least.number
}

// The first of the least of so many moves.
pub fn first_score(xor: bool, moves: u32, w: Weights) -> u32
    requires { LowWeights w × Weighed xor moves }
    ensures { FirstBelow (score_by xor w.costs w.still w.turned) moves result }
{
    if moves == 1 {
        return 0;
    }
    if xor {
        return first_of_xor(moves, w);
    }
    first_of_majority(w)
}

// The least family of the moves that turn the readers t times.
pub fn turn_least(xor: bool, z: [u32; 6], t: u32) -> u32
    requires { Low z × (t ≤ 1) }
    ensures { (result ≡ turn_by xor z t) × (result ≤ 1216400) }
{
    if xor {
        return family_of(true, z, 2 * t).min(family_of(true, z, 2 * t + 1));
    }
    family_of(false, z, t)
}

// Two costs in one word.
pub fn pack(a: u32, b: u32) -> u32
    requires { (a ≤ 1216400) × (b ≤ 1216400) }
    ensures { result ≡ packed a b }
{
    if b < a {
        return 2 * (a - b) + 1;
    }
    2 * (b - a)
}

// What is stored for a node with so many moves.
pub fn key_of(xor: bool, moves: u32, z: [u32; 6]) -> u32
    requires { Low z }
    ensures { result ≡ key_by xor moves z }
{
    if moves == 1 {
        return 608200;
    }
    pack(turn_least(xor, z, 0), turn_least(xor, z, 1))
}
