// Places of a list of indices, as the bits of a word: which three may have, and which ways they must meet.
ghost use Rattle.std.specs.Prelude.{◌≡◌, true, false, ◌⊎◌, ℕ, ◌+◌, ◌*◌, ◌≤◌, ◌<◌, length};
ghost use Rattle.std.specs.Int.Bits.{bit_and, bit_or};
ghost use Rattle.graph.specs.Graph.{node};
ghost use Rattle.graph.specs.Literals.{bit};
ghost use Rattle.evaluation.specs.Inner.{nodes_of};
ghost use Rattle.finder.specs.Meeting.{Rises, PlacesOf, Lacks, Allows, Higher, Unmet, Listed};
ghost use Rattle.graph.specs.Tables.{lent_table};
ghost use Rattle.finder.specs.Nodes.{nodes_in};

use crate::nodes::Nodes;
use graph::table::Table;

// Every place.
pub const ALL: u64 = 18446744073709551615;

fn counted(n: usize, here: bool) -> usize
    requires { n < 1000 }
    ensures { (here ≡ true → result ≡ n + 1) × (here ≡ false → result ≡ n) }
{
    if here {
        return n + 1;
    }
    n
}

fn place(c: usize, here: bool) -> u64
    requires { c < 64 }
    ensures { (here ≡ true → bit c result ≡ 1) × ((k : ℕ) → bit k result ≡ 1 → (k ≡ c) × (here ≡ true)) }
{
    (here as u64) << c
}

// The place of an index in the list, of which as many are below it as stand before it.
pub fn place_of(list: &[u32], m: usize, index: u32) -> u64
    requires { (m ≤ 39) × (m ≤ length list.now) × Rises m list.now }
    ensures { PlacesOf list.now m index result }
{
    let mut below: usize = 0;
    for c in 0..m {
        below = counted(below, list[c] < index);
    }
    if below == m {
        return 0;
    }
    place(below, list[below] == index)
}

// The higher of two indices, 0 where they are the same.
fn higher(x: u32, y: u32) -> u32
    ensures { Higher x y result }
{
    if x < y {
        return y;
    }
    if y < x {
        return x;
    }
    0
}

// The places that three indices of a majority at node v may have: none of what an AND names, as its value is constant over one of that index's values, and not that of the
// higher index that an XOR names, as its value turns with it.
pub fn allowed_places(graph: &Nodes, list: &[u32], m: usize, v: usize) -> u64
    requires { let g = nodes_in graph.now in
        Listed g v m list.now }
    ensures { let g = nodes_in graph.now in
        Allows g v m list.now result }
{
    let at = 3 * v;
    let i = graph.table.index_at(at);
    let j = graph.table.index_at(at + 1);
    if graph.table.is_mark_at(at + 2) {
        return ALL ^ place_of(list, m, higher(i, j));
    }
    if i != 0 {
        return ALL;
    }
    let y = place_of(list, m, j);
    let z = place_of(list, m, graph.table.index_at(at + 2));
    ALL ^ (y | z)
}

// Whether so few indices are near that three cannot all be allowed.
pub fn too_few(m: usize, allowed: u64) -> bool
    ensures { result ≡ true → (a b c : ℕ) → a < b → b < c → c < m → Lacks allowed a b c }
{
    if 3 < m {
        return false;
    }
    if allowed % 2 == 0 {
        return true;
    }
    if (allowed >> 1) % 2 == 0 {
        return true;
    }
    (allowed >> 2) % 2 == 0
}

// Without the places that a way does not meet, where it misses those at a and b.
fn narrowed(met: u64, mask: u64, a: usize, b: usize) -> u64
    requires { (a < 64) × (b < 64) }
    ensures { (c : ℕ) → bit c result ≡ 0 → (bit c met ≡ 0) ⊎ ((bit a mask ≡ 0) × (bit b mask ≡ 0) × (bit c mask ≡ 0)) }
{
    if (mask >> a) % 2 == 1 {
        return met;
    }
    if (mask >> b) % 2 == 1 {
        return met;
    }
    met & mask
}

// The places of a third index with which those at a and b may meet every way, of the places that are allowed.
pub fn thirds(ways: &[u64], n: usize, allowed: u64, a: usize, b: usize) -> u64
    requires { (a < 64) × (b < 64) × (n ≤ length ways.now) }
    ensures { (c : ℕ) → bit c result ≡ 0 → Unmet allowed n ways.now a b c }
{
    if (allowed >> a) % 2 == 0 {
        return 0;
    }
    if (allowed >> b) % 2 == 0 {
        return 0;
    }
    let mut met = allowed;
    for k in 0..n {
        met = narrowed(met, ways[k], a, b);
    }
    met
}

// One more where a word shares no place with those seen, and those seen then.
fn apart_more(apart: u32, seen: u64, w: u64) -> u32
    requires { apart < 1000 }
    ensures { (bit_and seen w ≡ 0 → result ≡ apart + 1) × ((bit_and seen w ≡ 0 → ⊥) → result ≡ apart) }
{
    if seen & w == 0 {
        return apart + 1;
    }
    apart
}

fn seen_more(seen: u64, w: u64) -> u64
    ensures { (bit_and seen w ≡ 0 → result ≡ bit_or seen w) × ((bit_and seen w ≡ 0 → ⊥) → result ≡ seen) }
{
    if seen & w == 0 {
        return seen | w;
    }
    seen
}

// Whether no three places that are allowed meet every way: one has no such place, or four share none.
pub fn spread(ways: &[u64], n: usize, allowed: u64) -> bool
    requires { n ≤ length ways.now }
    ensures { result ≡ true → (a b c : ℕ) → Unmet allowed n ways.now a b c }
{
    let mut seen: u64 = 0;
    let mut apart: u32 = 0;
    for k in 0..n {
        let w = ways[k] & allowed;
        if w == 0 {
            return true;
        }
        apart = apart_more(apart, seen, w);
        seen = seen_more(seen, w);
        if 3 < apart {
            return true;
        }
    }
    false
}
