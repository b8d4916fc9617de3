// Ways down from a node to an input, each as a word: bit c is set where the way meets the index at place c of the list of those near. A triple that misses
// a way leaks, so that it need not be tried.
ghost use Rattle.std.specs.Prelude.{◌≡◌, true, ℕ, ◌+◌, ◌-◌, ◌*◌, ◌≤◌, ◌<◌, length};
ghost use Rattle.graph.specs.Admission.{Admitted};
ghost use Rattle.graph.specs.Graph.{node};
ghost use Rattle.evaluation.specs.Inner.{nodes_of};
ghost use Rattle.finder.specs.Meeting.{Bars, AllBar, NamesOr, Ends, Listed, Followed, Comes, HeadComes, Come, Put, Added};
ghost use Rattle.graph.specs.Tables.{lent_table};
ghost use Rattle.finder.specs.Nodes.{nodes_in};

use crate::down::{is_open, words_from};
use crate::masks::{ALL, place_of, spread};
use crate::nodes::Nodes;
use graph::table::Table;
use moves::words::{narrow, wide};
use trees::fields::read;

// How far a way is followed.
const FAR: u32 = 40;

// The index that word k of node w names, 0 for the mark.
fn named_at(graph: &Nodes, w: usize, k: usize) -> u32
    requires { let g = nodes_in graph.now in
        Admitted g × (w < graph.now.nodes) × (k < 3) }
    ensures { let g = nodes_in graph.now in
        NamesOr g w result }
{
    let at = 3 * w + k;
    if graph.table.is_mark_at(at) {
        return 0;
    }
    graph.table.index_at(at)
}

// Whether a way may end at an index other than 0.
fn ends(inputs: u32, scratch: &[u32], list: &[u32], index: u32) -> bool
    requires { (inputs ≤ 4096) × (0 < index) × (index ≤ inputs + 100000) × (8 * (index - inputs) ≤ length scratch.now) × (0 < length list.now) }
    ensures { result ≡ true → Ends inputs list.now scratch.now index }
{
    if index <= inputs {
        return true;
    }
    if index < list[0] {
        return is_open(inputs, scratch, index);
    }
    false
}

// Whether a way would be given up: where an input is near it must be followed to its end.
fn is_far(inputs: u32, scratch: &[u32], list: &[u32], index: u32) -> bool
    requires { (inputs ≤ 4096) × (0 < index) × (index ≤ inputs + 100000) × (8 * (index - inputs) ≤ length scratch.now) × (0 < length list.now) }
{
    if inputs < list[0] {
        return false;
    }
    FAR < words_from(inputs, scratch, index)
}

// The way that has come to an index by the places of a mask, and on from there as each node tells.
fn follow(
    graph: &Nodes,
    scratch: &[u32],
    list: &[u32],
    m: usize,
    v: usize,
    from: u32,
    by: u64,
) -> u64
    requires { let g = nodes_in graph.now in
        Followed g v m list.now scratch.now × Comes g v m list.now from by }
    ensures { let g = nodes_in graph.now in
        Bars g list.now m result (node g v) }
{
    if is_far(graph.inputs, scratch, list, from) {
        return ALL;
    }
    let mut x = from;
    let mut mask = by;
    for far in 0..FAR {
        if ends(graph.inputs, scratch, list, x) {
            return mask;
        }
        if x <= graph.inputs {
            return ALL;
        }
        let w = wide(x - graph.inputs - 1);
        x = read(scratch, w, 0) / 2;
        if x == 0 {
            return ALL;
        }
        mask = mask | place_of(list, m, x);
    }
    ALL
}

// Where a way has come to, and by which places.
#[derive(Clone, Copy)]
pub struct Head {
    pub index: u32,
    pub mask: u64,
}

// A way one word further, by word k. One that has come to an input stays, for one of the words.
fn step(
    graph: &Nodes,
    list: &[u32],
    m: usize,
    v: usize,
    from: u32,
    by: u64,
    k: usize,
) -> Option<Head>
    requires { let g = nodes_in graph.now in
        Listed g v m list.now × Comes g v m list.now from by × (k < 3) }
    ensures { let g = nodes_in graph.now in
        HeadComes g v m list.now result }
{
    if from <= graph.inputs {
        if k == 1 {
            return Some(Head {
                index: from,
                mask: by,
            });
        }
        return None;
    }
    let x = named_at(graph, wide(from - graph.inputs - 1), k);
    if x == 0 {
        return None;
    }
    Some(Head {
        index: x,
        mask: by | place_of(list, m, x),
    })
}

fn put(heads: &mut [u32], met: &mut [u64], n: usize, found: Option<Head>) -> usize
    requires { (n < length heads.old) × (n < length met.old) × (n < 1000) }
    ensures { Put n found result heads.old heads.new met.old met.new }
{
    if let Some(head) = found {
        heads[n] = head.index;
        met[n] = head.mask;
        return n + 1;
    }
    n
}

// The ways at places from up to n one word further, put behind these.
fn further(
    graph: &Nodes,
    list: &[u32],
    m: usize,
    v: usize,
    heads: &mut [u32],
    met: &mut [u64],
    from: usize,
    n: usize,
) -> usize
    requires { let g = nodes_in graph.now in
        Listed g v m list.now × Come g v m list.now n heads.old met.old × (from ≤ n) × (n ≤ 4) × (n + 3 * (n - from) ≤ length heads.old) × (n + 3 * (n - from) ≤ length met.old) }
    ensures { let g = nodes_in graph.now in
        Come g v m list.now result heads.new met.new × (n ≤ result) × (result ≤ n + 3 * (n - from)) × (length heads.new ≡ length heads.old) × (length met.new ≡ length met.old) }
{
    let mut t = n;
    for j in 3 * from..3 * n {
        let head = step(graph, list, m, v, heads[j / 3], met[j / 3], j % 3);
        t = put(heads, met, t, head);
    }
    t
}

// A way by word k and on from there.
fn way(
    graph: &Nodes,
    scratch: &[u32],
    list: &[u32],
    m: usize,
    v: usize,
    from: u32,
    by: u64,
    k: usize,
) -> u64
    requires { let g = nodes_in graph.now in
        Followed g v m list.now scratch.now × Comes g v m list.now from by × (k < 3) }
    ensures { let g = nodes_in graph.now in
        Bars g list.now m result (node g v) }
{
    let found = step(graph, list, m, v, from, by, k);
    if let Some(head) = found {
        return follow(graph, scratch, list, m, v, head.index, head.mask);
    }
    ALL
}

fn add_way(ways: &mut [u64], n: usize, mask: u64) -> usize
    requires { (n < length ways.old) × (n < 1000) }
    ensures { Added n mask result ways.old ways.new }
{
    if mask == ALL {
        return n;
    }
    ways[n] = mask;
    n + 1
}

// All that go on by word k, put behind n words.
fn ways_by(
    graph: &Nodes,
    scratch: &[u32],
    list: &[u32],
    m: usize,
    v: usize,
    heads: &[u32],
    met: &[u64],
    from: usize,
    to: usize,
    k: usize,
    ways: &mut [u64],
    n: usize,
) -> usize
    requires { let g = nodes_in graph.now in
        Followed g v m list.now scratch.now × Come g v m list.now to heads.now met.now × (from ≤ to) × (to ≤ 13) × (k < 3) × (n ≤ 27) × (n + (to - from) ≤ length ways.old) × AllBar g list.now m n ways.old (node g v) }
    ensures { let g = nodes_in graph.now in
        AllBar g list.now m result ways.new (node g v) × (result ≤ n + (to - from)) × (length ways.new ≡ length ways.old) }
{
    let mut t = n;
    for e in from..to {
        let mask = way(graph, scratch, list, m, v, heads[e], met[e], k);
        t = add_way(ways, t, mask);
    }
    t
}

// All of them, or so many that no three places meet them. A first word is often the constant, so that the second is taken first.
fn ways_from(
    graph: &Nodes,
    scratch: &[u32],
    list: &[u32],
    m: usize,
    v: usize,
    heads: &[u32],
    met: &[u64],
    from: usize,
    to: usize,
    allowed: u64,
    ways: &mut [u64],
) -> usize
    requires { let g = nodes_in graph.now in
        Followed g v m list.now scratch.now × Come g v m list.now to heads.now met.now × (from ≤ to) × (to ≤ 13) × (to - from ≤ 9) × (27 ≤ length ways.old) }
    ensures { let g = nodes_in graph.now in
        AllBar g list.now m result ways.new (node g v) × (result ≤ 27) × (length ways.new ≡ length ways.old) }
{
    let n = ways_by(graph, scratch, list, m, v, heads, met, from, to, 1, ways, 0);
    if spread(ways, n, allowed) {
        return n;
    }
    let o = ways_by(graph, scratch, list, m, v, heads, met, from, to, 2, ways, n);
    ways_by(graph, scratch, list, m, v, heads, met, from, to, 0, ways, o)
}

// The ways down from node v by each three words and on from there, a word each; or so many of them that no three places meet them.
pub fn gather_ways(
    graph: &Nodes,
    scratch: &[u32],
    list: &[u32],
    m: usize,
    v: usize,
    allowed: u64,
    ways: &mut [u64],
) -> usize
    requires { let g = nodes_in graph.now in
        Followed g v m list.now scratch.now × (27 ≤ length ways.old) }
    ensures { let g = nodes_in graph.now in
        AllBar g list.now m result ways.new (node g v) × (result ≤ 27) × (length ways.new ≡ length ways.old) }
{
    let mut heads = [0u32; 13];
    let mut met = [0u64; 13];
    heads[0] = graph.inputs + 1 + narrow(v);
    let p = further(graph, list, m, v, &mut heads, &mut met, 0, 1);
    let q = further(graph, list, m, v, &mut heads, &mut met, 1, p);
    ways_from(
        graph, scratch, list, m, v, &heads, &met, p, q, allowed, ways,
    )
}
