// Ways down to an input: of each node passed, a lower index from which one leads on, and how many words it has.
ghost use Rattle.std.specs.Prelude.{◌≡◌, true, ◌⊎◌, ℕ, ◌+◌, ◌-◌, ◌*◌, ◌≤◌, ◌<◌, length};
ghost use Rattle.graph.specs.Admission.{Admitted};
ghost use Rattle.evaluation.specs.Inner.{nodes_of};
ghost use Rattle.finder.specs.Ways.{Open, Chosen, Leading, Led};
ghost use Rattle.graph.specs.Tables.{lent_table};
ghost use Rattle.finder.specs.Nodes.{nodes_in};

use crate::nodes::Nodes;
use graph::table::Table;
use moves::words::wide;
use trees::fields::{read, store};

// Words to an input that are no longer told apart.
const MANY: u32 = 8;

// Whether a way is known from an index.
pub fn is_open(inputs: u32, scratch: &[u32], index: u32) -> bool
    requires { (inputs ≤ 4096) × (index ≤ inputs + 100000) × (8 * (index - inputs) ≤ length scratch.now) }
    ensures { result ≡ true → Open inputs scratch.now index }
{
    if index == 0 {
        return false;
    }
    if index <= inputs {
        return true;
    }
    1 < read(scratch, wide(index - inputs - 1), 0)
}

// How many words lead from an index to an input by the ways that are told.
pub fn words_from(inputs: u32, scratch: &[u32], index: u32) -> u32
    requires { (inputs ≤ 4096) × (index ≤ inputs + 100000) × (8 * (index - inputs) ≤ length scratch.now) }
{
    if index <= inputs {
        return 0;
    }
    read(scratch, wide(index - inputs - 1), 6)
}

// The one of two indices, of which 0 is none, from which fewer words lead to an input; where many do from both, the lower, so that what is near is left soon.
fn nearer(inputs: u32, scratch: &[u32], best: u32, index: u32) -> u32
    requires { (inputs ≤ 4096) × (best ≤ inputs + 100000) × (8 * (best - inputs) ≤ length scratch.now) × (index ≤ inputs + 100000) × (8 * (index - inputs) ≤ length scratch.now) }
    ensures { (result ≡ best) ⊎ (result ≡ index) }
{
    if best == 0 {
        return index;
    }
    let d = words_from(inputs, scratch, best).min(MANY);
    let e = words_from(inputs, scratch, index).min(MANY);
    if d < e {
        return best;
    }
    if e < d {
        return index;
    }
    if index < best {
        return index;
    }
    best
}

fn nearer_open(inputs: u32, scratch: &[u32], best: u32, index: u32) -> u32
    requires { (inputs ≤ 4096) × (best ≤ inputs + 100000) × (8 * (best - inputs) ≤ length scratch.now) × (index ≤ inputs + 100000) × (8 * (index - inputs) ≤ length scratch.now) }
    ensures { Chosen inputs scratch.now best index result }
{
    if is_open(inputs, scratch, index) {
        return nearer(inputs, scratch, best, index);
    }
    best
}

// The index that node v names from which the way is to lead on.
fn nearest_open(graph: &Nodes, scratch: &[u32], v: usize) -> u32
    requires { let g = nodes_in graph.now in
        Admitted g × (v < graph.now.nodes) × (8 * graph.now.nodes ≤ length scratch.now) }
    ensures { let g = nodes_in graph.now in
        Leading g scratch.now v result }
{
    let at = 3 * v;
    let a = nearer_open(graph.inputs, scratch, 0, graph.table.index_at(at));
    let b = nearer_open(graph.inputs, scratch, a, graph.table.index_at(at + 1));
    if graph.table.is_mark_at(at + 2) {
        return b;
    }
    nearer_open(graph.inputs, scratch, b, graph.table.index_at(at + 2))
}

// Stores it, and how many words lead on from node v.
pub fn set_down(graph: &Nodes, scratch: &mut [u32], v: usize)
    requires { let g = nodes_in graph.now in
        Admitted g × (v < graph.now.nodes) × (8 * graph.now.nodes ≤ length scratch.old) }
    ensures { let g = nodes_in graph.now in
        Led g v scratch.old scratch.new }
{
    let low = nearest_open(graph, scratch, v);
    let words = words_from(graph.inputs, scratch, low).saturating_add(1);
    store(scratch, v, 0, 2 * low);
    store(scratch, v, 6, words);
}
