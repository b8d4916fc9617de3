// The indices within three words downward of a node, as a rising list.
ghost use Rattle.std.specs.Prelude.{◌≡◌, true, ℕ, ◌+◌, ◌*◌, ◌/◌, ◌≤◌, ◌<◌, eqb, length};
ghost use Rattle.graph.specs.Admission.{Admitted};
ghost use Rattle.graph.specs.Graph.{is_edge};
ghost use Rattle.evaluation.specs.Inner.{nodes_of};
ghost use Rattle.hidden.specs.Find.{reaches};
ghost use Rattle.finder.specs.Nearness.{Carried, Inserted, Grown, reach_room, through};
ghost use Rattle.graph.specs.Tables.{lent_table};
ghost use Rattle.finder.specs.Nodes.{nodes_in};

use crate::nodes::Nodes;
use graph::table::Table;
use moves::words::wide;

// Leaves the lower of two at place k and answers the other.
fn carry(list: &mut [u32], k: usize, carried: u32) -> u32
    requires { k < length list.old }
    ensures { Carried k carried result list.old list.new }
{
    let x = list[k];
    if x < carried {
        return carried;
    }
    list[k] = carried;
    x
}

// An index into the first n, which rise; answers how many they are then.
fn insert(list: &mut [u32], n: usize, index: u32) -> usize
    requires { (n ≤ 1000) × (n < length list.old) }
    ensures { Inserted index n result list.old list.new }
{
    let mut carried = index;
    for k in 0..n {
        if list[k] == carried {
            return n;
        }
        carried = carry(list, k, carried);
    }
    list[n] = carried;
    n + 1
}

// The constant is left out.
fn add(list: &mut [u32], n: usize, index: u32) -> usize
    requires { (n ≤ 1000) × (n < length list.old) }
    ensures { Grown 1 (index + 1) (eqb index) n result list.old list.new }
{
    if index == 0 {
        return n;
    }
    insert(list, n, index)
}

// What the word at place j names, and what that index reaches. Most words are the last on their way or name no node, and are
// not asked what they reach.
#[cycle(reach)]
fn through(graph: &Nodes, list: &mut [u32], n: usize, j: usize, far: u32) -> usize
    requires { let g = nodes_in graph.now in
        Admitted g × (j < 3 * graph.now.nodes) × (is_edge g j ≡ true) × (n + (reach_room far + 1) ≤ length list.old) × (length list.old ≤ 1000) }
    ensures { let g = nodes_in graph.now in
        Grown (reach_room far + 1) (graph.now.inputs + 1 + j / 3) (through g far j) n result list.old list.new }
{
    let x = graph.table.index_at(j);
    let m = add(list, n, x);
    if far == 0 {
        return m;
    }
    if x <= graph.inputs {
        return m;
    }
    reach(graph, list, m, x, far)
}

// What an index reaches within so many words.
#[cycle(reach)]
pub fn reach(graph: &Nodes, list: &mut [u32], n: usize, u: u32, far: u32) -> usize
    requires { let g = nodes_in graph.now in
        Admitted g × (u < graph.now.inputs + 1 + graph.now.nodes) × (n + reach_room far ≤ length list.old) × (length list.old ≤ 1000) }
    ensures { let g = nodes_in graph.now in
        Grown (reach_room far) u (reaches g far u) n result list.old list.new }
{
    if far == 0 {
        return n;
    }
    if u <= graph.inputs {
        return n;
    }
    let on = far - 1;
    let at = 3 * wide(u - graph.inputs - 1);
    let a = through(graph, list, n, at, on);
    let b = through(graph, list, a, at + 1, on);
    if graph.table.is_mark_at(at + 2) {
        return b;
    }
    through(graph, list, b, at + 2, on)
}
