// Nodes at which no triple gives a majority: those with a constant first word that name an input. Where the input is in the triple, the node is constant
// under one of its values; where it is not, the node leaks.
ghost use Rattle.std.specs.Prelude.{◌≡◌, true, ◌≤◌, ◌<◌};
ghost use Rattle.graph.specs.Admission.{Admitted};
ghost use Rattle.evaluation.specs.Inner.{nodes_of};
ghost use Rattle.finder.specs.Barred.{NoMajority};
ghost use Rattle.graph.specs.Tables.{lent_table};
ghost use Rattle.finder.specs.Nodes.{nodes_in};

use crate::nodes::Nodes;
use graph::table::Table;

fn is_input(inputs: u32, index: u32) -> bool
    ensures { result ≡ true → (0 < index) × (index ≤ inputs) }
{
    index != 0 && index <= inputs
}

pub fn nothing_to_find(graph: &Nodes, v: usize) -> bool
    requires { let g = nodes_in graph.now in
        Admitted g × (v < graph.now.nodes) }
    ensures { let g = nodes_in graph.now in
        (result ≡ true → NoMajority g v) }
{
    let at = 3 * v;
    if graph.table.is_mark_at(at + 2) {
        return false;
    }
    if graph.table.index_at(at) != 0 {
        return false;
    }
    if is_input(graph.inputs, graph.table.index_at(at + 1)) {
        return true;
    }
    is_input(graph.inputs, graph.table.index_at(at + 2))
}
