// How many ANDs the nodes take, and the literals that the nodes have in the text.
ghost use Rattle.std.specs.Prelude.{◌≡◌, List, ℕ, ◌≤◌, ◌<◌, length};
ghost use Rattle.graph.specs.Admission.{Admitted};
ghost use Rattle.graph.specs.Graph.{graph_of, index, node};
ghost use Rattle.graph.specs.Inner.{Readable};
ghost use Rattle.graph.specs.Literals.{literals};
ghost use Rattle.aiger.specs.Export.{gates_of, gates_before, exported};
ghost use Rattle.aiger_export.specs.Inner.{Filled};
ghost use Rattle.graph.specs.Tables.{lent_graph, lent_table};

use graph::table::Table;
use graph::{Circuit, table};

// The ANDs of node v.
pub fn gates_at(node_table: &Table, v: usize) -> u32
    requires { Readable (lent_table node_table.now) v }
    ensures { let ns = lent_table node_table.now in
        ((i n o : ℕ) (os : List ℕ) → result ≡ gates_of (graph_of i n o ns os) v) × (result ≤ 4) }
{
    if node_table.is_mark_at(3 * v + 2) {
        return 3;
    }
    4
}

// The ANDs of all nodes.
pub fn gate_count(circuit: &Circuit) -> u32
    ensures { let g = lent_graph circuit.now.lent in
        result ≡ gates_before g circuit.now.lent.nodes }
{
    let mut count: u32 = 0;
    for v in 0..circuit.lent.nodes {
        count += gates_at(&circuit.lent.node_table, v as usize);
    }
    count
}

// Puts the even literal that each node has in the text into scratch.
pub fn fill_literals(circuit: &Circuit, scratch: &mut [u32])
    requires { circuit.now.lent.nodes ≤ length scratch.old }
    ensures { let g = lent_graph circuit.now.lent in
        Filled g scratch.new }
{
    let end = circuit.lent.nodes as usize;
    let mut last = circuit.lent.inputs;
    for v in 0..end {
        last += gates_at(&circuit.lent.node_table, v);
        scratch[v] = 2 * last;
    }
}

// A literal of the graph in the text.
pub fn literal(circuit: &Circuit, scratch: &[u32], x: u32) -> u32
    requires { let g = lent_graph circuit.now.lent in
        (circuit.now.lent.nodes ≤ length scratch.now) × Filled g scratch.now × (index x < node g circuit.now.lent.nodes) }
    ensures { let g = lent_graph circuit.now.lent in
        result ≡ exported g x }
{
    let index = x / 2;
    if index <= circuit.lent.inputs {
        return x;
    }
    let v = (index - circuit.lent.inputs - 1) as usize;
    scratch[v] + (x + 1) % 2
}
