// The finder's pass: each free node that is no plain majority, by rising index, made the first majority that a triple near it gives.
ghost use Rattle.std.specs.Prelude.{◌≡◌, not, ◌||◌, ℕ, ◌+◌, ◌*◌, ◌≤◌, ◌<◌, eqb, length};
ghost use Rattle.graph.specs.Admission.{Admitted};
ghost use Rattle.graph.specs.Literals.{literals};
ghost use Rattle.evaluation.specs.Inner.{nodes_of};
ghost use Rattle.hidden.specs.Find.{is_plain, passed};
ghost use Rattle.finder.specs.Signs.{Signed};
ghost use Rattle.finder.specs.Trying.{Gives, trial_byte, trial_three};
ghost use Rattle.finder.specs.Passing.{Clean, Becomes, Changed, Stepped};
ghost use Rattle.graph.specs.Tables.{lent_table};
ghost use Rattle.finder.specs.Nodes.{nodes_in};

use crate::down::set_down;
use crate::nodes::Nodes;
use crate::signs::set_sign;
use crate::trying::{Trial, try_near};
use graph::table::Table;
use majority_call::making;
use moves::words::wide;
use trees::fields::store;

// Three different indices other than 0.
fn differ(x: u32, y: u32, z: u32) -> bool
    ensures { result ≡ not (eqb x 0 || eqb y 0 || eqb z 0 || eqb x y || eqb x z || eqb y z) }
{
    x != 0 && y != 0 && z != 0 && x != y && x != z && y != z
}

// Whether node v is a majority of such.
fn is_plain(graph: &Nodes, v: usize) -> bool
    requires { let g = nodes_in graph.now in
        Admitted g × (v < graph.now.nodes) }
    ensures { let g = nodes_in graph.now in
        result ≡ is_plain g v }
{
    let at = 3 * v;
    if graph.table.is_mark_at(at + 2) {
        return false;
    }
    let x = graph.table.index_at(at);
    let y = graph.table.index_at(at + 1);
    let z = graph.table.index_at(at + 2);
    differ(x, y, z)
}

// Makes node v the majority that was found, if one was.
fn make_found(
    inputs: u32,
    nodes: u32,
    node_table: &mut [u32],
    node_bits: &mut [u64],
    v: usize,
    found: Option<Trial>,
)
    requires { let g = nodes_of inputs nodes (literals node_table.old node_bits.old) in
        Admitted g × (v < nodes) × (trial_byte found < 256 → Gives g v (trial_byte found) (trial_three found)) }
    ensures { let g = nodes_of inputs nodes (literals node_table.old node_bits.old) in
        Becomes g v (trial_byte found) (trial_three found) (literals node_table.new node_bits.new) }
{
    if let Some(trial) = found {
        let c = making::complements_of(trial.byte as u32);
        making::make(
            node_table,
            node_bits,
            v,
            trial.one,
            trial.two,
            trial.three,
            c,
        );
    }
}

// The words of node v: locked and plain ones stay. What scratch has of the node itself is forgotten.
fn change_node<'x>(
    inputs: u32,
    nodes: u32,
    node_table: &'x mut [u32],
    node_bits: &'x mut [u64],
    locks: &[u8],
    scratch: &mut [u32],
    v: u32,
)
    requires { let g = nodes_of inputs nodes (literals node_table.old node_bits.old) in
        Admitted g × (v < nodes) × (nodes ≤ length locks.now) × Clean g v scratch.old × Signed g (v + 1) scratch.old }
    ensures { let g = nodes_of inputs nodes (literals node_table.old node_bits.old) in
        let ns' = literals node_table.new node_bits.new in
        Changed g locks.now v ns' scratch.new }
{
    let graph = Nodes {
        inputs,
        nodes,
        table: Table {
            indices: node_table,
            bits: node_bits,
        },
    };
    let w = wide(v);
    if locks[w] == 1 {
        return;
    }
    if is_plain(&graph, w) {
        return;
    }
    let found = try_near(&graph, scratch, v);
    make_found(inputs, nodes, node_table, node_bits, w, found);
    store(scratch, w, 2, 0);
}

// Passes node v: its signature, then its words, then its way down. A node that is made has the values it had.
fn pass_node<'x>(
    inputs: u32,
    nodes: u32,
    node_table: &'x mut [u32],
    node_bits: &'x mut [u64],
    locks: &[u8],
    scratch: &mut [u32],
    v: u32,
)
    requires { let g = nodes_of inputs nodes (literals node_table.old node_bits.old) in
        Admitted g × (v < nodes) × (nodes ≤ length locks.now) × Clean g v scratch.old × Signed g v scratch.old }
    ensures { let g = nodes_of inputs nodes (literals node_table.old node_bits.old) in
        let ns' = literals node_table.new node_bits.new in
        Stepped g locks.now v ns' scratch.new }
{
    let w = wide(v);
    let before = Table {
        indices: node_table,
        bits: node_bits,
    };
    let graph = Nodes {
        inputs,
        nodes,
        table: before,
    };
    set_sign(&graph, scratch, w);
    change_node(inputs, nodes, node_table, node_bits, locks, scratch, v);
    let after = Table {
        indices: node_table,
        bits: node_bits,
    };
    let graph = Nodes {
        inputs,
        nodes,
        table: after,
    };
    set_down(&graph, scratch, w);
}

// All of them, by rising index.
pub fn pass(
    inputs: u32,
    nodes: u32,
    node_table: &mut [u32],
    node_bits: &mut [u64],
    locks: &[u8],
    scratch: &mut [u32],
)
    requires { let g = nodes_of inputs nodes (literals node_table.old node_bits.old) in
        Admitted g × (nodes ≤ length locks.now) × Clean g 0 scratch.old }
    ensures { let g = nodes_of inputs nodes (literals node_table.old node_bits.old) in
        let h = nodes_of inputs nodes (literals node_table.new node_bits.new) in
        h ≡ passed g locks.now nodes }
{
    for v in 0..nodes {
        pass_node(inputs, nodes, node_table, node_bits, locks, scratch, v);
    }
}
