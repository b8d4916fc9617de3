// Past all refusals: the node's truth value, and what comes of it.
ghost use Rattle.std.specs.Prelude.{◌≡◌, ◌+◌, ◌*◌, ◌≤◌, ◌<◌, length};
ghost use Rattle.graph.specs.Admission.{Admitted};
ghost use Rattle.graph.specs.Answer.{outcome};
ghost use Rattle.graph.specs.Literals.{literals};
ghost use Rattle.evaluation.specs.Inner.{nodes_of};
ghost use Rattle.hidden.specs.Truth.{triple};
ghost use Rattle.hidden.specs.Call.{told_majority, majority_outcome};
ghost use Rattle.hidden.specs.Inner.{Rising};

use crate::{making, valuing};
use graph::table::Table;
use hidden::Majority;
use moves::words::wide;
use trees::fields::clear;

// Scratch is cleared, the node's truth value worked out, and the node made a majority where its class is one.
pub fn decide(
    inputs: u32,
    nodes: u32,
    node_table: &mut [u32],
    node_bits: &mut [u64],
    node: u32,
    one: u32,
    two: u32,
    three: u32,
    scratch: &mut [u32],
) -> Majority
    requires { let g = nodes_of inputs nodes (literals node_table.old node_bits.old) in
        Admitted g × (inputs < node) × (node < inputs + 1 + nodes) × Rising (triple one two three) node × (8 * nodes ≤ length scratch.old) }
    ensures { let g = nodes_of inputs nodes (literals node_table.old node_bits.old) in
        let h = nodes_of inputs nodes (literals node_table.new node_bits.new) in
        outcome (told_majority result) h ≡ majority_outcome g (triple one two three) node }
{
    clear(wide(nodes), scratch);
    let v = wide(node - inputs - 1);
    let byte = valuing::truth(
        inputs,
        nodes,
        &Table {
            indices: node_table,
            bits: node_bits,
        },
        scratch,
        one,
        two,
        three,
        v,
    );
    if byte == valuing::LEAK {
        return Majority::NotCovered;
    }
    if making::is_majority(byte) {
        let c = making::complements_of(byte);
        making::make(node_table, node_bits, v, one, two, three, c);
        return Majority::Made;
    }
    Majority::NotMajority
}
