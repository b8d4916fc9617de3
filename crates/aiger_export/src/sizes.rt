// How many bytes the text has, before any of it is written: each part from the indices that its literals name.
ghost use Rattle.std.specs.Prelude.{◌≡◌, [], ◌+◌, ◌*◌, ◌≤◌, ◌<◌, length};
ghost use Rattle.graph.specs.Admission.{Admitted};
ghost use Rattle.tagged_file.specs.Write.{in_order};
ghost use Rattle.aiger.specs.Export.{gates_before, header, export_text};
ghost use Rattle.aiger_export.specs.Inner.{xor_wide, majority_wide, Fit, input_line, output_line, node_lines};
ghost use Rattle.graph.specs.Tables.{lent_graph};

use crate::gates;
use crate::steps::{Steps, graph_steps, text_wide, wide_by};
use graph::decimal::length_of;
use graph::{Circuit, table};

// The ANDs of an XOR, the first with index b, whose words are that wide.
pub fn xor_size(b: u32, x: usize, y: usize) -> usize
    requires { (b ≤ 500000) × (x ≤ 7) × (y ≤ 7) }
    ensures { (result ≡ xor_wide b x y) × (result ≤ 84) }
{
    2 * text_wide(b) + 2 * text_wide(b + 1) + text_wide(b + 2) + 2 * x + 2 * y
}

pub fn majority_size(b: u32, x: usize, y: usize, z: usize) -> usize
    requires { (b ≤ 500000) × (x ≤ 7) × (y ≤ 7) × (z ≤ 7) }
    ensures { (result ≡ majority_wide b x y z) × (result ≤ 84) }
{
    2 * text_wide(b)
        + 2 * text_wide(b + 1)
        + 2 * text_wide(b + 2)
        + text_wide(b + 3)
        + x
        + 2 * y
        + 2 * z
}

// The lines of node v, whose first AND has index b.
pub fn node_size(circuit: &Circuit, steps: Steps, b: u32, v: usize) -> usize
    requires { let g = lent_graph circuit.now.lent in
        Fit g steps × (v < circuit.now.lent.nodes) × (b ≡ circuit.now.lent.inputs + 1 + gates_before g v) }
    ensures { let g = lent_graph circuit.now.lent in
        (result ≡ length (node_lines g v)) × (result ≤ 84) }
{
    let at = 3 * v;
    let x = wide_by(steps, circuit.lent.node_table.index_at(at));
    let y = wide_by(steps, circuit.lent.node_table.index_at(at + 1));
    if circuit.lent.node_table.is_mark_at(at + 2) {
        return xor_size(b, x, y);
    }
    majority_size(
        b,
        x,
        y,
        wide_by(steps, circuit.lent.node_table.index_at(at + 2)),
    )
}

pub fn nodes_size(circuit: &Circuit, steps: Steps) -> usize
    requires { let g = lent_graph circuit.now.lent in
        Fit g steps }
    ensures { let g = lent_graph circuit.now.lent in
        (result ≡ length (in_order (node_lines g) 0 circuit.now.lent.nodes)) × (result ≤ 84 * circuit.now.lent.nodes) }
{
    let mut size: usize = 0;
    let mut b = circuit.lent.inputs + 1;
    for v in 0..circuit.lent.nodes as usize {
        size += node_size(circuit, steps, b, v);
        b += gates::gates_at(&circuit.lent.node_table, v);
    }
    size
}

pub fn inputs_size(inputs: u32) -> usize
    requires { inputs ≤ 4096 }
    ensures { (result ≡ length (in_order input_line 0 inputs)) × (result ≤ 84 * inputs) }
{
    let mut size: usize = 0;
    for k in 0..inputs {
        size += text_wide(k + 1);
    }
    size
}

pub fn outputs_size(circuit: &Circuit, steps: Steps) -> usize
    requires { let g = lent_graph circuit.now.lent in
        Fit g steps }
    ensures { let g = lent_graph circuit.now.lent in
        (result ≡ length (in_order (output_line g) 0 circuit.now.lent.outputs)) × (result ≤ 84 * circuit.now.lent.outputs) }
{
    let mut size: usize = 0;
    for j in 0..circuit.lent.outputs as usize {
        size += wide_by(steps, circuit.lent.output_table.index_at(j));
    }
    size
}

// Four numbers and a 0, a byte after each, and the first four bytes.
pub fn header_size(inputs: u32, count: u32, outputs: u32) -> usize
    requires { (inputs ≤ 4096) × (count ≤ 400000) }
    ensures { (result ≡ length (header inputs count outputs [])) × (result ≤ 50) }
{
    10 + length_of(inputs + count) + length_of(inputs) + length_of(outputs) + length_of(count)
}

// As many bytes as a text of so many inputs, nodes and outputs may have.
pub fn most_bytes(inputs: u32, nodes: u32, outputs: u32) -> usize
    ensures { result ≡ 30 + 5 * inputs + 84 * nodes + 7 * outputs }
{
    30 + 5 * inputs as usize + 84 * nodes as usize + 7 * outputs as usize
}

// The whole text.
pub fn text_size(circuit: &Circuit) -> usize
    ensures { let g = lent_graph circuit.now.lent in
        result ≡ length (export_text g) }
{
    let count = gates::gate_count(circuit);
    let steps = graph_steps(circuit);
    header_size(circuit.lent.inputs, count, circuit.lent.outputs)
        + inputs_size(circuit.lent.inputs)
        + outputs_size(circuit, steps)
        + nodes_size(circuit, steps)
}
