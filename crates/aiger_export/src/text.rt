// The parts of the text, put into a buffer one after another: each function answers the place after what it has put.
ghost use Rattle.std.specs.Prelude.{◌≡◌, ◌+◌, ◌≤◌, ◌<◌, length};
ghost use Rattle.std.proofs.lemmas.List.Edits.{sets};
ghost use Rattle.graph.specs.Admission.{Admitted};
ghost use Rattle.tagged_file.specs.Write.{in_order};
ghost use Rattle.aiger.specs.Export.{export_text};
ghost use Rattle.aiger_export.specs.Inner.{Filled, input_line, output_line, node_lines};
ghost use Rattle.graph.specs.Tables.{lent_graph};

use crate::{gates, lines};
use graph::Circuit;
use graph::literal::MARK;

pub fn put_inputs(buffer: &mut [u8], start: usize, inputs: u32) -> usize
    requires { (inputs ≤ 4096) × (start + length (in_order input_line 0 inputs) ≤ length buffer.old) }
    ensures { (result ≡ start + length (in_order input_line 0 inputs)) × (buffer.new ≡ sets buffer.old start (in_order input_line 0 inputs)) }
{
    let mut at = start;
    for k in 0..inputs {
        at = lines::put_ended(buffer, at, 2 * (1 + k), b'\n');
    }
    at
}

pub fn put_output(
    circuit: &Circuit,
    scratch: &[u32],
    buffer: &mut [u8],
    at: usize,
    j: usize,
) -> usize
    requires { let g = lent_graph circuit.now.lent in
        (circuit.now.lent.nodes ≤ length scratch.now) × Filled g scratch.now × (j < circuit.now.lent.outputs) × (at + length (output_line g j) ≤ length buffer.old) }
    ensures { let g = lent_graph circuit.now.lent in
        (result ≡ at + length (output_line g j)) × (buffer.new ≡ sets buffer.old at (output_line g j)) }
{
    let x = circuit.lent.output_table.edge_at(j);
    let y = gates::literal(circuit, scratch, x);
    lines::put_ended(buffer, at, y, b'\n')
}

pub fn put_outputs(circuit: &Circuit, scratch: &[u32], buffer: &mut [u8], start: usize) -> usize
    requires { let g = lent_graph circuit.now.lent in
        (circuit.now.lent.nodes ≤ length scratch.now) × Filled g scratch.now × (start + length (in_order (output_line g) 0 circuit.now.lent.outputs) ≤ length buffer.old) }
    ensures { let g = lent_graph circuit.now.lent in
        (result ≡ start + length (in_order (output_line g) 0 circuit.now.lent.outputs)) × (buffer.new ≡ sets buffer.old start (in_order (output_line g) 0 circuit.now.lent.outputs)) }
{
    let mut at = start;
    for j in 0..circuit.lent.outputs as usize {
        at = put_output(circuit, scratch, buffer, at, j);
    }
    at
}

// The lines of node v: its last AND is in scratch.
pub fn put_node(circuit: &Circuit, scratch: &[u32], buffer: &mut [u8], at: usize, v: usize) -> usize
    requires { let g = lent_graph circuit.now.lent in
        (circuit.now.lent.nodes ≤ length scratch.now) × Filled g scratch.now × (v < circuit.now.lent.nodes) × (at + length (node_lines g v) ≤ length buffer.old) }
    ensures { let g = lent_graph circuit.now.lent in
        (result ≡ at + length (node_lines g v)) × (buffer.new ≡ sets buffer.old at (node_lines g v)) }
{
    let last = scratch[v] / 2;
    let three = circuit.lent.node_table.three_at(v);
    let x = circuit.lent.node_table.word_of(v, 0, three);
    let p = gates::literal(circuit, scratch, x);
    let y = circuit.lent.node_table.word_of(v, 1, three);
    let q = gates::literal(circuit, scratch, y);
    let z = circuit.lent.node_table.word_of(v, 2, three);
    if z == MARK {
        return lines::put_xor(buffer, at, last - 2, p, q);
    }
    let r = gates::literal(circuit, scratch, z);
    lines::put_majority(buffer, at, last - 3, p, q, r)
}

pub fn put_nodes(circuit: &Circuit, scratch: &[u32], buffer: &mut [u8], start: usize) -> usize
    requires { let g = lent_graph circuit.now.lent in
        (circuit.now.lent.nodes ≤ length scratch.now) × Filled g scratch.now × (start + length (in_order (node_lines g) 0 circuit.now.lent.nodes) ≤ length buffer.old) }
    ensures { let g = lent_graph circuit.now.lent in
        (result ≡ start + length (in_order (node_lines g) 0 circuit.now.lent.nodes)) × (buffer.new ≡ sets buffer.old start (in_order (node_lines g) 0 circuit.now.lent.nodes)) }
{
    let mut at = start;
    for v in 0..circuit.lent.nodes as usize {
        at = put_node(circuit, scratch, buffer, at, v);
    }
    at
}

// The whole text, from the front; answers its length.
pub fn put_text(circuit: &Circuit, scratch: &[u32], buffer: &mut [u8]) -> usize
    requires { let g = lent_graph circuit.now.lent in
        (circuit.now.lent.nodes ≤ length scratch.now) × Filled g scratch.now × (length (export_text g) ≤ length buffer.old) }
    ensures { let g = lent_graph circuit.now.lent in
        (result ≡ length (export_text g)) × (buffer.new ≡ sets buffer.old 0 (export_text g)) }
{
    let count = gates::gate_count(circuit);
    let first = lines::put_header(buffer, circuit.lent.inputs, count, circuit.lent.outputs);
    let second = put_inputs(buffer, first, circuit.lent.inputs);
    let third = put_outputs(circuit, scratch, buffer, second);
    put_nodes(circuit, scratch, buffer, third)
}
