// The lines of a report, put into a buffer one after another. Every number has at most ten digits: so a node's line takes at
// most 54 bytes, an output's 15, and the first two lines 107.
ghost use Rattle.std.specs.Prelude.{◌≡◌, ◌++◌, ℕ, ◌+◌, ◌*◌, ◌≤◌, ◌<◌, length, get_or};
ghost use Rattle.std.proofs.lemmas.List.Edits.{sets};
ghost use Rattle.graph.specs.Admission.{Admitted};
ghost use Rattle.graph.specs.Answer.{number_of};
ghost use Rattle.graph.specs.Literals.{held};
ghost use Rattle.tagged_file.specs.Write.{in_order};
ghost use Rattle.report.specs.Report.{sizes_line, counts_line, node_line, output_line, node_line_at, output_line_at, settled_text, refused_text, line1};
ghost use Rattle.graph.specs.Tables.{lent_graph, lent_table};

use crate::text;
use graph::literal::MARK;
use graph::table::Table;
use graph::{Lent, Refusal};
use settling::Settled;

pub fn put_node(buffer: &mut [u8], at: usize, index: u32, x: u32, y: u32, z: u32) -> usize
    requires { at + 54 ≤ length buffer.old }
    ensures { (result ≡ at + length (node_line index x y z)) × (result ≤ at + 54) × (buffer.new ≡ sets buffer.old at (node_line index x y z)) }
{
    if z == MARK {
        return text::put_line3(buffer, at, b"node ", index, b" xor ", x, b" ", y);
    }
    text::put_line4(buffer, at, b"node ", index, b" maj ", x, b" ", y, b" ", z)
}

pub fn put_output(buffer: &mut [u8], at: usize, x: u32) -> usize
    requires { at + 15 ≤ length buffer.old }
    ensures { (result ≡ at + length (output_line x)) × (result ≤ at + 15) × (buffer.new ≡ sets buffer.old at (output_line x)) }
{
    text::put_line1(buffer, at, b"out ", x)
}

pub fn put_nodes(
    buffer: &mut [u8],
    start: usize,
    inputs: u32,
    nodes: u32,
    node_table: &Table,
) -> usize
    requires fact { let ns = lent_table node_table.now in
        (inputs ≤ 4096) × (nodes ≤ 100000) × (3 * nodes ≤ held ns) × ((j : ℕ) → j < 3 * nodes → get_or ns j 0 < 4294967296) }
    requires nodes_in_bounds { start + 54 * nodes ≤ length buffer.old }
    ensures { let ns = lent_table node_table.now in
        (result ≡ start + length (in_order (node_line_at inputs ns) 0 nodes)) × (result ≤ start + 54 * nodes) × (buffer.new ≡ sets buffer.old start (in_order (node_line_at inputs ns) 0 nodes)) }
{
    let mut at = start;
    for v in 0..nodes {
        let word = 3 * v as usize;
        at = put_node(
            buffer,
            at,
            inputs + 1 + v,
            node_table.word_at(word),
            node_table.word_at(word + 1),
            node_table.word_at(word + 2),
        );
    }
    at
}

pub fn put_outputs(buffer: &mut [u8], start: usize, outputs: u32, output_table: &Table) -> usize
    requires fact { let os = lent_table output_table.now in
        (outputs ≤ held os) × ((j : ℕ) → j < outputs → get_or os j 0 < 4294967296) }
    requires outputs_in_bounds { start + 15 * outputs ≤ length buffer.old }
    ensures { let os = lent_table output_table.now in
        (result ≡ start + length (in_order (output_line_at os) 0 outputs)) × (result ≤ start + 15 * outputs) × (buffer.new ≡ sets buffer.old start (in_order (output_line_at os) 0 outputs)) }
{
    let mut at = start;
    for j in 0..outputs {
        at = put_output(buffer, at, output_table.word_at(j as usize));
    }
    at
}

// The first two lines.
pub fn put_head(buffer: &mut [u8], lent: &Lent, settled: Settled) -> usize
    requires { 128 ≤ length buffer.old }
    ensures { let head = sizes_line lent.now.inputs lent.now.nodes lent.now.outputs ++ counts_line settled.before settled.after settled.rounds in
        (result ≡ length head) × (result ≤ 107) × (buffer.new ≡ sets buffer.old 0 head) }
{
    let end = text::put_line3(
        buffer,
        0,
        b"inputs ",
        lent.inputs,
        b" nodes ",
        lent.nodes,
        b" outputs ",
        lent.outputs,
    );
    text::put_line3(
        buffer,
        end,
        b"before ",
        settled.before,
        b" after ",
        settled.after,
        b" rounds ",
        settled.rounds,
    )
}

// The whole text of a settled graph.
pub fn put_settled(lent: &Lent, settled: Settled, buffer: &mut [u8]) -> usize
    requires admitted { Admitted (lent_graph lent.now) }
    requires output_bits_in_bounds { 128 + 18 * (held (lent_table lent.now.node_table) + held (lent_table lent.now.output_table)) ≤ length buffer.old }
    ensures { let whole = settled_text settled.rounds settled.before settled.after (lent_graph lent.now) in
        (result ≡ length whole) × (result ≤ length buffer.old) × (buffer.new ≡ sets buffer.old 0 whole) }
{
    let first = put_head(buffer, lent, settled);
    let middle = put_nodes(buffer, first, lent.inputs, lent.nodes, &lent.node_table);
    put_outputs(buffer, middle, lent.outputs, &lent.output_table)
}

// The one line of a refusal.
pub fn put_refused(buffer: &mut [u8], refusal: Refusal) -> usize
    requires { 128 ≤ length buffer.old }
    ensures { (result ≡ length (line1 refused_text (number_of refusal))) × (result ≤ length buffer.old) × (buffer.new ≡ sets buffer.old 0 (line1 refused_text (number_of refusal))) }
{
    text::put_line1(buffer, 0, b"refused ", u32::from(refusal))
}
