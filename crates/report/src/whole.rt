// From the file's bytes to the text: load, settle, put.
ghost use Rattle.std.specs.Prelude.{◌≡◌, [], ◌∷◌, ◌+◌, ◌*◌, ◌≤◌, length};
ghost use Rattle.graph.specs.Answer.{accepted, ScratchKept};
ghost use Rattle.graph.specs.Literals.{graph_in, held, literals};
ghost use Rattle.tagged_file.specs.Load.{load_call};
ghost use Rattle.report.specs.Report.{report_outcome, printed, settled_with, settled_file};

use crate::lines;
use graph::Lent;
use graph::table::Table;

// Settles a loaded graph, and puts the text of that.
pub fn put_settling<'x>(
    inputs: u32,
    nodes: u32,
    outputs: u32,
    node_table: &'x [u32],
    node_bits: &'x mut [u64],
    output_table: &'x [u32],
    output_bits: &'x mut [u64],
    locks: &'x [u8],
    scratch: &mut [u32],
    buffer: &mut [u8],
) -> usize
    requires { 128 + 18 * (held (literals node_table.now node_bits.old) + held (literals output_table.now output_bits.old)) ≤ length buffer.old }
    ensures { let g = graph_in inputs nodes outputs node_table.now node_bits.old output_table.now output_bits.old in
        report_outcome (accepted (result ∷ [])) (literals node_table.now node_bits.new) (literals output_table.now output_bits.new) locks.now buffer.new ≡ printed (settled_with g locks.now (length scratch.old)) buffer.old }
{
    match settling::settle(
        inputs,
        nodes,
        outputs,
        node_table,
        node_bits,
        output_table,
        output_bits,
        locks,
        scratch,
    ) {
        Ok(settled) => {
            let lent = Lent {
                inputs,
                nodes,
                outputs,
                node_table: Table {
                    indices: node_table,
                    bits: node_bits,
                },
                output_table: Table {
                    indices: output_table,
                    bits: output_bits,
                },
                locks,
            };
            lines::put_settled(&lent, settled, buffer)
        }
        Err(refusal) => lines::put_refused(buffer, refusal),
    }
}

// Loads the file, and puts the text of its settling, or of why it is refused.
pub fn put_report(
    file: &[u8],
    node_table: &mut [u32],
    node_bits: &mut [u64],
    output_table: &mut [u32],
    output_bits: &mut [u64],
    locks: &mut [u8],
    scratch: &mut [u32],
    buffer: &mut [u8],
) -> usize
    requires { 128 + 18 * (held (literals node_table.old node_bits.old) + held (literals output_table.old output_bits.old)) ≤ length buffer.old }
    ensures buffer_after { let ns = literals node_table.old node_bits.old in
        let os = literals output_table.old output_bits.old in
        report_outcome (accepted (result ∷ [])) (literals node_table.new node_bits.new) (literals output_table.new output_bits.new) locks.new buffer.new ≡ printed (settled_file file.now ns os locks.old (length scratch.old)) buffer.old }
    ensures fact { let ns = literals node_table.old node_bits.old in
        let os = literals output_table.old output_bits.old in
        ScratchKept (load_call file.now ns os locks.old).answer scratch.old scratch.new }
{
    match tagged_file::load(
        file,
        node_table,
        node_bits,
        output_table,
        output_bits,
        locks,
    ) {
        Ok(sizes) => put_settling(
            sizes.inputs,
            sizes.nodes,
            sizes.outputs,
            node_table,
            node_bits,
            output_table,
            output_bits,
            locks,
            scratch,
            buffer,
        ),
        Err(refusal) => lines::put_refused(buffer, refusal),
    }
}
