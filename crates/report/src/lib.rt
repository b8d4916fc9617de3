// The report: a file's bytes in, the text of the settled graph out.
#![tactic(auto)]

ghost use Rattle.std.specs.Prelude.{◌≡◌, length};
ghost use Rattle.graph.specs.Answer.{ScratchKept};
ghost use Rattle.graph.specs.Literals.{literals};
ghost use Rattle.tagged_file.specs.Load.{load_call};
ghost use Rattle.report.specs.Report.{reported_answer, report_outcome, report_call};

mod faults;
mod lines;
mod text;
mod whole;

use graph::table::room_of;

// Which lent slice has no room for every report that the tables could hold.
#[derive(Clone, Copy)]
pub enum RoomFault {
    Scratch,
    Buffer,
}

// Loads the file, settles its graph and puts the report into the buffer; a refused file's report is one line. The lengths
// decide first, so that a report that is begun is ended. Answers how many bytes the
// text has.
pub fn report(
    file: &[u8],
    node_table: &mut [u32],
    node_bits: &mut [u64],
    output_table: &mut [u32],
    output_bits: &mut [u64],
    locks: &mut [u8],
    scratch: &mut [u32],
    buffer: &mut [u8],
) -> Result<usize, RoomFault>
    ensures buffer_value { let ns = literals node_table.old node_bits.old in
        let os = literals output_table.old output_bits.old in
        report_outcome (reported_answer result) (literals node_table.new node_bits.new) (literals output_table.new output_bits.new) locks.new buffer.new ≡ report_call file.now ns os locks.old (length scratch.old) buffer.old }
    ensures scratch_kept { ScratchKept (reported_answer result) scratch.old scratch.new }
    ensures fact { let ns = literals node_table.old node_bits.old in
        let os = literals output_table.old output_bits.old in
        ScratchKept (load_call file.now ns os locks.old).answer scratch.old scratch.new }
{
    faults::check_room(
        room_of(node_table, node_bits),
        room_of(output_table, output_bits),
        scratch.len(),
        buffer.len(),
    )?;
    Ok(whole::put_report(
        file,
        node_table,
        node_bits,
        output_table,
        output_bits,
        locks,
        scratch,
        buffer,
    ))
}
