// A graph as ASCII AIGER text.
#![tactic(auto)]

ghost use Rattle.std.specs.Prelude.{◌≡◌};
ghost use Rattle.graph.specs.Answer.{ScratchKept};
ghost use Rattle.graph.specs.Literals.{before};
ghost use Rattle.tagged_file.specs.Write.{written_answer, write_outcome};
ghost use Rattle.aiger.specs.Export.{export_call};
ghost use Rattle.graph.specs.Tables.{lent_graph};

mod faults;
mod gates;
mod lines;
mod sizes;
mod steps;
mod text;

use graph::{Lent, Refusal};

// Returns the length of the text, which is known before scratch or the buffer is written: a refusal has changed nothing.
pub fn export(lent: &Lent, scratch: &mut [u32], buffer: &mut [u8]) -> Result<usize, Refusal>
    ensures outcome { let g = lent_graph lent.now in
        write_outcome (written_answer result) buffer.new ≡ export_call g lent.now.locks.now scratch.old buffer.old }
    ensures scratch { ScratchKept (written_answer result) scratch.old scratch.new }
{
    let circuit = faults::check_export(lent, scratch.len(), buffer.len())?;
    gates::fill_literals(&circuit, scratch);
    Ok(text::put_text(&circuit, scratch, buffer))
}
