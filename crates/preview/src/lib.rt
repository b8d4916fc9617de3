#![tactic(auto)]

ghost use Rattle.std.specs.Prelude.{◌≡◌, length};
ghost use Rattle.graph.specs.Answer.{ScratchKept};
ghost use Rattle.moves.specs.Call.{saving_answer};
ghost use Rattle.preview.specs.Preview.{preview_answer, preview_bytes};
ghost use Rattle.graph.specs.Tables.{lent_graph};

mod deciding;
mod faults;
mod telling;

use graph::{Lent, Refusal};
use moves::Saving;

// The tree call seen first: its saving, and each node's move in its byte. The tables are only read.
pub fn preview(
    lent: &Lent,
    root: u32,
    bytes: &mut [u8],
    scratch: &mut [u32],
) -> Result<Saving, Refusal>
    ensures answer { let g = lent_graph lent.now in
        saving_answer result ≡ preview_answer g lent.now.locks.now (length bytes.old) (length scratch.old) root }
    ensures bytes { let g = lent_graph lent.now in
        bytes.new ≡ preview_bytes g lent.now.locks.now bytes.old (length scratch.old) root }
    ensures scratch { ScratchKept (saving_answer result) scratch.old scratch.new }
{
    faults::check_preview(lent, root, bytes.len(), scratch.len())?;
    Ok(deciding::preview_tree(lent, root, bytes, scratch))
}
