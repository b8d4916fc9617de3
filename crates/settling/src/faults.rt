// What refuses a settling: what the admission check refuses, then short scratch.
ghost use Rattle.std.specs.Prelude.{◌≡◌};
ghost use Rattle.graph.specs.Answer.{refusal_number};
ghost use Rattle.rounds.specs.Settle.{settle_number};
ghost use Rattle.graph.specs.Tables.{lent_graph};

use graph::{Lent, Refusal};

pub fn check_settling(lent: &Lent, words: usize) -> Result<(), Refusal>
    ensures { refusal_number result ≡ settle_number (lent_graph lent.now) lent.now.locks.now words }
{
    graph::faults::check_admission(lent)?;
    if words < 8 * lent.nodes as usize {
        return Err(Refusal::ShortScratch);
    }
    Ok(())
}
