// Why an evaluation is refused, by the lengths of the input words, scratch and results too.
ghost use Rattle.std.specs.Prelude.{◌≡◌};
ghost use Rattle.graph.specs.Answer.{refusal_number};
ghost use Rattle.graph.specs.Finite.{if_less};
ghost use Rattle.graph.specs.Tables.{lent_graph};
ghost use Rattle.evaluation.specs.Evaluation.{evaluate_number};

use graph::faults::{check_content, check_tables};
use graph::{Lent, Refusal};

pub fn check_evaluate(
    lent: &Lent,
    words: usize,
    scratch: usize,
    results: usize,
) -> Result<(), Refusal>
    ensures { refusal_number result ≡ evaluate_number (lent_graph lent.now) lent.now.locks.now words scratch results }
{
    check_tables(lent)?;
    if words < lent.inputs as usize {
        return Err(Refusal::ShortSlice);
    }
    if results < lent.outputs as usize {
        return Err(Refusal::ShortSlice);
    }
    check_content(lent)?;
    check_scratch(lent.nodes, scratch)
}

fn check_scratch(nodes: u32, scratch: usize) -> Result<(), Refusal>
    ensures { refusal_number result ≡ if_less scratch nodes 8 0 }
{
    if scratch < nodes as usize {
        return Err(Refusal::ShortScratch);
    }
    Ok(())
}
