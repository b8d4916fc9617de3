#![tactic(auto)]

ghost use Rattle.std.specs.Prelude.{◌≡◌, [], length};
ghost use Rattle.graph.specs.Answer.{accepted, unless, ScratchKept};
ghost use Rattle.graph.specs.Literals.{before};
ghost use Rattle.evaluation.specs.Evaluation.{evaluate_number, results_after, evaluated_answer};
ghost use Rattle.graph.specs.Tables.{lent_graph};

mod faults;
pub mod front;
mod results;
pub mod values;

use graph::{Lent, Refusal};

// Fills the first `outputs` words of `results`, each bit place an assignment of its own.
pub fn evaluate(
    lent: &Lent,
    input_words: &[u64],
    scratch: &mut [u64],
    results: &mut [u64],
) -> Result<(), Refusal>
    ensures answer { let g = lent_graph lent.now in
        let number = evaluate_number g lent.now.locks.now (length (before input_words)) (length scratch.old) (length results.old) in
        evaluated_answer result ≡ unless number (accepted []) }
    ensures results { let g = lent_graph lent.now in
        results.new ≡ results_after g lent.now.locks.now (before input_words) (length scratch.old) results.old }
    ensures scratch { ScratchKept (evaluated_answer result) scratch.old scratch.new }
{
    faults::check_evaluate(lent, input_words.len(), scratch.len(), results.len())?;
    results::evaluate_words(lent, input_words, scratch, results);
    Ok(())
}
