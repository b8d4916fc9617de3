ghost use Rattle.std.specs.Prelude.{◌≡◌, ◌++◌, ℕ, ◌+◌, ◌≤◌, ◌<◌, length, drop, get_or};
ghost use Rattle.graph.specs.Finite.{tab};
ghost use Rattle.graph.specs.Graph.{index};
ghost use Rattle.graph.specs.Admission.{Admitted};
ghost use Rattle.graph.specs.Literals.{held};
ghost use Rattle.evaluation.specs.Inner.{by_index, output_word_from};
ghost use Rattle.evaluation.specs.Evaluation.{output_word};
ghost use Rattle.graph.specs.Tables.{lent_graph, lent_table};

use crate::values;
use crate::values::Apart;
use graph::Lent;

// Fills the outputs' words into the front of `results`, from the words of the inputs and of all nodes. By place: only crate graph reads a table's slice.
fn fill_results(lent: &Lent, words: &Apart, results: &mut [u64])
    requires { let l = lent_table lent.now.output_table in
        let w = words.now in
        let end = w.inputs + 1 + length w.of_nodes.now in
        (w.inputs ≤ length w.of_inputs.now) × (end ≤ 2147483647) × (lent.now.outputs ≤ held l)
        × (lent.now.outputs ≤ length results.old) × ((o : ℕ) → o < lent.now.outputs → index (get_or l o 0) < end) }
    ensures { let l = lent_table lent.now.output_table in
        let w = words.now in
        let ws = by_index w.inputs w.of_inputs.now w.of_nodes.now in
        results.new ≡ tab lent.now.outputs (output_word_from ws l) ++ drop lent.now.outputs results.old }
{
    for o in 0..lent.outputs as usize {
        let b = lent.output_table.odd_at(o);
        results[o] = values::literal_word(words, &lent.output_table, o, b);
    }
}

// Evaluates an admitted graph.
pub fn evaluate_words<'x>(
    lent: &Lent,
    input_words: &'x [u64],
    scratch: &'x mut [u64],
    results: &mut [u64],
)
    requires { let g = lent_graph lent.now in
        Admitted g × (lent.now.inputs ≤ length input_words.now) × (lent.now.nodes ≤ length scratch.old) × (lent.now.outputs ≤ length results.old) }
    ensures { let g = lent_graph lent.now in
        results.new ≡ tab lent.now.outputs (output_word g input_words.now) ++ drop lent.now.outputs results.old }
{
    values::fill_nodes(lent, input_words, scratch);
    let words = Apart {
        inputs: lent.inputs,
        of_inputs: input_words,
        of_nodes: &scratch[..lent.nodes as usize],
    };
    fill_results(lent, &words, results);
}
