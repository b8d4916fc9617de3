// The wanted outputs: how many nodes they ask for, and the places that they leave. Loops go by place, since only crate graph reads a table's slice.
ghost use Rattle.std.specs.Prelude.{◌≡◌, List, ℕ, ◌+◌, ◌*◌, ◌/◌, ◌≤◌, ◌<◌, min, length, get_or};
ghost use Rattle.graph.specs.Finite.{first_of};
ghost use Rattle.graph.specs.Graph.{index};
ghost use Rattle.graph.specs.Literals.{bit};
ghost use Rattle.evaluation.specs.Inner.{by_index, literal_word};
ghost use Rattle.assignment.specs.Inner.{fits, clean, want_in, lacks, Reached, Top};
ghost use Rattle.graph.specs.Tables.{lent_graph, lent_table};

use crate::Question;
use crate::words::narrowed;
use evaluation::values::{Apart, Words, turned};

// How many nodes' words the literal x asks for, where those of the first `known` are asked for already.
fn reached(inputs: u32, known: usize, x: u32, want: u8) -> usize
    requires { (inputs ≤ 16) × (known ≤ 100000) }
    ensures { Reached inputs known x want result }
{
    if want == 2 {
        return known;
    }
    let end = inputs as usize + known;
    let index = (x / 2) as usize;
    if index <= end {
        return known;
    }
    index - inputs as usize
}

// How many nodes' words the wanted outputs ask for.
pub fn top_of(question: &Question) -> usize
    ensures { let g = lent_graph question.now.lent in
        Top g question.now.wanted.now question.now.lent.outputs result }
{
    let mut top: usize = 0;
    for o in 0..question.lent.outputs as usize {
        let x = question.lent.output_table.edge_at(o);
        top = reached(question.lent.inputs, top, x, question.wanted[o]);
    }
    top
}

// `want` where x names an index from `low` on and below `high`, and else 2, for either.
fn want_in(x: u32, want: u8, low: usize, high: usize) -> u8
    ensures { result ≡ want_in x want low high }
{
    let index = (x / 2) as usize;
    if index < low {
        return 2;
    }
    if index < high {
        return want;
    }
    2
}

// The places that are left where an output is as wanted; one that may be either is not looked at.
fn left_by(words: &Apart, left: u64, x: u32, want: u8) -> u64
    requires { let w = words.now in
        (want ≤ 2) × (w.inputs ≤ length w.of_inputs.now) × ((want ≡ 2 → ⊥) → index x < w.inputs + 1 + length w.of_nodes.now) }
    ensures { let ws = by_index words.now.inputs words.now.of_inputs.now words.now.of_nodes.now in
        ((j : ℕ) → j < 64 → bit j result ≡ min (bit j left) (fits (bit j (literal_word ws x)) want)) }
{
    if want == 2 {
        return left;
    }
    narrowed(left, turned(words.word(x / 2), x % 2), want)
}

// The places that are left by the outputs that name an index from `low` on, of which the words are there.
pub fn left_from(question: &Question, words: &Apart, low: usize, left: u64) -> u64
    requires { let w = words.now in
        (w.inputs ≤ 16) × (w.inputs ≤ length w.of_inputs.now) × (length w.of_nodes.now ≤ 100000) }
    ensures { let l = lent_table question.now.lent.output_table in
        let w = words.now in
        let ws = by_index w.inputs w.of_inputs.now w.of_nodes.now in
        let high = w.inputs + 1 + length w.of_nodes.now in
        ((j : ℕ) → j < 64 → bit j result ≡ min (bit j left) (clean (first_of question.now.lent.outputs (lacks ws l question.now.wanted.now low high j)))) }
{
    let high = words.inputs as usize + 1 + words.of_nodes.len();
    let mut rest = left;
    for o in 0..question.lent.outputs as usize {
        let x = question.lent.output_table.edge_at(o);
        let want = want_in(x, question.wanted[o], low, high);
        rest = left_by(words, rest, x, want);
    }
    rest
}
