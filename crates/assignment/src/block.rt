// A block: 64 assignments tried together.
ghost use Rattle.std.specs.Prelude.{◌≡◌, ℕ, ◌+◌, ◌≤◌, length, take};
ghost use Rattle.evaluation.specs.Inner.{nodes_of, NodeWords};
ghost use Rattle.assignment.specs.Inner.{Top, Left, Places};
ghost use Rattle.graph.specs.Tables.{lent_graph};

use crate::outputs::left_from;
use crate::{Question, words};
use evaluation::values::Apart;
use evaluation::{front, values};

// How many of the first `top` nodes have room in scratch behind the words of the constant and the inputs.
fn front_count(inputs: u32, nodes: u32, top: usize) -> usize
    ensures { (result ≤ top) × ((result ≡ 0 → ⊥) → inputs + 1 + result ≤ nodes) }
{
    if nodes <= inputs {
        return 0;
    }
    top.min((nodes - inputs - 1) as usize)
}

// What is left of `left` by the outputs that name one of the first `many` nodes. These are evaluated in eight stretches, each word at the place of its index;
// after each the outputs that name them are looked at, and where no place is left the block is done. Else their words end at the front. By `while`: both ends
// of a stretch are needed, and the last stretch is shorter.
fn front_places<'x>(
    question: &Question,
    many: usize,
    input_words: &'x [u64],
    left: u64,
    scratch: &'x mut [u64],
) -> u64
    requires { let g = lent_graph question.now.lent in
        (question.now.lent.nodes ≤ length scratch.old) × (question.now.lent.inputs ≤ length input_words.now) × (question.now.lent.inputs + 1 + many ≤ question.now.lent.nodes) × Left g question.now.wanted.now input_words.now (question.now.lent.inputs + 1 + 0) left }
    ensures { let g = lent_graph question.now.lent in
        let ws = input_words.now in
        Left g question.now.wanted.now ws (question.now.lent.inputs + 1 + many) result × ((result ≡ 0 → ⊥) → NodeWords (nodes_of question.now.lent.inputs question.now.lent.nodes g.nodes) ws (take many scratch.new) many) }
{
    front::fill_low(question.lent.inputs, input_words, scratch);
    let first = question.lent.inputs as usize + 1;
    let step = many / 8 + 1;
    let mut rest = left;
    let mut known: usize = 0;
    while known < many {
        if rest == 0 {
            return 0;
        }
        let next = many.min(known + step);
        front::front_nodes(&question.lent, known, next, scratch);
        let words = Apart {
            inputs: question.lent.inputs,
            of_inputs: input_words,
            of_nodes: &scratch[first..first + next],
        };
        rest = left_from(question, &words, first + known, rest);
        known = next;
    }
    front::shift(first, many, scratch);
    rest
}

// The places left by the outputs that name the constant, an input or one of the first `many` nodes.
fn first_places<'x>(
    question: &Question,
    many: usize,
    input_words: &'x [u64],
    scratch: &'x mut [u64],
) -> u64
    requires { let g = lent_graph question.now.lent in
        (question.now.lent.nodes ≤ length scratch.old) × (question.now.lent.inputs ≤ length input_words.now) × ((many ≡ 0 → ⊥) → question.now.lent.inputs + 1 + many ≤ question.now.lent.nodes) }
    ensures { let g = lent_graph question.now.lent in
        let ws = input_words.now in
        Left g question.now.wanted.now ws (question.now.lent.inputs + 1 + many) result × ((result ≡ 0 → ⊥) → NodeWords (nodes_of question.now.lent.inputs question.now.lent.nodes g.nodes) ws (take many scratch.new) many) }
{
    let words = Apart {
        inputs: question.lent.inputs,
        of_inputs: input_words,
        of_nodes: &scratch[..0],
    };
    let left = left_from(question, &words, 0, u64::MAX);
    if many == 0 {
        return left;
    }
    front_places(question, many, input_words, left, scratch)
}

// What is left of `left` by the outputs that name a node from `many` on, the words of the nodes before it being in the front of `scratch`.
fn last_places<'x>(
    question: &Question,
    many: usize,
    top: usize,
    input_words: &'x [u64],
    left: u64,
    scratch: &'x mut [u64],
) -> u64
    requires { let g = lent_graph question.now.lent in
        let ws = input_words.now in
        (question.now.lent.nodes ≤ length scratch.old) × (question.now.lent.inputs ≤ length ws) × (many ≤ top) × (top ≤ question.now.lent.nodes)
        × Left g question.now.wanted.now ws (question.now.lent.inputs + 1 + many) left × NodeWords (nodes_of question.now.lent.inputs question.now.lent.nodes g.nodes) ws (take many scratch.old) many }
    ensures { let g = lent_graph question.now.lent in
        Left g question.now.wanted.now input_words.now (question.now.lent.inputs + 1 + top) result }
{
    values::fill_rest(&question.lent, many, top, input_words, scratch);
    let low = question.lent.inputs as usize + 1 + many;
    let words = Apart {
        inputs: question.lent.inputs,
        of_inputs: input_words,
        of_nodes: &scratch[..top],
    };
    left_from(question, &words, low, left)
}

// The places of block b that give the pattern, `top` nodes being asked for.
pub fn block_places(question: &Question, top: usize, b: u32, scratch: &mut [u64]) -> u64
    requires { let g = lent_graph question.now.lent in
        (question.now.lent.nodes ≤ length scratch.old) × Top g question.now.wanted.now question.now.lent.outputs top }
    ensures { let g = lent_graph question.now.lent in
        Places g question.now.wanted.now b result }
{
    let input_words = words::input_words(b);
    let many = front_count(question.lent.inputs, question.lent.nodes, top);
    let left = first_places(question, many, &input_words, scratch);
    if left == 0 {
        return 0;
    }
    last_places(question, many, top, &input_words, left, scratch)
}
