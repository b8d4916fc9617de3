// One call of a list, and all of them.
ghost use Rattle.std.specs.Prelude.{◌≡◌, ◌++◌, ◌*◌, ◌/◌, ◌≤◌, length, get_or, take, drop};
ghost use Rattle.graph.specs.Answer.{own_of, count_answer};
ghost use Rattle.graph.specs.Literals.{graph_in};
ghost use Rattle.moves.specs.Call.{saving_answer, gain_answer};
ghost use Rattle.settling.specs.Settle.{settled_answer};
ghost use Rattle.hidden.specs.Call.{majority_answer, found_answer, nodes_after_answer};
ghost use Rattle.promises.specs.Demand.{many_at, majority_at, finding, resistive_at, with_locks, run};
ghost use Rattle.replay.specs.Replay.{lent, part, three_at, moving_of, call_of, decode, value_of, answers_of};
ghost use Rattle.replay.specs.Kind.{word_of};
ghost use Rattle.replay.specs.Inner.{Answers, Tells};

use crate::kind::Kind;
use graph::Refusal;
use graph::table::Table;
use hidden::Majority;
use moves::Saving;
use settling::Settled;

// What a call of the list answers, and how many nodes it leaves. A call that may rewire has what it answers in `own`.
#[derive(Clone, Copy)]
pub struct CallAnswer {
    pub number: u32,
    pub own: i64,
    pub others: i64,
    pub nodes: u32,
}

pub fn saving_answer(answer: Result<Saving, Refusal>, nodes: u32) -> CallAnswer
    ensures { Answers own_of (saving_answer answer) nodes result }
{
    let number = answers::told::refusal_number(&answer);
    let saving = answers::told::saving_told(answer, [0; 2]);
    CallAnswer {
        number,
        own: saving[0],
        others: saving[1],
        nodes,
    }
}

pub fn settled_answer(answer: Result<Settled, Refusal>, nodes: u32) -> CallAnswer
    ensures { Answers own_of (settled_answer answer) nodes result }
{
    let saving = answer.map(|settled| Saving {
        own: settled.own,
        others: settled.others,
    });
    saving_answer(saving, nodes)
}

// A saving told in one number.
pub fn gain_answer(answer: Result<i64, Refusal>, nodes: u32) -> CallAnswer
    ensures { Answers own_of (gain_answer answer) nodes result }
{
    let saving = answer.map(|own| Saving { own, others: 0 });
    saving_answer(saving, nodes)
}

// A value told where a saving is.
fn value_answer(answer: Result<u32, Refusal>, nodes: u32) -> CallAnswer
    ensures { Answers value_of (count_answer answer) nodes result }
{
    let saving = answer.map(|value| Saving {
        own: i64::from(value),
        others: 0,
    });
    saving_answer(saving, nodes)
}

// What a majority call answers: 0, 1 or 2.
pub fn majority_answer(answer: Result<Majority, Refusal>, nodes: u32) -> CallAnswer
    ensures { Answers value_of (majority_answer answer) nodes result }
{
    value_answer(answer.map(|majority| majority as u32), nodes)
}

// What the finder answers: the new number of nodes, which it leaves.
pub fn found_answer(answer: Result<u32, Refusal>, nodes: u32) -> CallAnswer
    ensures { Answers value_of (found_answer answer) (nodes_after_answer nodes (found_answer answer)) result }
{
    value_answer(answer, answer.unwrap_or(nodes))
}

// So many entries of a slice from a place on, as far as it has them.
fn part<T>(list: &[T], start: u32, count: u32) -> &[T]
    ensures { result.now ≡ take count (drop start list.now) }
{
    let rest = &list[(start as usize).min(list.len())..];
    &rest[..(count as usize).min(rest.len())]
}

// Many moves: `count` entries of the lent nodes and moves, from `start` on.
pub fn part_call(
    inputs: u32,
    nodes: u32,
    outputs: u32,
    node_table: &[u32],
    node_bits: &mut [u64],
    output_table: &[u32],
    output_bits: &mut [u64],
    locks: &[u8],
    list: &[u32],
    bytes: &[u8],
    start: u32,
    count: u32,
) -> CallAnswer
    ensures { let g = graph_in inputs nodes outputs node_table.now node_bits.old output_table.now output_bits.old in
        let k = graph_in inputs nodes outputs node_table.now node_bits.new output_table.now output_bits.new in
        Tells (with_locks g locks.now) (many_at (part start count list.now) (part start count bytes.now)) (with_locks k locks.now) result }
{
    gain_answer(
        many::many(
            inputs,
            nodes,
            outputs,
            node_table,
            node_bits,
            output_table,
            output_bits,
            locks,
            part(list, start, count),
            part(bytes, start, count),
        ),
        nodes,
    )
}

// A call that makes moves.
pub fn moving_call(
    inputs: u32,
    nodes: u32,
    outputs: u32,
    node_table: &[u32],
    node_bits: &mut [u64],
    output_table: &[u32],
    output_bits: &mut [u64],
    locks: &[u8],
    list: &[u32],
    bytes: &[u8],
    kind: Kind,
    node: u32,
    word: u32,
    scratch: &mut [u32],
) -> CallAnswer
    ensures { let g = graph_in inputs nodes outputs node_table.now node_bits.old output_table.now output_bits.old in
        let k = graph_in inputs nodes outputs node_table.now node_bits.new output_table.now output_bits.new in
        Tells (with_locks g locks.now) (moving_of (lent scratch.old list.now bytes.now) (word_of kind) node word) (with_locks k locks.now) result }
{
    match kind {
        Kind::Node => saving_answer(
            node_call::node_call(
                inputs,
                nodes,
                outputs,
                node_table,
                node_bits,
                output_table,
                output_bits,
                locks,
                node,
            ),
            nodes,
        ),
        Kind::Pair => saving_answer(
            node_call::pair_call(
                inputs,
                nodes,
                outputs,
                node_table,
                node_bits,
                output_table,
                output_bits,
                locks,
                node,
                word,
            ),
            nodes,
        ),
        Kind::Tree => saving_answer(
            tree_call::tree_call(
                inputs,
                nodes,
                outputs,
                node_table,
                node_bits,
                output_table,
                output_bits,
                locks,
                node,
                scratch,
            ),
            nodes,
        ),
        Kind::Settling => settled_answer(
            settling::settle(
                inputs,
                nodes,
                outputs,
                node_table,
                node_bits,
                output_table,
                output_bits,
                locks,
                scratch,
            ),
            nodes,
        ),
        _ => part_call(
            inputs,
            nodes,
            outputs,
            node_table,
            node_bits,
            output_table,
            output_bits,
            locks,
            list,
            bytes,
            node,
            word,
        ),
    }
}

// The entry at a place, 0 past the end.
pub fn entry_at(list: &[u32], place: usize) -> u32
    ensures { result ≡ get_or list.now place 0 }
{
    list.get(place).copied().unwrap_or(0)
}

// A majority call of the three entries of `list` from `start` on.
pub fn three_call(
    inputs: u32,
    nodes: u32,
    outputs: u32,
    node_table: &mut [u32],
    node_bits: &mut [u64],
    output_table: &[u32],
    output_bits: &[u64],
    locks: &[u8],
    list: &[u32],
    node: u32,
    start: u32,
    scratch: &mut [u32],
) -> CallAnswer
    ensures { let g = graph_in inputs nodes outputs node_table.old node_bits.old output_table.now output_bits.now in
        let k = graph_in inputs nodes outputs node_table.new node_bits.new output_table.now output_bits.now in
        let c = majority_at node (three_at start list.now) scratch.old in
        Tells (with_locks g locks.now) c (with_locks k locks.now) result }
{
    let at = start as usize;
    let one = entry_at(list, at);
    let two = entry_at(list, at + 1);
    let three = entry_at(list, at + 2);
    majority_answer(
        majority_call::majority_call(
            inputs,
            nodes,
            outputs,
            node_table,
            node_bits,
            &Table {
                indices: output_table,
                bits: output_bits,
            },
            locks,
            node,
            one,
            two,
            three,
            scratch,
        ),
        nodes,
    )
}

// The finder.
pub fn find_call(
    inputs: u32,
    nodes: u32,
    outputs: u32,
    node_table: &mut [u32],
    node_bits: &mut [u64],
    output_table: &mut [u32],
    output_bits: &mut [u64],
    locks: &mut [u8],
    scratch: &mut [u32],
) -> CallAnswer
    ensures { let g = graph_in inputs nodes outputs node_table.old node_bits.old output_table.old output_bits.old in
        let k = graph_in inputs result.nodes outputs node_table.new node_bits.new output_table.new output_bits.new in
        Tells (with_locks g locks.old) (finding scratch.old) (with_locks k locks.new) result }
{
    found_answer(
        finder::find(
            inputs,
            nodes,
            outputs,
            node_table,
            node_bits,
            output_table,
            output_bits,
            locks,
            scratch,
        ),
        nodes,
    )
}

// The call on a tree for resistive memory.
pub fn memory_call(
    inputs: u32,
    nodes: u32,
    outputs: u32,
    node_table: &[u32],
    node_bits: &mut [u64],
    output_table: &[u32],
    output_bits: &mut [u64],
    locks: &[u8],
    root: u32,
    scratch: &mut [u32],
) -> CallAnswer
    ensures { let g = graph_in inputs nodes outputs node_table.now node_bits.old output_table.now output_bits.old in
        let k = graph_in inputs nodes outputs node_table.now node_bits.new output_table.now output_bits.new in
        Tells (with_locks g locks.now) (resistive_at root scratch.old) (with_locks k locks.now) result }
{
    let answer = resistive_call::resistive_call(
        inputs,
        nodes,
        outputs,
        node_table,
        node_bits,
        output_table,
        output_bits,
        locks,
        root,
        scratch,
    );
    saving_answer(answer, nodes)
}

// The call that a kind and two words say.
pub fn one_call(
    inputs: u32,
    nodes: u32,
    outputs: u32,
    node_table: &mut [u32],
    node_bits: &mut [u64],
    output_table: &mut [u32],
    output_bits: &mut [u64],
    locks: &mut [u8],
    list: &[u32],
    bytes: &[u8],
    kind: Kind,
    node: u32,
    word: u32,
    scratch: &mut [u32],
) -> CallAnswer
    ensures { let g = graph_in inputs nodes outputs node_table.old node_bits.old output_table.old output_bits.old in
        let k = graph_in inputs result.nodes outputs node_table.new node_bits.new output_table.new output_bits.new in
        let c = call_of (lent scratch.old list.now bytes.now) (word_of kind) node word in
        Tells (with_locks g locks.old) c (with_locks k locks.new) result }
{
    match kind {
        Kind::Majority => three_call(
            inputs,
            nodes,
            outputs,
            node_table,
            node_bits,
            output_table,
            output_bits,
            locks,
            list,
            node,
            word,
            scratch,
        ),
        Kind::Finder => find_call(
            inputs,
            nodes,
            outputs,
            node_table,
            node_bits,
            output_table,
            output_bits,
            locks,
            scratch,
        ),
        Kind::Resistive => memory_call(
            inputs,
            nodes,
            outputs,
            node_table,
            node_bits,
            output_table,
            output_bits,
            locks,
            node,
            scratch,
        ),
        _ => moving_call(
            inputs,
            nodes,
            outputs,
            node_table,
            node_bits,
            output_table,
            output_bits,
            locks,
            list,
            bytes,
            kind,
            node,
            word,
            scratch,
        ),
    }
}

// Every call of the list, on what the one before left; the answers go in front. Answers how many nodes are left. A word that is no kind's
// makes the last kind's call, as `call_of` has it.
pub fn make_calls(
    inputs: u32,
    nodes: u32,
    outputs: u32,
    node_table: &mut [u32],
    node_bits: &mut [u64],
    output_table: &mut [u32],
    output_bits: &mut [u64],
    locks: &mut [u8],
    list: &[u32],
    bytes: &[u8],
    calls: &[u32],
    scratch: &mut [u32],
    answers: &mut [i64],
) -> u32
    requires { (3 * (length calls.now / 3) ≤ length answers.old) × (3 * (length calls.now / 3) ≤ 1152921504606846976) }
    ensures graph { let g = graph_in inputs nodes outputs node_table.old node_bits.old output_table.old output_bits.old in
        let k = graph_in inputs result outputs node_table.new node_bits.new output_table.new output_bits.new in
        let cs = decode (lent scratch.old list.now bytes.now) calls.now in
        with_locks k locks.new ≡ run (with_locks g locks.old) cs }
    ensures answers { let g = graph_in inputs nodes outputs node_table.old node_bits.old output_table.old output_bits.old in
        let cs = decode (lent scratch.old list.now bytes.now) calls.now in
        answers.new ≡ answers_of (with_locks g locks.old) cs ++ drop (3 * (length calls.now / 3)) answers.old }
{
    let mut s = calls;
    // Counted, which is no plainer otherwise: the calls and their answers are two slices, each walked by three, and the nodes left are a number.
    let mut at = 0;
    let mut left = nodes;
    while let [kind, node, word, rest @ ..] = s {
        let answer = one_call(
            inputs,
            left,
            outputs,
            node_table,
            node_bits,
            output_table,
            output_bits,
            locks,
            list,
            bytes,
            Kind::try_from(*kind).unwrap_or(Kind::Resistive),
            *node,
            *word,
            scratch,
        );
        let number = answer.number as i64;
        let own = answer.own;
        let others = answer.others;
        answers[at] = number;
        answers[at + 1] = own;
        answers[at + 2] = others;
        left = answer.nodes;
        s = rest;
        at += 3;
    }
    left
}
