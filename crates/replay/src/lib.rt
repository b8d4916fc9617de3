// A replay: loads a file and makes a list of calls on the loaded graph and its locks.
#![tactic(auto)]

ghost use Rattle.std.specs.Prelude.{◌≡◌, length};
ghost use Rattle.graph.specs.Answer.{locked_outcome, ScratchKept};
ghost use Rattle.graph.specs.Literals.{before, literals};
ghost use Rattle.tagged_file.specs.Load.{load_call};
ghost use Rattle.promises.specs.Demand.{with_locks, left};
ghost use Rattle.replay.specs.declared.ReplayFault.TheVariants.{NotCalls, Refused};
ghost use Rattle.replay.specs.Replay.{lent, decode, replay_call, answers_after, replayed_answer, replayed_graph, DemandMet};

mod calls;
mod faults;
mod kind;
pub mod told;

use graph::Refusal;
use tagged_file::Sizes;

// Why words are no list of calls.
#[derive(Clone, Copy)]
pub enum CallsFault {
    LeftOver,
    UnknownKind,
    PartOutside,
}

// Why a replay is not made.
#[derive(Clone, Copy)]
pub enum ReplayFault {
    NotCalls(CallsFault),
    Refused(Refusal),
}

impl From<CallsFault> for ReplayFault {
    ghost from_gives = { λ f r. r ≡ NotCalls f };

    fn from(fault: CallsFault) -> ReplayFault {
        ReplayFault::NotCalls(fault)
    }
}

impl From<Refusal> for ReplayFault {
    ghost from_gives = { λ f r. r ≡ Refused f };

    fn from(refusal: Refusal) -> ReplayFault {
        ReplayFault::Refused(refusal)
    }
}

// Each call is three words of `calls`: kind (0 node, 1 pair, 2 tree, 3 settling, 4 many moves, 5 majority, 6 finder, 7 a tree for
// resistive memory), node and word. Many moves have in their place where their part of `list` and `bytes` begins and how many entries it
// has, and a majority call for a word where its three indices begin in `list`. Its answer is three words of `answers`: the number, and both
// numbers of its saving; of a majority call and the finder what they answer, and 0.
pub fn replay(
    file: &[u8],
    calls: &[u32],
    node_table: &mut [u32],
    node_bits: &mut [u64],
    output_table: &mut [u32],
    output_bits: &mut [u64],
    locks: &mut [u8],
    list: &[u32],
    bytes: &[u8],
    scratch: &mut [u32],
    answers: &mut [i64],
) -> Result<Sizes, ReplayFault>
    ensures call { let ns = literals node_table.old node_bits.old in
        let os = literals output_table.old output_bits.old in
        let l = lent scratch.old (before list) (before bytes) in
        locked_outcome (replayed_answer result) (replayed_graph result (literals node_table.new node_bits.new) (literals output_table.new output_bits.new)) locks.new ≡ replay_call (before file) (before calls) l ns os locks.old (length answers.old) }
    ensures answers { let ns = literals node_table.old node_bits.old in
        let os = literals output_table.old output_bits.old in
        let l = lent scratch.old (before list) (before bytes) in
        answers.new ≡ answers_after (before file) (before calls) l ns os locks.old answers.old }
    ensures scratch { ScratchKept (replayed_answer result) scratch.old scratch.new }
    ensures demand { let ns = literals node_table.old node_bits.old in
        let os = literals output_table.old output_bits.old in
        let l = lent scratch.old (before list) (before bytes) in
        let cs = decode l (before calls) in
        ((replayed_answer result).number ≡ 0 → DemandMet (left (load_call (before file) ns os locks.old)) cs (with_locks (replayed_graph result (literals node_table.new node_bits.new) (literals output_table.new output_bits.new)) locks.new) answers.new) }
{
    if calls.len() % 3 != 0 {
        return Err(ReplayFault::NotCalls(CallsFault::LeftOver));
    }
    faults::check_words(list.len(), calls)?;
    if answers.len().min(1152921504606846976) / 3 < calls.len() / 3 {
        return Err(ReplayFault::Refused(Refusal::ShortSlice));
    }
    let sizes = tagged_file::load(
        file,
        node_table,
        node_bits,
        output_table,
        output_bits,
        locks,
    )?;
    let nodes = calls::make_calls(
        sizes.inputs,
        sizes.nodes,
        sizes.outputs,
        node_table,
        node_bits,
        output_table,
        output_bits,
        locks,
        list,
        bytes,
        calls,
        scratch,
        answers,
    );
    Ok(Sizes { nodes, ..sizes })
}
