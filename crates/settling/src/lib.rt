#![tactic(auto)]

ghost use Rattle.std.specs.Prelude.{◌≡◌, length};
ghost use Rattle.graph.specs.Answer.{outcome, ScratchKept};
ghost use Rattle.graph.specs.Literals.{graph_in};
ghost use Rattle.rounds.specs.Settle.{settle_call};
ghost use Rattle.settling.specs.Settle.{rounds_answer, settled_answer};
ghost use Rattle.settling.specs.Phase.{Fair, figured};

mod all;
mod faults;
mod phases;

use graph::table::Table;
use graph::{Lent, Refusal, signed};

// What settling answers: the rounds made, the last one included, with C before and after, and what their calls saved, over the words of
// the nodes that each names and over all other edges.
#[derive(Clone, Copy)]
pub struct Settled {
    pub rounds: u32,
    pub before: u32,
    pub after: u32,
    pub own: i64,
    pub others: i64,
}

// Both sums from the figures: together they are what C has fallen by.
fn settled_by(figures: all::Figures) -> Settled
    requires { Fair figures }
    ensures { rounds_answer result ≡ figured figures }
{
    let before = figures.before as u64 + figures.later;
    let after = figures.after as u64 + figures.odd;
    let own = signed::less(before, after);
    let others = signed::less(figures.odd, figures.later);
    Settled {
        rounds: figures.rounds,
        before: figures.before,
        after: figures.after,
        own,
        others,
    }
}

// Rounds of tree, node and pair calls, until one does not lower C.
pub fn settle<'x>(
    inputs: u32,
    nodes: u32,
    outputs: u32,
    node_table: &'x [u32],
    node_bits: &'x mut [u64],
    output_table: &'x [u32],
    output_bits: &'x mut [u64],
    locks: &'x [u8],
    scratch: &mut [u32],
) -> Result<Settled, Refusal>
    ensures call { let g = graph_in inputs nodes outputs node_table.now node_bits.old output_table.now output_bits.old in
        let k = graph_in inputs nodes outputs node_table.now node_bits.new output_table.now output_bits.new in
        outcome (settled_answer result) k ≡ settle_call g locks.now (length scratch.old) }
    ensures scratch { ScratchKept (settled_answer result) scratch.old scratch.new }
{
    let lent = Lent {
        inputs,
        nodes,
        outputs,
        node_table: Table {
            indices: node_table,
            bits: node_bits,
        },
        output_table: Table {
            indices: output_table,
            bits: output_bits,
        },
        locks,
    };
    faults::check_settling(&lent, scratch.len())?;
    let figures = all::settle_admitted(
        inputs,
        nodes,
        outputs,
        node_table,
        node_bits,
        output_table,
        output_bits,
        locks,
        scratch,
    );
    Ok(settled_by(figures))
}
