// Rounds, until one does not lower C.
ghost use Rattle.std.specs.Prelude.{◌≡◌, ◌*◌, ◌≤◌, length};
ghost use Rattle.graph.specs.Admission.{Admitted, LockBytes};
ghost use Rattle.graph.specs.Count.{C};
ghost use Rattle.graph.specs.Literals.{graph_in};
ghost use Rattle.state.specs.State.{stands, Ordered};
ghost use Rattle.rounds.specs.Inner.{phases};
ghost use Rattle.settling.specs.Phase.{Room, Phase, AllRounds, SettledTo};
ghost use Rattle.graph.specs.Tables.{lent_graph};

use crate::phases;
use crate::phases::Tally;
use graph::Lent;
use graph::table::Table;

// The rounds made, with C after them and the sums over all their calls.
#[derive(Clone, Copy)]
pub struct RoundsMade {
    pub rounds: u32,
    pub tally: Tally,
}

// The rounds made, with C before and after, and the sums of the odd edges outside before and after each call.
#[derive(Clone, Copy)]
pub struct Figures {
    pub rounds: u32,
    pub before: u32,
    pub after: u32,
    pub odd: u64,
    pub later: u64,
}

pub fn one_round(lent: &Lent, tally: Tally, scratch: &mut [u32]) -> Tally
    requires { let g = lent_graph lent.now in
        Ordered g scratch.old × (tally.count ≡ C (stands g scratch.old)) × Room tally 100000000000000000 × LockBytes lent.now.nodes lent.now.locks.now }
    ensures { let g = lent_graph lent.now in
        Phase (phases lent.now.locks.now lent.now.nodes) 500000 g scratch.old tally scratch.new result }
{
    let a = phases::tree_calls(lent, tally, scratch);
    let b = phases::single_calls(lent, a, scratch);
    phases::pair_calls(lent, b, scratch)
}

// The first round is always made: it starts as if C had just fallen.
pub fn all_rounds(lent: &Lent, count: u32, scratch: &mut [u32]) -> RoundsMade
    requires { let g = lent_graph lent.now in
        Ordered g scratch.old × (count ≡ C (stands g scratch.old)) × LockBytes lent.now.nodes lent.now.locks.now }
    ensures { let g = lent_graph lent.now in
        AllRounds lent.now.locks.now g scratch.old scratch.new result }
{
    let mut rounds: u32 = 0;
    let mut before = count + 1;
    let mut tally = Tally {
        count,
        before: 0,
        after: 0,
    };
    let mut after = count;
    while after < before {
        before = after;
        tally = one_round(lent, tally, scratch);
        after = tally.count;
        rounds += 1;
    }
    RoundsMade { rounds, tally }
}

// Settling an admitted graph: scratch is filled, all rounds are made, and the turns that are still pending are written out.
pub fn settle_admitted<'x>(
    inputs: u32,
    nodes: u32,
    outputs: u32,
    node_table: &'x [u32],
    node_bits: &'x mut [u64],
    output_table: &'x [u32],
    output_bits: &'x mut [u64],
    locks: &'x [u8],
    scratch: &mut [u32],
) -> Figures
    requires { let g = graph_in inputs nodes outputs node_table.now node_bits.old output_table.now output_bits.old in
        Admitted g × (8 * nodes ≤ length scratch.old) × LockBytes nodes locks.now }
    ensures { let g = graph_in inputs nodes outputs node_table.now node_bits.old output_table.now output_bits.old in
        let k = graph_in inputs nodes outputs node_table.now node_bits.new output_table.now output_bits.new in
        SettledTo locks.now g k result }
{
    let lent = Lent {
        inputs,
        nodes,
        outputs,
        node_table: Table {
            indices: node_table,
            bits: node_bits,
        },
        output_table: Table {
            indices: output_table,
            bits: output_bits,
        },
        locks,
    };
    let before = graph::edges::complemented(&lent);
    trees::start::fill_scratch(&lent, scratch);
    let made = all_rounds(&lent, before, scratch);
    state::writing::write_out(
        inputs,
        nodes,
        outputs,
        node_table,
        node_bits,
        output_table,
        output_bits,
        scratch,
    );
    Figures {
        rounds: made.rounds,
        before,
        after: made.tally.count,
        odd: made.tally.before,
        later: made.tally.after,
    }
}
