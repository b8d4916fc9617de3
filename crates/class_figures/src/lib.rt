// Figures for a class: graphs settled one after another, with the sums over all of them and over the latest sixteen in a lent record.
#![tactic(auto)]

ghost use Rattle.std.specs.Prelude.{◌≡◌, length};
ghost use Rattle.graph.specs.Answer.{ScratchKept};
ghost use Rattle.graph.specs.Literals.{graph_in};
ghost use Rattle.settling.specs.Settle.{settled_answer};
ghost use Rattle.class_figures.specs.Call.{class_outcome, class_call, figures_answer, figures_call};

mod cells;
mod entering;
mod faults;
mod reading;

use graph::table::Table;
use graph::{Lent, Refusal};
use settling::Settled;

// What reading the figures answers.
#[derive(Clone, Copy)]
pub struct ClassFigures {
    pub count: u64,
    pub before: u64,
    pub after: u64,
    pub rounds: u64,
    pub cells_before: u64,
    pub cells_after: u64,
    // How far C has fallen, out of how much.
    pub fall: i64,
    pub total_before: i64,
}

// Settles a graph and enters it into the record.
pub fn enter<'x>(
    inputs: u32,
    nodes: u32,
    outputs: u32,
    node_table: &'x [u32],
    node_bits: &'x mut [u64],
    output_table: &'x [u32],
    output_bits: &'x mut [u64],
    locks: &'x [u8],
    scratch: &mut [u32],
    book: &mut [u64],
) -> Result<Settled, Refusal>
    ensures call { let g = graph_in inputs nodes outputs node_table.now node_bits.old output_table.now output_bits.old in
        let k = graph_in inputs nodes outputs node_table.now node_bits.new output_table.now output_bits.new in
        class_outcome (settled_answer result) k book.new ≡ class_call book.old g locks.now (length scratch.old) }
    ensures scratch { ScratchKept (settled_answer result) scratch.old scratch.new }
{
    let lent = Lent {
        inputs,
        nodes,
        outputs,
        node_table: Table {
            indices: node_table,
            bits: node_bits,
        },
        output_table: Table {
            indices: output_table,
            bits: output_bits,
        },
        locks,
    };
    faults::check_early(&lent, book)?;
    let settled = settling::settle(
        inputs,
        nodes,
        outputs,
        node_table,
        node_bits,
        output_table,
        output_bits,
        locks,
        scratch,
    )?;
    entering::enter_settled(
        settled,
        nodes,
        &Table {
            indices: node_table,
            bits: node_bits,
        },
        book,
    );
    Ok(settled)
}

// The figures of all graphs entered where `latest` is 0, and else those of the latest sixteen.
pub fn figures(book: &[u64], latest: u32) -> Result<ClassFigures, Refusal>
    ensures { figures_answer result ≡ figures_call book.now latest }
{
    faults::check_figures(book)?;
    if latest == 0 {
        return Ok(reading::all(book));
    }
    Ok(reading::latest(book))
}
