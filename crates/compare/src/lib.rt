// Two graphs compared: the moves that lead from the first to the second, or the first place where they differ otherwise.
#![tactic(auto)]

ghost use Rattle.std.specs.Prelude.{◌≡◌};
ghost use Rattle.compare.specs.Compare.{compared, comparison_answer, compare_call, difference_told};
ghost use Rattle.graph.specs.Tables.{lent_graph};

mod explaining;
mod faults;
mod indices;
mod telling;

use graph::{Lent, Refusal};

#[derive(Clone, Copy)]
pub enum Size {
    Inputs,
    Nodes,
    Outputs,
}

// How two graphs differ: by moves alone, or at the first place that these do not explain.
#[derive(Clone, Copy)]
pub enum Comparison {
    Moves,
    Size(Size),
    // The place names another index: of the node table, or of the output table.
    NodeIndex(u32),
    OutputIndex(u32),
    // No moves explain its complement bit together with all before it.
    NodeBit(u32),
    OutputBit(u32),
}

impl Comparison {
    // The two numbers that the documents give: what is different, and where.
    pub fn numbers(self) -> [u32; 2]
        ensures { result ≡ difference_told self }
    {
        match self {
            Comparison::Moves => [0, 0],
            Comparison::Size(Size::Inputs) => [1, 0],
            Comparison::Size(Size::Nodes) => [1, 1],
            Comparison::Size(Size::Outputs) => [1, 2],
            Comparison::NodeIndex(place) => [2, place],
            Comparison::OutputIndex(place) => [3, place],
            Comparison::NodeBit(place) => [4, place],
            Comparison::OutputBit(place) => [5, place],
        }
    }
}

// The tables are only read, and the bytes are filled where moves lead from the first graph to the second.
pub fn compare(first: &Lent, second: &Lent, moves: &mut [u8]) -> Result<Comparison, Refusal>
    ensures { let g = lent_graph first.now in
        let h = lent_graph second.now in
        compared (comparison_answer result) moves.new ≡ compare_call g first.now.locks.now h second.now.locks.now moves.old }
{
    faults::check_compare(first, second, moves.len())?;
    if let Some(size) = indices::size_apart(first, second) {
        return Ok(Comparison::Size(size));
    }
    Ok(explaining::compare_words(first, second, moves))
}
