// An assignment for a wanted output: the least that gives the pattern, or none exactly if none does.
#![tactic(auto)]

ghost use Rattle.std.specs.Prelude.{◌≡◌, length};
ghost use Rattle.graph.specs.Answer.{ScratchKept};
ghost use Rattle.graph.specs.Literals.{before};
ghost use Rattle.assignment.specs.Assignment.{assignment_call, assigned_answer};
ghost use Rattle.assignment.specs.Inner.{Searchable};
ghost use Rattle.graph.specs.Tables.{lent_graph};

mod block;
mod faults;
mod outputs;
mod search;
mod words;

use graph::{Lent, Refusal};

// A graph that is admitted, with a pattern for its outputs that is one: so made where a call has been through its checks.
#[derive(Clone, Copy)]
pub(crate) struct Question<'a> {
    pub(crate) lent: Lent<'a>,
    pub(crate) wanted: &'a [u8],
    pub(crate) ghost searchable: { Searchable (lent_graph lent) wanted.now },
}

// The least assignment's number, input 1 being the lowest bit; none where no assignment gives the pattern. That is a byte an output: 0, 1, or 2 for either.
pub fn find_assignment<'x>(
    lent: &Lent<'x>,
    wanted: &'x [u8],
    scratch: &mut [u64],
) -> Result<Option<u32>, Refusal>
    ensures call { let g = lent_graph lent.now in
        assigned_answer result ≡ assignment_call g lent.now.locks.now (before wanted) (length scratch.old) }
    ensures scratch { ScratchKept (assigned_answer result) scratch.old scratch.new }
{
    faults::check_assignment(lent, wanted, scratch.len())?;
    let question = Question {
        lent: *lent,
        wanted,
    };
    Ok(search::search(&question, scratch))
}
