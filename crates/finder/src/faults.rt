// What refuses the finder.
ghost use Rattle.std.specs.Prelude.{◌≡◌};
ghost use Rattle.graph.specs.Answer.{refusal_number};
ghost use Rattle.hidden.specs.Call.{find_number};
ghost use Rattle.graph.specs.Tables.{lent_graph};

use graph::faults::check_admission;
use graph::{Lent, Refusal};
use tree_call::faults::check_scratch;

pub fn check_find(lent: &Lent, length: usize) -> Result<(), Refusal>
    ensures { let g = lent_graph lent.now in
        refusal_number result ≡ find_number g lent.now.locks.now length }
{
    check_admission(lent)?;
    check_scratch(lent.nodes, length)
}
