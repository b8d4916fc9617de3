// What refuses a join.
ghost use Rattle.std.specs.Prelude.{◌≡◌};
ghost use Rattle.graph.specs.Answer.{refusal_number};
ghost use Rattle.graph.specs.Tables.{lent_graph};
ghost use Rattle.join.specs.Join.{join_number};

use graph::faults::{check_admission, check_room};
use graph::{Lent, Refusal};

// The first graph whole, the second whole, the edges that meet, then the limits and slices of the joined graph.
pub fn check_join(
    first: &Lent,
    second: &Lent,
    node_room: usize,
    output_room: usize,
    lock_room: usize,
) -> Result<(), Refusal>
    ensures { let g = lent_graph first.now in
        let h = lent_graph second.now in
        refusal_number result ≡ join_number g first.now.locks.now h second.now.locks.now node_room output_room lock_room }
{
    check_admission(first)?;
    check_admission(second)?;
    if first.outputs != second.inputs {
        return Err(Refusal::StagesDiffer);
    }
    check_room(
        first.inputs,
        first.nodes + second.nodes,
        second.outputs,
        node_room,
        output_room,
        lock_room,
    )
}
