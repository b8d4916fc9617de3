// Why a comparison is refused.
ghost use Rattle.std.specs.Prelude.{◌≡◌};
ghost use Rattle.graph.specs.Admission.{tables_number};
ghost use Rattle.graph.specs.Answer.{refusal_number};
ghost use Rattle.graph.specs.Tables.{lent_graph};
ghost use Rattle.compare.specs.Compare.{rooms_number, contents_number, compare_number};

use graph::faults::{check_content, check_tables};
use graph::{Lent, Refusal};

// By the limits and by what is lent: the first graph and the bytes, then the second graph.
fn check_rooms(first: &Lent, second: &Lent, bytes: usize) -> Result<(), Refusal>
    ensures { refusal_number result ≡ rooms_number (lent_graph first.now) first.now.locks.now (lent_graph second.now) second.now.locks.now bytes }
{
    check_tables(first)?;
    if bytes < first.nodes as usize {
        return Err(Refusal::ShortSlice);
    }
    check_tables(second)
}

// By what the tables and the locks hold: the first graph, then the second.
fn check_contents(first: &Lent, second: &Lent) -> Result<(), Refusal>
    requires { (tables_number (lent_graph first.now) first.now.locks.now ≡ 0) × (tables_number (lent_graph second.now) second.now.locks.now ≡ 0) }
    ensures { refusal_number result ≡ contents_number (lent_graph first.now) first.now.locks.now (lent_graph second.now) second.now.locks.now }
{
    check_content(first)?;
    check_content(second)
}

pub fn check_compare(first: &Lent, second: &Lent, bytes: usize) -> Result<(), Refusal>
    ensures { refusal_number result ≡ compare_number (lent_graph first.now) first.now.locks.now (lent_graph second.now) second.now.locks.now bytes }
{
    check_rooms(first, second, bytes)?;
    check_contents(first, second)
}
