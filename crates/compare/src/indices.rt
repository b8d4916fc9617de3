// Sizes and indices compared.
ghost use Rattle.std.specs.Prelude.{◌≡◌, ◌*◌, ◌≤◌, eqb, length};
ghost use Rattle.graph.specs.Admission.{Admitted};
ghost use Rattle.graph.specs.Literals.{index_at};
ghost use Rattle.compare.specs.Compare.{passing, size_apart, size_number, wired_to};
ghost use Rattle.compare.specs.Telling.{beside};
ghost use Rattle.graph.specs.Tables.{lent_graph};

use crate::Size;
use graph::Lent;
use graph::table::raw_at;

// The first of the sizes that differs.
pub fn size_apart(first: &Lent, second: &Lent) -> Option<Size>
    ensures { size_number result ≡ size_apart (lent_graph first.now) (lent_graph second.now) }
{
    if first.inputs != second.inputs {
        return Some(Size::Inputs);
    }
    if first.nodes != second.nodes {
        return Some(Size::Nodes);
    }
    if first.outputs != second.outputs {
        return Some(Size::Outputs);
    }
    None
}

// How many of the first n indices of two tables are the same from the front on. By place: only crate graph reads a table's slice, by raw_at.
fn same_to(n: usize, table: &[u32], second_table: &[u32]) -> usize
    requires { (n ≤ length table.now) × (n ≤ length second_table.now) }
    ensures { result ≡ passing n (λ j. eqb (index_at table.now j) (index_at second_table.now j)) }
{
    for j in 0..n {
        if raw_at(table, j) != raw_at(second_table, j) {
            return j;
        }
    }
    n
}

// The same of both tables in a row.
pub fn wired_to(first: &Lent, second: &Lent) -> usize
    requires { Admitted (lent_graph first.now) × Admitted (beside first.now second.now) }
    ensures { result ≡ wired_to (lent_graph first.now) (beside first.now second.now) }
{
    let end = 3 * first.nodes as usize;
    let k = same_to(end, first.node_table.indices, second.node_table.indices);
    if k < end {
        return k;
    }
    end + same_to(
        first.outputs as usize,
        first.output_table.indices,
        second.output_table.indices,
    )
}
