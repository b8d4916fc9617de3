// What refuses a preview.
ghost use Rattle.std.specs.Prelude.{◌≡◌};
ghost use Rattle.graph.specs.Answer.{refusal_number};
ghost use Rattle.preview.specs.Preview.{preview_number};
ghost use Rattle.graph.specs.Tables.{lent_graph};

use graph::faults::check_tables;
use graph::{Lent, Refusal};
use tree_call::faults::check_tree;

pub fn check_preview(lent: &Lent, root: u32, bytes: usize, length: usize) -> Result<(), Refusal>
    ensures { let g = lent_graph lent.now in
        refusal_number result ≡ preview_number g lent.now.locks.now bytes length root }
{
    check_tables(lent)?;
    if bytes < lent.nodes as usize {
        return Err(Refusal::ShortSlice);
    }
    check_tree(lent, root, length)
}
