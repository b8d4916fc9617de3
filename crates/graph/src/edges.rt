// Document 01's C: how many edges are complemented.
ghost use Rattle.std.specs.Prelude.{◌≡◌, ◌≤◌};
ghost use Rattle.graph.specs.Count.{adds, C};
ghost use Rattle.graph.specs.Admission.{Admitted};
ghost use Rattle.graph.specs.Tables.{lent_graph};

use crate::Lent;
use crate::table::{ones_in, words_for};

// What a literal adds to C.
pub fn literal_adds(x: u32) -> u32
    ensures { result ≡ adds x }
{
    x % 2
}

// C is the number of ones in the words of both tables.
pub fn complemented(lent: &Lent) -> u32
    requires { Admitted (lent_graph lent.now) }
    ensures { (result ≡ C (lent_graph lent.now)) × (result ≤ 304096) }
{
    let first = ones_in(words_for(3 * lent.nodes as usize), lent.node_table.bits);
    let second = ones_in(words_for(lent.outputs as usize), lent.output_table.bits);
    first + second
}
