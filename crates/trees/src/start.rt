// Scratch filled at the start.
ghost use Rattle.std.specs.Prelude.{◌≡◌, ◌*◌, ◌≤◌, length};
ghost use Rattle.graph.specs.Admission.{Admitted};
ghost use Rattle.state.specs.State.{stands, Ordered};
ghost use Rattle.graph.specs.Tables.{lent_graph};

use crate::fields::clear;
use crate::{fill, links};
use graph::Lent;

// The state in order, with nothing pending.
pub fn fill_scratch(lent: &Lent, scratch: &mut [u32])
    requires { let g = lent_graph lent.now in
        Admitted g × (8 * lent.now.nodes ≤ length scratch.old) }
    ensures { let g = lent_graph lent.now in
        Ordered g scratch.new × (stands g scratch.new ≡ g) }
{
    let n = lent.nodes as usize;
    // Copied, so that where the tables lie need not be read again after each store to scratch.
    let own = *lent;
    clear(n, scratch);
    fill::note_all(own.inputs, n, &own.node_table, 3 * n, 4, scratch);
    fill::note_all(
        own.inputs,
        n,
        &own.output_table,
        own.outputs as usize,
        6,
        scratch,
    );
    fill::gather_all(n, &own.node_table, scratch);
    links::link_all(n, scratch);
}
