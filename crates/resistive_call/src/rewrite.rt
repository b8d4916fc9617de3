// The call: scratch filled, the tree decided there and its moves written; what they save is C before less C after, all of it over the tree's own words.
ghost use Rattle.std.specs.Prelude.{◌≡◌, ◌*◌, ◌≤◌, length};
ghost use Rattle.graph.specs.Admission.{Admitted};
ghost use Rattle.graph.specs.Answer.{outcome};
ghost use Rattle.graph.specs.Literals.{graph_in};
ghost use Rattle.moves.specs.Call.{told_saving, rewrite_by};
ghost use Rattle.moves.specs.Tree.{tree};
ghost use Rattle.moves.specs.Compose.{IsRoot};
ghost use Rattle.resistive.specs.Resistive.{best_still};

use crate::deciding::decide_still;
use graph::Lent;
use graph::edges::complemented;
use graph::table::Table;
use moves::Saving;
use moves::gains::{Odds, saved_by};
use tree_call::writing::write_tree;
use trees::start::fill_scratch;

// What the call saves.
pub fn rewrite_still<'x>(
    inputs: u32,
    nodes: u32,
    outputs: u32,
    node_table: &'x [u32],
    node_bits: &'x mut [u64],
    output_table: &'x [u32],
    output_bits: &'x mut [u64],
    locks: &'x [u8],
    root: u32,
    scratch: &mut [u32],
) -> Saving
    requires { let g = graph_in inputs nodes outputs node_table.now node_bits.old output_table.now output_bits.old in
        Admitted g × IsRoot g root × (8 * nodes ≤ length scratch.old) × (nodes ≤ length locks.now) }
    ensures { let g = graph_in inputs nodes outputs node_table.now node_bits.old output_table.now output_bits.old in
        let k = graph_in inputs nodes outputs node_table.now node_bits.new output_table.now output_bits.new in
        outcome (told_saving result) k ≡ rewrite_by g (tree g root) (best_still g locks.now root) }
{
    let lent = Lent {
        inputs,
        nodes,
        outputs,
        node_table: Table {
            indices: node_table,
            bits: node_bits,
        },
        output_table: Table {
            indices: output_table,
            bits: output_bits,
        },
        locks,
    };
    let before = complemented(&lent);
    fill_scratch(&lent, scratch);
    let v = (root - (inputs + 1)) as usize;
    decide_still(&lent, v, scratch);
    write_tree(
        inputs,
        nodes,
        outputs,
        node_table,
        node_bits,
        output_table,
        output_bits,
        locks,
        v,
        scratch,
    );
    let turned = Lent {
        inputs,
        nodes,
        outputs,
        node_table: Table {
            indices: node_table,
            bits: node_bits,
        },
        output_table: Table {
            indices: output_table,
            bits: output_bits,
        },
        locks,
    };
    let after = complemented(&turned);
    let odds = Odds {
        before: 0,
        after: 0,
    };
    saved_by(before, after, odds)
}
