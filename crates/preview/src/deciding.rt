// A tree decided in the state and its moves told; made in scratch, they say what the call would save.
ghost use Rattle.std.specs.Prelude.{◌≡◌, true, ◌+◌, ◌*◌, ◌≤◌, ◌<◌, length};
ghost use Rattle.graph.specs.Admission.{Admitted};
ghost use Rattle.moves.specs.Call.{told_saving, rewrite};
ghost use Rattle.moves.specs.Tree.{is_root, tree};
ghost use Rattle.moves.specs.Compose.{IsRoot};
ghost use Rattle.preview.specs.Preview.{moves_told};
ghost use Rattle.preview.specs.Telling.{DecidedAs};
ghost use Rattle.graph.specs.Tables.{lent_graph};

use crate::telling;
use graph::Lent;
use graph::edges::complemented;
use moves::Saving;
use moves::gains::{Odds, saved_by};
use moves::words::wide;
use trees::deciding::decide_tree;
use trees::making::decided_step;
use trees::start::fill_scratch;

// The moves of the tree call at node `root`, in the bytes.
pub fn tell_tree(lent: &Lent, root: usize, bytes: &mut [u8], scratch: &mut [u32])
    requires { let g = lent_graph lent.now in
        Admitted g × (root < lent.now.nodes) × (is_root g (lent.now.inputs + 1 + root) ≡ true) × (8 * lent.now.nodes ≤ length scratch.old) × (lent.now.nodes ≤ length bytes.old) × (lent.now.nodes ≤ length lent.now.locks.now) }
    ensures { let g = lent_graph lent.now in
        let u = lent.now.inputs + 1 + root in
        (bytes.new ≡ moves_told g lent.now.locks.now u bytes.old) × DecidedAs g lent.now.locks.now u scratch.new }
{
    fill_scratch(lent, scratch);
    decide_tree(lent, root, scratch);
    telling::clear(lent.nodes, bytes);
    telling::tell(lent, root, bytes, scratch);
}

// What the tree call would save; its moves stand in the bytes.
pub fn preview_tree(lent: &Lent, root: u32, bytes: &mut [u8], scratch: &mut [u32]) -> Saving
    requires { let g = lent_graph lent.now in
        Admitted g × IsRoot g root × (8 * lent.now.nodes ≤ length scratch.old) × (lent.now.nodes ≤ length bytes.old) × (lent.now.nodes ≤ length lent.now.locks.now) }
    ensures { let g = lent_graph lent.now in
        (told_saving result ≡ (rewrite g lent.now.locks.now (tree g root)).answer) × (bytes.new ≡ moves_told g lent.now.locks.now root bytes.old) }
{
    let before = complemented(lent);
    let v = wide(root - (lent.inputs + 1));
    tell_tree(lent, v, bytes, scratch);
    let step = decided_step(lent, v, before, scratch);
    let odds = Odds {
        before: step.before,
        after: step.after,
    };
    saved_by(before, step.count, odds)
}
