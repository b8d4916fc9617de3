// What two moves on a pair would save, from the words as they stand.
ghost use Rattle.std.specs.Prelude.{◌≡◌, [], ◌∷◌, ◌+◌, ◌≤◌, ◌<◌, length};
ghost use Rattle.graph.specs.Admission.{Admitted};
ghost use Rattle.graph.specs.Count.{C};
ghost use Rattle.graph.specs.Finite.{difference};
ghost use Rattle.moves.specs.Call.{moved_c, trial_number, trial_saving};
ghost use Rattle.moves.specs.Rows.{moves_at};
ghost use Rattle.graph.specs.Tables.{lent_graph};

use crate::rewrite;
use graph::Lent;
use moves::decide::Pair;
use moves::{decide, reading, words};

// Move a at node p and move k at node v above it, both counted from 0.
pub fn pair_saving(lent: &Lent, p: u32, v: u32, a: u32, k: u32) -> i64
    requires { let g = lent_graph lent.now in
        Admitted g × (p < v) × (v < lent.now.nodes) × (lent.now.nodes ≤ length lent.now.locks.now) × (a < moves_at g lent.now.locks.now (lent.now.inputs + 1 + p)) × (k < moves_at g lent.now.locks.now (lent.now.inputs + 1 + v)) }
    ensures { let g = lent_graph lent.now in
        result ≡ difference (C g) (moved_c g ((lent.now.inputs + 1 + p) ∷ (lent.now.inputs + 1 + v) ∷ []) (a ∷ k ∷ [])) }
{
    let named = reading::numbers_of(lent, p);
    let node = reading::numbers_of(lent, v);
    let which = words::which_name(&lent.node_table, v as usize, lent.inputs + 1 + p);
    let pair = Pair { named, node, which };
    decide::pair_saving(pair, a, k)
}

// Move a at the node that a word of a node names, if it names one, and move k at the node.
pub fn named_saving(lent: &Lent, node: u32, word: u32, a: u32, k: u32) -> i64
    requires { let g = lent_graph lent.now in
        trial_number g lent.now.locks.now node word a k ≡ 0 }
    ensures { let g = lent_graph lent.now in
        result ≡ trial_saving g node word a k }
{
    let named = rewrite::named_by(lent.inputs, &lent.node_table, node, word);
    if named <= lent.inputs {
        return 0;
    }
    let p = named - (lent.inputs + 1);
    let v = node - (lent.inputs + 1);
    pair_saving(lent, p, v, a, k)
}
