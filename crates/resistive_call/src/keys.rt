// The costs of a tree's nodes for resistive memory, by rising index.
ghost use Rattle.std.specs.Prelude.{◌≡◌, true, ◌+◌, ◌≤◌, ◌<◌, length};
ghost use Rattle.graph.specs.Graph.{is_xor};
ghost use Rattle.moves.specs.Rows.{moves_at};
ghost use Rattle.moves.specs.Tree.{is_root};
ghost use Rattle.state.specs.State.{Ordered};
ghost use Rattle.trees.specs.Costing.{CostsOnly};
ghost use Rattle.resistive_call.specs.Keys.{word_keys, key_by, KeyedBelow, CostsLow};
ghost use Rattle.graph.specs.Tables.{lent_graph};

use crate::{family, numbers};
use graph::Lent;
use moves::rows;
use trees::fields::{read, store};

// What is stored for node v, from what is stored below it.
pub fn node_key(lent: &Lent, v: usize, scratch: &[u32]) -> u32
    requires { let g = lent_graph lent.now in
        Ordered g scratch.now × (v < lent.now.nodes) × (lent.now.nodes ≤ length lent.now.locks.now) × CostsLow g scratch.now v v }
    ensures { let g = lent_graph lent.now in
        result ≡ key_by (is_xor g v) (moves_at g lent.now.locks.now (lent.now.inputs + 1 + v)) (word_keys g scratch.now v 0 v) }
{
    let z = numbers::numbers_at(lent, v, v, 0, scratch);
    family::key_of(
        rows::is_xor(&lent.node_table, v),
        rows::moves_at(&lent.node_table, lent.locks, v),
        z,
    )
}

// The costs of the tree of node `root`: all its nodes but the root.
pub fn fill_keys(lent: &Lent, root: usize, scratch: &mut [u32])
    requires { let g = lent_graph lent.now in
        Ordered g scratch.old × (root < lent.now.nodes) × (is_root g (lent.now.inputs + 1 + root) ≡ true) × (lent.now.nodes ≤ length lent.now.locks.now) }
    ensures { let g = lent_graph lent.now in
        KeyedBelow g lent.now.locks.now scratch.new (lent.now.inputs + 1 + root) root × CostsOnly scratch.old scratch.new }
{
    // Along the links in scratch: no range or slice has these nodes in their order.
    let mut v = read(scratch, root, 7) as usize;
    while v != root {
        let key = node_key(lent, v, scratch);
        store(scratch, v, 4, key);
        v = read(scratch, v, 6) as usize;
    }
}
