// A tree decided for resistive memory: the costs of its nodes by rising index, their moves by falling index. Only scratch is written.
ghost use Rattle.std.specs.Prelude.{◌≡◌, true, ℕ, ◌+◌, ◌≤◌, ◌<◌, min, [], ◌∷◌, ◌≢◌, length, get_or};
ghost use Rattle.graph.specs.Graph.{is_xor, mark};
ghost use Rattle.choice.specs.Inner.{FirstBelow};
ghost use Rattle.moves.specs.Rows.{kind_moves};
ghost use Rattle.moves.specs.Tree.{is_root};
ghost use Rattle.resistive.specs.Resistive.{still_moves};
ghost use Rattle.state.specs.State.{field, Ordered};
ghost use Rattle.trees.specs.Costing.{CostsOnly};
ghost use Rattle.trees.specs.Deciding.{ReaderDecided};
ghost use Rattle.resistive_call.specs.Keys.{word_keys, score_by, reader_by, beside_at, moves_here, CostsLow, FamiliesLow, KeyedBelow, StillDecided};
ghost use Rattle.graph.specs.Tables.{lent_graph};

use crate::{family, keys, numbers};
use graph::Lent;
use graph::literal::MARK;
use moves::decide::Weights;
use moves::rows;
use trees::fields::{read, store};

// Of so many moves of a kind, those that leave the readers unturned: the first of a majority, the first two of an XOR.
pub fn still_moves(xor: bool, moves: u32) -> u32
    ensures { result ≡ min moves (still_moves xor) }
{
    if xor {
        return moves.min(2);
    }
    moves.min(1)
}

// The families of the reader w of node v, with the move stored for w, while v is decided: v unturned, and turned.
pub fn reader_keys(lent: &Lent, v: usize, w: usize, scratch: &[u32]) -> [u32; 2]
    requires { let g = lent_graph lent.now in
        Ordered g scratch.now × (v < lent.now.nodes) × (w < lent.now.nodes) × (field scratch.now v 3 ≢ mark) × (field scratch.now w 4 < kind_moves g (lent.now.inputs + 1 + w)) × CostsLow g scratch.now v w }
    ensures { let g = lent_graph lent.now in
        (result ≡ reader_by g scratch.now v w 0 ∷ reader_by g scratch.now v w 1 ∷ []) × ((i : ℕ) → get_or result i 0 ≤ 1216400) }
{
    let xor = rows::is_xor(&lent.node_table, w);
    let m = read(scratch, w, 4);
    let y = numbers::numbers_at(lent, w, v, 0, scratch);
    let z = numbers::turned_at(lent, w, v, y, scratch);
    [
        family::family_under(xor, y, m),
        family::family_under(xor, z, m),
    ]
}

// The first least move of node v, with the costs stored below it and the moves stored above it.
pub fn decide_key(lent: &Lent, v: usize, scratch: &[u32]) -> u32
    requires { let g = lent_graph lent.now in
        Ordered g scratch.now × (v < lent.now.nodes) × ReaderDecided g scratch.now v × (lent.now.nodes ≤ length lent.now.locks.now) × FamiliesLow g scratch.now v }
    ensures { let g = lent_graph lent.now in
        let sc = scratch.now in
        FirstBelow (score_by (is_xor g v) (word_keys g sc v 0 v) (beside_at g sc v 0) (beside_at g sc v 1)) (moves_here g lent.now.locks.now sc v) result }
{
    let z = numbers::numbers_at(lent, v, v, 0, scratch);
    let xor = rows::is_xor(&lent.node_table, v);
    let moves = rows::moves_at(&lent.node_table, lent.locks, v);
    let place = read(scratch, v, 3);
    if place == MARK {
        let w = Weights {
            costs: z,
            still: 0,
            turned: 0,
        };
        return family::first_score(xor, still_moves(xor, moves), w);
    }
    let beside = reader_keys(lent, v, place as usize / 3, scratch);
    let w = Weights {
        costs: z,
        still: beside[0],
        turned: beside[1],
    };
    family::first_score(xor, moves, w)
}

// The moves of the tree of node `root`, whose costs are stored, by falling index: each in the place of the node's costs.
pub fn fill_choices(lent: &Lent, root: usize, scratch: &mut [u32])
    requires { let g = lent_graph lent.now in
        Ordered g scratch.old × (root < lent.now.nodes) × (is_root g (lent.now.inputs + 1 + root) ≡ true) × KeyedBelow g lent.now.locks.now scratch.old (lent.now.inputs + 1 + root) root × (lent.now.nodes ≤ length lent.now.locks.now) }
    ensures { let g = lent_graph lent.now in
        StillDecided g lent.now.locks.now (lent.now.inputs + 1 + root) scratch.new × CostsOnly scratch.old scratch.new }
{
    // Along the links in scratch: no range or slice has these nodes in their order.
    let mut v = root as u32;
    while v != MARK {
        let w = v as usize;
        let m = decide_key(lent, w, scratch);
        store(scratch, w, 4, m);
        v = read(scratch, w, 5);
    }
}

// The best moves of the tree of node `root` for resistive memory, in scratch.
pub fn decide_still(lent: &Lent, root: usize, scratch: &mut [u32])
    requires { let g = lent_graph lent.now in
        Ordered g scratch.old × (root < lent.now.nodes) × (is_root g (lent.now.inputs + 1 + root) ≡ true) × (lent.now.nodes ≤ length lent.now.locks.now) }
    ensures { let g = lent_graph lent.now in
        StillDecided g lent.now.locks.now (lent.now.inputs + 1 + root) scratch.new × CostsOnly scratch.old scratch.new }
{
    keys::fill_keys(lent, root, scratch);
    fill_choices(lent, root, scratch);
}
