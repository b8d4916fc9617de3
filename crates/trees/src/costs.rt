// What the words of a node cost with the costs stored below it, and the costs of a tree's nodes by rising index.
ghost use Rattle.std.specs.Prelude.{◌≡◌, true, [], ◌∷◌, ◌+◌, ◌-◌, ◌*◌, ◌/◌, ◌%◌, ◌≤◌, ◌<◌, length};
ghost use Rattle.graph.specs.Finite.{if_equal};
ghost use Rattle.graph.specs.Graph.{is_edge};
ghost use Rattle.moves.specs.Decide.{Numbers, MovesOf};
ghost use Rattle.moves.specs.Tree.{is_root};
ghost use Rattle.moves.specs.Cost.{edge_cost, turned_cost, word_costs, bit_cost};
ghost use Rattle.state.specs.State.{stands, Ordered};
ghost use Rattle.trees.specs.Costing.{inner_at, cost_at, LeastCost, CostBits, CostedBelow, CostsOnly};
ghost use Rattle.graph.specs.Tables.{lent_graph};

use crate::fields::{read, store};
use graph::literal::MARK;
use graph::{Lent, table};
use moves::words::over;
use moves::{decide, rows};
use state::now;

// One of two stored bits.
pub fn stored_bit(x: u32, b: u32) -> u32
    ensures { result ≡ if_equal b 0 (x % 2) (x / 2 % 2) }
{
    if b == 0 {
        return x % 2;
    }
    x / 2 % 2
}

// What an edge costs that names index u, its bit being b after its own node's move.
pub fn edge_cost(inputs: u32, nodes: u32, u: u32, b: u32, scratch: &[u32]) -> u32
    requires { (inputs ≤ 4096) × (nodes ≤ 100000) × (u < inputs + 1 + nodes) × (8 * nodes ≤ length scratch.now) }
    ensures { result ≡ edge_cost (inner_at inputs scratch.now) (cost_at inputs scratch.now) u b }
{
    if u <= inputs {
        return b;
    }
    let v = (u - (inputs + 1)) as usize;
    if read(scratch, v, 3) == MARK {
        return b;
    }
    stored_bit(read(scratch, v, 4), b)
}

// What word k + 1 of node v costs, as it stands and turned.
pub fn edge_numbers(lent: &Lent, v: usize, k: usize, scratch: &[u32]) -> [u32; 2]
    requires { let g = lent_graph lent.now in
        Ordered g scratch.now × (v < lent.now.nodes) × (k < 3) × (is_edge g (3 * v + k) ≡ true) }
    ensures { let g = lent_graph lent.now in
        let h = stands g scratch.now in
        let t = inner_at lent.now.inputs scratch.now in
        let c = cost_at lent.now.inputs scratch.now in
        result ≡ turned_cost h t c v k 0 ∷ turned_cost h t c v k 1 ∷ [] }
{
    let u = lent.node_table.index_at(3 * v + k);
    let b = now::bit_now(lent, v, k, scratch);
    [
        edge_cost(lent.inputs, lent.nodes, u, b, scratch),
        edge_cost(lent.inputs, lent.nodes, u, 1 - b, scratch),
    ]
}

// What each word of node v costs, as it stands and turned. An XOR's third is the mark, which costs nothing.
pub fn tree_numbers(lent: &Lent, v: usize, scratch: &[u32]) -> [u32; 6]
    requires { let g = lent_graph lent.now in
        Ordered g scratch.now × (v < lent.now.nodes) }
    ensures { let g = lent_graph lent.now in
        result ≡ word_costs (stands g scratch.now) (inner_at lent.now.inputs scratch.now) (cost_at lent.now.inputs scratch.now) v }
{
    let x = edge_numbers(lent, v, 0, scratch);
    let y = edge_numbers(lent, v, 1, scratch);
    if rows::is_xor(&lent.node_table, v) {
        return [x[0], x[1], y[0], y[1], 0, 0];
    }
    let z = edge_numbers(lent, v, 2, scratch);
    [x[0], x[1], y[0], y[1], z[0], z[1]]
}

// What a node with these numbers and one reader costs at least, shown the bit s.
pub fn least_cost(xor: bool, moves: u32, z: [u32; 6], s: u32) -> u32
    requires { Numbers z 1 s × MovesOf xor moves }
    ensures { LeastCost xor moves z s result }
{
    let least = decide::least_move(xor, moves, z, 1, s);
    least.cost
}

// The two bits of a node's costs: how much each exceeds the other.
pub fn cost_bits(xor: bool, moves: u32, z: [u32; 6]) -> u32
    requires { Numbers z 1 0 × Numbers z 1 1 × MovesOf xor moves }
    ensures { CostBits xor moves z result }
{
    let a = least_cost(xor, moves, z, 0);
    let b = least_cost(xor, moves, z, 1);
    over(a, b) + 2 * over(b, a)
}

// The two cost bits of node v, from those below it.
pub fn node_costs(lent: &Lent, v: usize, scratch: &[u32]) -> u32
    requires { let g = lent_graph lent.now in
        Ordered g scratch.now × (v < lent.now.nodes) × (lent.now.nodes ≤ length lent.now.locks.now) }
    ensures { let g = lent_graph lent.now in
        let h = stands g scratch.now in
        (result % 2 ≡ bit_cost h lent.now.locks.now (inner_at lent.now.inputs scratch.now) (cost_at lent.now.inputs scratch.now) v 0) × (result / 2 % 2 ≡ bit_cost h lent.now.locks.now (inner_at lent.now.inputs scratch.now) (cost_at lent.now.inputs scratch.now) v 1) }
{
    let z = tree_numbers(lent, v, scratch);
    cost_bits(
        rows::is_xor(&lent.node_table, v),
        rows::moves_at(&lent.node_table, lent.locks, v),
        z,
    )
}

// The costs of the tree of node `root`, by rising index: all its nodes but the root.
pub fn fill_costs(lent: &Lent, root: usize, scratch: &mut [u32])
    requires { let g = lent_graph lent.now in
        Ordered g scratch.old × (root < lent.now.nodes) × (is_root g (lent.now.inputs + 1 + root) ≡ true) × (lent.now.nodes ≤ length lent.now.locks.now) }
    ensures { let g = lent_graph lent.now in
        CostedBelow (stands g scratch.old) lent.now.locks.now scratch.new (lent.now.inputs + 1 + root) root × CostsOnly scratch.old scratch.new }
{
    let mut v = read(scratch, root, 7) as usize;
    while v != root {
        let bits = node_costs(lent, v, scratch);
        store(scratch, v, 4, bits);
        v = read(scratch, v, 6) as usize;
    }
}
