// The moves stored for a tree written into the tables, whatever chose them, along its links: a node below the root has one reader, whose place is known.
ghost use Rattle.std.specs.Prelude.{◌≡◌, true, false, cond, ◌+◌, ◌≤◌, ◌<◌, length};
ghost use Rattle.graph.specs.Admission.{Admitted};
ghost use Rattle.graph.specs.Graph.{mark};
ghost use Rattle.graph.specs.Literals.{graph_in};
ghost use Rattle.moves.specs.Apply.{none, at, apply};
ghost use Rattle.moves.specs.Rows.{kind_moves};
ghost use Rattle.moves.specs.Tree.{is_root, place};
ghost use Rattle.state.specs.State.{Ordered};
ghost use Rattle.trees.specs.Deciding.{MovesHeld, stored_moved};

use graph::literal::MARK;
use graph::table::{Table, turn_word};
use moves::rows;
use node_call::write;
use trees::fields::read;

// Move m at node v, which is no root: its own words and the one at place p, which reads it.
fn write_inner(
    inputs: u32,
    nodes: u32,
    outputs: u32,
    node_table: &[u32],
    node_bits: &mut [u64],
    output_table: &Table,
    v: u32,
    p: u32,
    m: u32,
)
    requires { let g = graph_in inputs nodes outputs node_table.now node_bits.old output_table.now.indices.now output_table.now.bits.now in
        let u = inputs + 1 + v in
        Admitted g × (v < nodes) × (m < kind_moves g u) × (is_root g u ≡ false) × (p ≡ place g u) }
    ensures { let g = graph_in inputs nodes outputs node_table.now node_bits.old output_table.now.indices.now output_table.now.bits.now in
        let h = graph_in inputs nodes outputs node_table.now node_bits.new output_table.now.indices.now output_table.now.bits.now in
        h ≡ apply g (at none (inputs + 1 + v) m) }
{
    let xor = rows::is_xor(
        &Table {
            indices: node_table,
            bits: node_bits,
        },
        v as usize,
    );
    let t = rows::flag_of(xor, m, 3);
    write::turn_own(node_table, node_bits, v as usize, xor, m);
    turn_word(node_table, node_bits, p as usize, t);
}

// Move m at node v, of which p is the place of the only reader, or the mark at a root.
fn write_at(
    inputs: u32,
    nodes: u32,
    outputs: u32,
    node_table: &[u32],
    node_bits: &mut [u64],
    output_table: &[u32],
    output_bits: &mut [u64],
    v: u32,
    p: u32,
    m: u32,
)
    requires { let g = graph_in inputs nodes outputs node_table.now node_bits.old output_table.now output_bits.old in
        let u = inputs + 1 + v in
        Admitted g × (v < nodes) × (m < kind_moves g u) × (p ≡ cond (is_root g u) mark (place g u)) }
    ensures { let g = graph_in inputs nodes outputs node_table.now node_bits.old output_table.now output_bits.old in
        let h = graph_in inputs nodes outputs node_table.now node_bits.new output_table.now output_bits.new in
        h ≡ apply g (at none (inputs + 1 + v) m) }
{
    if p == MARK {
        write::write_move(
            inputs,
            nodes,
            outputs,
            node_table,
            node_bits,
            output_table,
            output_bits,
            v,
            m,
        );
        return;
    }
    write_inner(
        inputs,
        nodes,
        outputs,
        node_table,
        node_bits,
        &Table {
            indices: output_table,
            bits: output_bits,
        },
        v,
        p,
        m,
    );
}

// The moves of the tree of node `root`, which stand in scratch.
pub fn write_tree(
    inputs: u32,
    nodes: u32,
    outputs: u32,
    node_table: &[u32],
    node_bits: &mut [u64],
    output_table: &[u32],
    output_bits: &mut [u64],
    locks: &[u8],
    root: usize,
    scratch: &[u32],
)
    requires { let g = graph_in inputs nodes outputs node_table.now node_bits.old output_table.now output_bits.old in
        let u = inputs + 1 + root in
        Ordered g scratch.now × (root < nodes) × (is_root g u ≡ true) × MovesHeld g locks.now u scratch.now }
    ensures { let g = graph_in inputs nodes outputs node_table.now node_bits.old output_table.now output_bits.old in
        let h = graph_in inputs nodes outputs node_table.now node_bits.new output_table.now output_bits.new in
        h ≡ stored_moved g (inputs + 1 + root) scratch.now }
{
    // Along the links in scratch: no range or slice has these nodes in their order.
    let mut v = root as u32;
    while v != MARK {
        let w = v as usize;
        let p = read(scratch, w, 3);
        let m = read(scratch, w, 4);
        write_at(
            inputs,
            nodes,
            outputs,
            node_table,
            node_bits,
            output_table,
            output_bits,
            v,
            p,
            m,
        );
        v = read(scratch, w, 5);
    }
}
