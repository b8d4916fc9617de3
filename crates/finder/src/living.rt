// The nodes that live are marked in the first words of scratch: those that an output names, and by falling index those that are locked or
// that a living node names.
ghost use Rattle.std.specs.Prelude.{◌≡◌, ◌+◌, ◌*◌, ◌≤◌, ◌<◌, length, get_or};
ghost use Rattle.graph.specs.Admission.{Admitted, LockBytes};
ghost use Rattle.finder.specs.Living.{Marked, NodeMarked, LockedMarked, Zeroed, Living, Lives};
ghost use Rattle.graph.specs.Tables.{lent_graph};

use graph::Lent;
use moves::words::wide;

fn unmark(nodes: usize, scratch: &mut [u32])
    requires { (nodes ≤ 100000) × (nodes ≤ length scratch.old) }
    ensures { Zeroed nodes scratch.old scratch.new }
{
    scratch[..nodes].fill(0);
}

// The node that an index names, if it names one.
fn mark(inputs: u32, scratch: &mut [u32], index: u32)
    requires { index ≤ inputs + length scratch.old }
    ensures { Marked inputs index scratch.old scratch.new }
{
    if index <= inputs {
        return;
    }
    scratch[wide(index - inputs - 1)] = 1;
}

// What the words of node v name.
fn mark_named(lent: &Lent, v: usize, scratch: &mut [u32])
    requires { let g = lent_graph lent.now in
        Admitted g × (v < lent.now.nodes) × (lent.now.nodes ≤ length scratch.old) }
    ensures { let g = lent_graph lent.now in
        NodeMarked g v scratch.old scratch.new }
{
    let at = 3 * v;
    mark(lent.inputs, scratch, lent.node_table.index_at(at));
    mark(lent.inputs, scratch, lent.node_table.index_at(at + 1));
    if lent.node_table.is_mark_at(at + 2) {
        return;
    }
    mark(lent.inputs, scratch, lent.node_table.index_at(at + 2));
}

fn mark_locked(locks: &[u8], v: usize, scratch: &mut [u32])
    requires { (v < length locks.now) × (v < length scratch.old) }
    ensures { LockedMarked locks.now v scratch.old scratch.new }
{
    if locks[v] != 1 {
        return;
    }
    scratch[v] = 1;
}

fn visit(lent: &Lent, v: usize, scratch: &mut [u32])
    requires { let g = lent_graph lent.now in
        Admitted g × LockBytes lent.now.nodes lent.now.locks.now × (v < lent.now.nodes) × Living g lent.now.locks.now (v + 1) lent.now.outputs scratch.old }
    ensures { let g = lent_graph lent.now in
        Living g lent.now.locks.now v lent.now.outputs scratch.new }
{
    mark_locked(lent.locks, v, scratch);
    if scratch[v] != 1 {
        return;
    }
    mark_named(lent, v, scratch);
}

fn mark_outputs(lent: &Lent, scratch: &mut [u32])
    requires { let g = lent_graph lent.now in
        Admitted g × LockBytes lent.now.nodes lent.now.locks.now × Living g lent.now.locks.now lent.now.nodes 0 scratch.old }
    ensures { let g = lent_graph lent.now in
        Living g lent.now.locks.now lent.now.nodes lent.now.outputs scratch.new }
{
    for j in 0..lent.outputs {
        mark(lent.inputs, scratch, lent.output_table.index_at(wide(j)));
    }
}

// Marks each node that lives by 1, the others by 0.
pub fn mark_living(lent: &Lent, scratch: &mut [u32])
    requires { let g = lent_graph lent.now in
        Admitted g × LockBytes lent.now.nodes lent.now.locks.now × (lent.now.nodes ≤ length scratch.old) }
    ensures { let g = lent_graph lent.now in
        Lives g lent.now.locks.now scratch.new }
{
    unmark(wide(lent.nodes), scratch);
    mark_outputs(lent, scratch);
    for v in (0..wide(lent.nodes)).rev() {
        visit(lent, v, scratch);
    }
}
