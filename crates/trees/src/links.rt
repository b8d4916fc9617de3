// The links between the nodes of a tree, made from the highest node down.
ghost use Rattle.std.specs.Prelude.{◌≡◌, ◌+◌, ◌*◌, ◌/◌, ◌≤◌, ◌<◌, length};
ghost use Rattle.state.specs.State.{field};
ghost use Rattle.trees.specs.Linking.{Rising, Bounded, root_at, RootLinked, BelowLinked, LinkedAt, LowKept, LinkingAny};

use crate::fields::{read, store};
use graph::literal::MARK;

// The root of a linked node.
pub fn root_at(scratch: &[u32], w: usize) -> usize
    requires { (w < 100000) × (8 * w + 8 ≤ length scratch.now) }
    ensures { result ≡ root_at scratch.now w }
{
    if read(scratch, w, 3) == MARK {
        return w;
    }
    read(scratch, w, 7) as usize
}

pub fn link_root(scratch: &mut [u32], v: usize)
    requires { (v < 100000) × (8 * v + 8 ≤ length scratch.old) }
    ensures { RootLinked v scratch.old scratch.new }
{
    store(scratch, v, 5, MARK);
    store(scratch, v, 6, MARK);
    store(scratch, v, 7, v as u32);
}

pub fn link_below(scratch: &mut [u32], v: usize, root: usize)
    requires { (v < field scratch.old root 7) × (field scratch.old root 7 < 100000) × (v < root) × (root < 100000) × (8 * field scratch.old root 7 + 8 ≤ length scratch.old) × (8 * root + 8 ≤ length scratch.old) }
    ensures { BelowLinked v root (field scratch.old root 7) scratch.old scratch.new }
{
    let h = read(scratch, root, 7);
    store(scratch, v, 5, MARK);
    store(scratch, v, 6, h);
    store(scratch, v, 7, root as u32);
    store(scratch, h as usize, 5, v as u32);
    store(scratch, root, 7, v as u32);
}

pub fn link(nodes: usize, scratch: &mut [u32], v: usize)
    requires { (nodes ≤ 100000) × (8 * nodes ≤ length scratch.old) × (v < nodes) × Rising nodes scratch.old × Bounded nodes scratch.old (v + 1) }
    ensures { LinkedAt v scratch.old scratch.new }
{
    let place = read(scratch, v, 3);
    if place == MARK {
        link_root(scratch, v);
        return;
    }
    let root = root_at(scratch, (place / 3) as usize);
    link_below(scratch, v, root);
}

pub fn link_all(nodes: usize, scratch: &mut [u32])
    requires { (nodes ≤ 100000) × (8 * nodes ≤ length scratch.old) × Rising nodes scratch.old }
    ensures { LinkingAny nodes scratch.old scratch.new 0 × LowKept scratch.old scratch.new }
{
    for v in (0..nodes).rev() {
        link(nodes, scratch, v);
    }
}
