// The moves of a decided tree, read out of scratch.
ghost use Rattle.std.specs.Prelude.{◌≡◌, true, ◌+◌, ◌≤◌, ◌<◌, length};
ghost use Rattle.moves.specs.Tree.{is_root};
ghost use Rattle.state.specs.State.{stands, Ordered};
ghost use Rattle.preview.specs.Telling.{Cleared, MovesStored, Told};
ghost use Rattle.graph.specs.Tables.{lent_graph};

use graph::Lent;
use graph::literal::MARK;
use moves::words::{narrow, wide};
use trees::fields::read;

pub fn clear(nodes: u32, bytes: &mut [u8])
    requires { (nodes ≤ 100000) × (nodes ≤ length bytes.old) }
    ensures { Cleared nodes bytes.old bytes.new }
{
    bytes[..nodes as usize].fill(0);
}

pub fn byte(x: u32) -> u8
    requires { x < 256 }
    ensures { result ≡ x }
{
    x as u8
}

// The moves of the tree of node `root`, along the links.
pub fn tell(lent: &Lent, root: usize, bytes: &mut [u8], scratch: &[u32])
    requires { let g = lent_graph lent.now in
        Ordered g scratch.now × (root < lent.now.nodes) × (is_root g (lent.now.inputs + 1 + root) ≡ true) × MovesStored (stands g scratch.now) (lent.now.inputs + 1 + root) scratch.now × (lent.now.nodes ≤ length bytes.old) }
    ensures { let g = lent_graph lent.now in
        Told (stands g scratch.now) (lent.now.inputs + 1 + root) scratch.now bytes.old bytes.new }
{
    let mut v = narrow(root);
    while v != MARK {
        let w = wide(v);
        bytes[w] = byte(read(scratch, w, 4));
        v = read(scratch, w, 5);
    }
}
