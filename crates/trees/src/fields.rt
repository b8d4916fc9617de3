// The eight fields of a node in scratch.
// Functions over the slice, no plainer as a struct over it: one that holds a `&mut` needs ghost names in each contract.
ghost use Rattle.std.specs.Prelude.{◌≡◌, ◌+◌, ◌*◌, ◌≤◌, ◌<◌, length};
ghost use Rattle.state.specs.State.{field};
ghost use Rattle.trees.specs.Filling.{Stored, Cleared};

pub fn read(scratch: &[u32], v: usize, f: usize) -> u32
    requires { (v < 100000) × (f < 8) × (8 * v + f < length scratch.now) }
    ensures { result ≡ field scratch.now v f }
{
    scratch[8 * v + f]
}

pub fn store(scratch: &mut [u32], v: usize, f: usize, x: u32)
    requires { (v < 100000) × (f < 8) × (8 * v + f < length scratch.old) }
    ensures { Stored v f x scratch.old scratch.new }
{
    scratch[8 * v + f] = x;
}

// All fields of the first nodes become 0.
pub fn clear(nodes: usize, scratch: &mut [u32])
    requires { (nodes ≤ 100000) × (8 * nodes ≤ length scratch.old) }
    ensures { Cleared nodes scratch.new }
{
    scratch[..8 * nodes].fill(0);
}
