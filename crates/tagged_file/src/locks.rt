// Lock bytes: a byte a node, 1 for locked and 0 for free.
ghost use Rattle.std.specs.Prelude.{◌≡◌, ◌≤◌, length};
ghost use Rattle.tagged_file.specs.Load.{free_locks};

// Frees every node.
pub fn free(locks: &mut [u8], nodes: u32)
    requires { nodes ≤ length locks.old }
    ensures { locks.new ≡ free_locks nodes locks.old }
{
    locks[..nodes as usize].fill(0);
}
