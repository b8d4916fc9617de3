// The move of a node in a rising list, found by walking along it.
ghost use Rattle.std.specs.Prelude.{◌≡◌, ◌+◌, ◌≤◌, length};
ghost use Rattle.many.specs.Making.{Rises, Stands, chosen};

use graph::table::byte_at;

// The move of index u, which stands at place k or would stand there: one that the list does not name has move 0.
pub fn move_at(list: &[u32], bytes: &[u8], u: u32, k: usize) -> u32
    requires { Rises list.now × (length list.now ≤ length bytes.now) × Stands list.now u k }
    ensures { result ≡ chosen list.now bytes.now u }
{
    if k == list.len() {
        return 0;
    }
    if list[k] == u {
        return byte_at(bytes, k);
    }
    0
}

// Where the index after it stands.
pub fn next_place(list: &[u32], u: u32, k: usize) -> usize
    requires { Rises list.now × Stands list.now u k }
    ensures { Stands list.now (u + 1) result }
{
    if k == list.len() {
        return k;
    }
    if list[k] == u {
        return k + 1;
    }
    k
}
