// The bits of a node's field 2.
ghost use Rattle.std.specs.Prelude.{◌≡◌, ℕ, ◌+◌, ◌%◌, ◌≤◌, ◌<◌};
ghost use Rattle.graph.specs.Literals.{bit};
ghost use Rattle.graph.specs.Turned.{only};

// Bit k of a word.
pub fn bit_of(w: u32, k: usize) -> u32
    requires { k < 32 }
    ensures { (result ≡ bit k w) × (result ≤ 1) }
{
    (w >> k) % 2
}

// The word with bit k changed.
pub fn flipped(w: u32, k: usize) -> u32
    requires { k < 32 }
    ensures { (m : ℕ) → bit m result ≡ (bit m w + only k 1 m) % 2 }
{
    w ^ (1 << k)
}
