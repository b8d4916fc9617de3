// Words of 64 places: those of the inputs in a block, those that are as wanted, and the first place that has a 1.
ghost use Rattle.std.specs.Prelude.{◌≡◌, ◌∷◌, [], ℕ, ◌*◌, ◌/◌, ◌%◌, ◌≤◌, ◌<◌, min};
ghost use Rattle.graph.specs.Finite.{tab};
ghost use Rattle.graph.specs.Literals.{bit};
ghost use Rattle.assignment.specs.Inner.{input_word, fits, FirstPlace};

// All ones where the bit of b that `power` stands for is 1, else all zeros.
fn all(b: u32, power: u32) -> u64
    requires { 1 ≤ power }
    ensures { result ≡ b / power % 2 * 18446744073709551615 }
{
    (b / power % 2) as u64 * u64::MAX
}

// The words of sixteen inputs in block b.
pub fn input_words(b: u32) -> [u64; 16]
    ensures { result ≡ tab 16 (input_word b) }
{
    [
        0xaaaaaaaaaaaaaaaa,
        0xcccccccccccccccc,
        0xf0f0f0f0f0f0f0f0,
        0xff00ff00ff00ff00,
        0xffff0000ffff0000,
        0xffffffff00000000,
        all(b, 1),
        all(b, 2),
        all(b, 4),
        all(b, 8),
        all(b, 16),
        all(b, 32),
        all(b, 64),
        all(b, 128),
        all(b, 256),
        all(b, 512),
    ]
}

// The places of a word that are as wanted.
fn fitting(word: u64, want: u8) -> u64
    requires { want ≤ 2 }
    ensures { (j : ℕ) → j < 64 → bit j result ≡ fits (bit j word) want }
{
    if want == 2 {
        return u64::MAX;
    }
    if want == 1 {
        return word;
    }
    word ^ u64::MAX
}

// Those among the places that are left.
pub fn narrowed(left: u64, word: u64, want: u8) -> u64
    requires { want ≤ 2 }
    ensures { (j : ℕ) → j < 64 → bit j result ≡ min (bit j left) (fits (bit j word) want) }
{
    left & fitting(word, want)
}

// The first place of a word that has a 1.
pub fn first_place(word: u64) -> u32
    requires { word ≡ 0 → ⊥ }
    ensures { FirstPlace word result }
{
    word.trailing_zeros()
}
