// Signed numbers, made once from two counts.
ghost use Rattle.std.specs.Prelude.{◌≡◌, ◌<◌, pos, unsigned_abs};
ghost use Rattle.graph.specs.Finite.{difference};

// a less b.
pub fn less(a: u64, b: u64) -> i64
    requires { (a < 9223372036854775808) × (b < 9223372036854775808) }
    ensures { result ≡ difference a b }
{
    let x = a as i64;
    let y = b as i64;
    x - y
}

// A signed number that is not negative, as a count.
pub fn count_of(x: i64) -> u32
    requires { (x ≡ pos (unsigned_abs x)) × (unsigned_abs x < 4294967296) }
    ensures { result ≡ unsigned_abs x }
{
    x as u32
}
