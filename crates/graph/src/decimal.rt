// Numbers as decimal text.
ghost use Rattle.std.specs.Prelude.{◌≡◌, ◌+◌, ◌<◌, ◌≤◌, length};
ghost use Rattle.std.proofs.lemmas.List.Edits.{sets};
ghost use Rattle.graph.specs.Finite.{decimal};

// How many digits a number has.
pub fn length_of(n: u32) -> usize
    ensures { (result ≡ length (decimal n)) × (1 ≤ result) × (result ≤ 10) }
{
    let mut left = n;
    let mut k: usize = 1;
    while 10 <= left {
        left = left / 10;
        k += 1;
    }
    k
}

pub fn digit(d: u32) -> u8
    requires { d < 10 }
    ensures { result ≡ 48 + d }
{
    (48 + d) as u8
}

// Writes a number from place `at` on, and answers the place after it. As stores one after the other, so that texts
// written in a row are one text (the law `sets_append`).
pub fn put(buffer: &mut [u8], at: usize, n: u32) -> usize
    requires { at + length (decimal n) ≤ length buffer.old }
    ensures { (result ≡ at + length (decimal n)) × (buffer.new ≡ sets buffer.old at (decimal n)) }
{
    let end = at + length_of(n);
    let mut k = end;
    let mut left = n;
    while 10 <= left {
        k -= 1;
        buffer[k] = digit(left % 10);
        left = left / 10;
    }
    buffer[at] = digit(left);
    end
}
