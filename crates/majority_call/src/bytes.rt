// Truth values of three variables as bytes.
ghost use Rattle.std.specs.Prelude.{◌≡◌, ◌*◌, ◌%◌, ◌<◌, get_or};
ghost use Rattle.std.specs.Int.Bits.{bit_and, bit_or, bit_xor};
ghost use Rattle.hidden.specs.Class.{classes};

// The least truth value of each one's class, under input order, input complement and output complement.
const CLASS: [u8; 256] = [
    0, 1, 1, 3, 1, 3, 6, 7, 1, 6, 3, 7, 3, 7, 7, 15, 1, 3, 6, 7, 6, 7, 22, 23, 24, 25, 25, 27, 25,
    27, 30, 7, 1, 6, 3, 7, 24, 25, 25, 27, 6, 22, 7, 23, 25, 30, 27, 7, 3, 7, 7, 15, 25, 27, 30, 7,
    25, 30, 27, 7, 60, 25, 25, 3, 1, 6, 24, 25, 3, 7, 25, 27, 6, 22, 25, 30, 7, 23, 27, 7, 3, 7,
    25, 27, 7, 15, 30, 7, 25, 30, 60, 25, 27, 7, 25, 3, 6, 22, 25, 30, 25, 30, 60, 25, 22, 105, 30,
    22, 30, 22, 25, 6, 7, 23, 27, 7, 27, 7, 25, 3, 30, 22, 25, 6, 25, 6, 24, 1, 1, 24, 6, 25, 6,
    25, 22, 30, 3, 25, 7, 27, 7, 27, 23, 7, 6, 25, 22, 30, 22, 30, 105, 22, 25, 60, 30, 25, 30, 25,
    22, 6, 3, 25, 7, 27, 25, 60, 30, 25, 7, 30, 15, 7, 27, 25, 7, 3, 7, 27, 23, 7, 30, 25, 22, 6,
    27, 25, 7, 3, 25, 24, 6, 1, 3, 25, 25, 60, 7, 27, 30, 25, 7, 30, 27, 25, 15, 7, 7, 3, 7, 27,
    30, 25, 23, 7, 22, 6, 27, 25, 25, 24, 7, 3, 6, 1, 7, 30, 27, 25, 27, 25, 25, 24, 23, 22, 7, 6,
    7, 6, 3, 1, 15, 7, 7, 3, 7, 3, 6, 1, 7, 6, 3, 1, 3, 1, 1, 0,
];

pub fn class_of(byte: usize) -> u8
    requires { byte < 256 }
    ensures { result ≡ get_or classes byte 0 }
{
    CLASS[byte]
}

// The byte of a literal, from that of its index.
pub fn turned(byte: u32, literal: u32) -> u32
    ensures { result ≡ bit_xor byte (literal % 2 * 255) }
{
    byte ^ literal % 2 * 255
}

pub fn majority_byte(x: u32, y: u32, z: u32) -> u32
    ensures { result ≡ bit_or (bit_or (bit_and x y) (bit_and x z)) (bit_and y z) }
{
    x & y | x & z | y & z
}

pub fn exclusive_byte(x: u32, y: u32) -> u32
    ensures { result ≡ bit_xor x y }
{
    x ^ y
}
