// Numbers, lines and ANDs, put into a buffer one after another: each function answers the place after what it has put.
ghost use Rattle.std.specs.Prelude.{◌≡◌, [], ◌∷◌, ◌+◌, ◌≤◌, length};
ghost use Rattle.std.proofs.lemmas.List.Edits.{sets};
ghost use Rattle.aiger.specs.Export.{xor_gates, majority_gates, ended, threes, header};
ghost use Rattle.aiger_export.specs.Inner.{three_line};

use graph::decimal;
use graph::literal::turned;

// A number and a byte after it.
pub fn put_ended(buffer: &mut [u8], at: usize, n: u32, end: u8) -> usize
    requires { at + length (ended n end []) ≤ length buffer.old }
    ensures { (result ≡ at + length (ended n end [])) × (buffer.new ≡ sets buffer.old at (ended n end [])) }
{
    let middle = decimal::put(buffer, at, n);
    buffer[middle] = end;
    middle + 1
}

// A line of three numbers.
pub fn put_three(buffer: &mut [u8], at: usize, x: u32, y: u32, z: u32) -> usize
    requires { at + length (three_line x y z) ≤ length buffer.old }
    ensures { (result ≡ at + length (three_line x y z)) × (buffer.new ≡ sets buffer.old at (three_line x y z)) }
{
    let first = put_ended(buffer, at, x, b' ');
    let second = put_ended(buffer, first, y, b' ');
    put_ended(buffer, second, z, b'\n')
}

// The ANDs of an XOR of these literals, the first with index b.
pub fn put_xor(buffer: &mut [u8], at: usize, b: u32, x: u32, y: u32) -> usize
    requires { (b ≤ 500000) × (at + length (threes (xor_gates b x y)) ≤ length buffer.old) }
    ensures { (result ≡ at + length (threes (xor_gates b x y))) × (buffer.new ≡ sets buffer.old at (threes (xor_gates b x y))) }
{
    let a = 2 * b;
    let first = put_three(buffer, at, a, x, turned(1, y));
    let second = put_three(buffer, first, a + 2, turned(1, x), y);
    put_three(buffer, second, a + 4, a + 1, a + 3)
}

// The same of a majority.
pub fn put_majority(buffer: &mut [u8], at: usize, b: u32, x: u32, y: u32, z: u32) -> usize
    requires { (b ≤ 500000) × (at + length (threes (majority_gates b x y z)) ≤ length buffer.old) }
    ensures { (result ≡ at + length (threes (majority_gates b x y z))) × (buffer.new ≡ sets buffer.old at (threes (majority_gates b x y z))) }
{
    let a = 2 * b;
    let first = put_three(buffer, at, a, turned(1, y), turned(1, z));
    let second = put_three(buffer, first, a + 2, x, a + 1);
    let third = put_three(buffer, second, a + 4, y, z);
    put_three(buffer, third, a + 6, a + 3, a + 5)
}

// "aag ", at the front.
pub fn put_name(buffer: &mut [u8])
    requires { 4 ≤ length buffer.old }
    ensures { buffer.new ≡ sets buffer.old 0 (97 ∷ 97 ∷ 103 ∷ 32 ∷ []) }
{
    buffer[0] = b'a';
    buffer[1] = b'a';
    buffer[2] = b'g';
    buffer[3] = b' ';
}

// The first line: the largest index, the inputs, no latches, the outputs and the ANDs.
pub fn put_header(buffer: &mut [u8], inputs: u32, count: u32, outputs: u32) -> usize
    requires { (inputs ≤ 4096) × (count ≤ 400000) × (length (header inputs count outputs []) ≤ length buffer.old) }
    ensures { (result ≡ length (header inputs count outputs [])) × (buffer.new ≡ sets buffer.old 0 (header inputs count outputs [])) }
{
    put_name(buffer);
    let first = put_ended(buffer, 4, inputs + count, b' ');
    let second = put_ended(buffer, first, inputs, b' ');
    put_three(buffer, second, 0, outputs, count)
}
