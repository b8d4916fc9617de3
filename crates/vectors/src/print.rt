// Numbers on standard output. A slice is shown by its length and a checksum.
use graph::Refusal;
use std::io;

fn put(rt: &impl Print, n: u64) -> io::Result<()> {
    print!(rt; "{n} ")
}

pub fn size(rt: &impl Print, n: usize) -> io::Result<()> {
    put(rt, n as u64)
}

// An answer: its number, 0 for accepted, and its values, 0 where it has none.
pub fn answer(rt: &impl Print, number: u32, values: [u32; 3]) -> io::Result<()> {
    put(rt, u64::from(number))?;
    for value in values {
        put(rt, u64::from(value))?;
    }
    Ok(())
}

pub fn end_line(rt: &impl Print) -> io::Result<()> {
    println!(rt; "")
}

fn mix(sum: u64, word: u32) -> u64 {
    (sum % 4294967291 * 16777619 + u64::from(word)) % 4294967291
}

// The upper half first.
fn mix_long(sum: u64, long: u64) -> u64 {
    mix(
        mix(sum, (long / 4294967296) as u32),
        (long % 4294967296) as u32,
    )
}

fn slice<T: Copy, F: Fn(u64, T) -> u64>(rt: &impl Print, elements: &[T], mix: F) -> io::Result<()>
    requires { F.IsAlwaysCallable mix }
{
    size(rt, elements.len())?;
    let mut sum = 0;
    for element in elements {
        sum = mix(sum, *element);
    }
    put(rt, sum)
}

pub fn bytes(rt: &impl Print, bytes: &[u8]) -> io::Result<()> {
    slice(rt, bytes, |sum, byte| mix(sum, u32::from(byte)))
}

pub fn words(rt: &impl Print, words: &[u32]) -> io::Result<()> {
    slice(rt, words, mix)
}

pub fn longs(rt: &impl Print, longs: &[u64]) -> io::Result<()> {
    slice(rt, longs, mix_long)
}
