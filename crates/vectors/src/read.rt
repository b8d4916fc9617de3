// Big-endian numbers from standard input. What is not there reads as 0.
use std::io::{Input, Read};

// Reads until the space is full, the input ends or a read fails. By hand, since `read_exact` does not say what it leaves where the input ends early.
fn fill_space<R: Read>(input: &mut R, space: &mut [u8]) {
    let mut done = 0;
    while done < space.len() {
        let n = input.read(&mut space[done..]).unwrap_or(0);
        if n == 0 {
            return;
        }
        done += n;
    }
}

// Inlined, so that the compiler need not clear a reader's whole buffer for each word.
#[inline(always)]
pub fn word(rt: &impl Input) -> u32 {
    let mut four = [0u8; 4];
    fill_space(&mut rt.reader(), &mut four);
    u32::from_be_bytes(four)
}

// A word of 64 bits, from two numbers.
fn long(rt: &impl Input) -> u64 {
    let mut eight = [0u8; 8];
    fill_space(&mut rt.reader(), &mut eight);
    u64::from_be_bytes(eight)
}

fn size(rt: &impl Input) -> usize {
    word(rt) as usize
}

// As many elements at the front of a slice as the input says, or all.
pub fn front<'a, T>(rt: &impl Input, space: &'a [T]) -> &'a [T] {
    &space[..size(rt).min(space.len())]
}

pub fn front_mut<'a, T>(rt: &impl Input, space: &'a mut [T]) -> &'a mut [T] {
    let end = size(rt).min(space.len());
    &mut space[..end]
}

// The bytes and words that the input has for the front of a slice, as many as it says. Bytes are read all at once.
pub fn fill_bytes(rt: &impl Input, space: &mut [u8]) {
    fill_space(&mut rt.reader(), front_mut(rt, space));
}

fn fill<T: Drop, R: Input, F: Fn(&R) -> T>(rt: &R, space: &mut [T], one: F)
    requires { F.IsAlwaysCallable one }
{
    for x in front_mut(rt, space) {
        *x = one(rt);
    }
}

pub fn fill_words(rt: &impl Input, space: &mut [u32]) {
    fill(rt, space, word);
}

pub fn fill_longs(rt: &impl Input, space: &mut [u64]) {
    fill(rt, space, long);
}
