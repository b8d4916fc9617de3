// Runs the entries on cases from standard input and prints a line of decimal numbers for each; the reference
// in rust/reference writes the cases and, from its own answers, the lines that are due.
//
// A case is big-endian numbers of four bytes: 1; the lengths of the bytes, the node table, its bits, the output table, its bits and the
// locks; then for each of these six in turn how many elements are given for its front, and these; the op, and what it reads by itself.
// A word of bits is two numbers, the upper half first.
#![tactic(auto)]

mod joining;
mod listing;
mod ops;
mod print;
mod read;
mod tables;

use ops::Op;
use std::io;
use tables::Tables;

// Reads and runs one case, and answers whether there was one.
fn run_case(rt: &(impl Input + Print)) -> io::Result<bool> {
    if read::word(rt) == 0 {
        return Ok(false);
    }
    let mut bytes = [165u8; 65536];
    let mut node_table = [0u32; 4096];
    let mut node_bits = [0u64; 72];
    let mut output_table = [0u32; 4352];
    let mut output_bits = [0u64; 72];
    let mut locks = [0u8; 2048];
    let bytes = read::front_mut(rt, &mut bytes);
    let mut tables = Tables {
        node_table: read::front_mut(rt, &mut node_table),
        node_bits: read::front_mut(rt, &mut node_bits),
        output_table: read::front_mut(rt, &mut output_table),
        output_bits: read::front_mut(rt, &mut output_bits),
        locks: read::front_mut(rt, &mut locks),
    };
    read::fill_bytes(rt, bytes);
    tables.fill(rt);
    ops::call(rt, Op::from(read::word(rt)), bytes, &mut tables)?;
    print::bytes(rt, bytes)?;
    tables.show(rt)?;
    print::end_line(rt)?;
    Ok(true)
}

// The language wants an end of every loop, so the cases are at most a million.
fn main(rt: HostRuntime) -> io::Result<()> {
    for _ in 0..1000000 {
        if !run_case(&rt)? {
            return Ok(());
        }
    }
    Ok(())
}
