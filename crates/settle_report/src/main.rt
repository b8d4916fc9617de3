// Reads a tagged file on standard input, settles its graph and prints the report. Reading goes on after a short read and
// stops at 65,536 bytes, which are then the whole file; where it fails, what was read until then is.
#![tactic(auto)]

ghost use Rattle.std.specs.Prelude.{◌≤◌, length};

use std::io;
use std::io::{Input, Read, Write};

// Reads until the file is full, the input ends or a read fails, and answers how many bytes it read.
// A loop by hand, as there is no heap: `read_to_end` reads into a Vec, and `read_exact` does not tell how much a short input has.
fn read_file<R: Read>(input: &mut R, file: &mut [u8]) -> usize
    ensures { result ≤ length file.new }
{
    let mut done = 0;
    while done < file.len() {
        let n = input.read(&mut file[done..]).unwrap_or(0);
        if n == 0 {
            return done;
        }
        done += n;
    }
    done
}

// Prints the report of a file. The tables and the locks have room for 2,000 nodes and 4,096 outputs, the scratch is what settling such a
// graph needs, and the buffer has room for any report of it.
fn print_report(rt: &impl Print, file: &[u8]) -> io::Result<()> {
    let mut node_table = [0u32; 6000];
    let mut node_bits = [0u64; 94];
    let mut output_table = [0u32; 4096];
    let mut output_bits = [0u64; 64];
    let mut locks = [0u8; 2000];
    let mut scratch = [0u32; 16000];
    let mut buffer = [0u8; 181856];
    let Ok(n) = report::report(
        file,
        &mut node_table,
        &mut node_bits,
        &mut output_table,
        &mut output_bits,
        &mut locks,
        &mut scratch,
        &mut buffer,
    ) else {
        return Ok(());
    };
    io::writer(rt).write_all(&buffer[..n])
}

fn main(rt: HostRuntime) -> io::Result<()> {
    let mut file = [0u8; 65536];
    let n = read_file(&mut rt.reader(), &mut file);
    print_report(&rt, &file[..n])
}
