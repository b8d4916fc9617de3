// Each op: an entry called, and its answer printed. I, N and O stand at the end of a case whose entry is given them.
use crate::tables::Tables;
use crate::{joining, listing, print};
use answers::told;
use std::io;

pub enum Op {
    Admit,
    Count,
    Field,
    Load,
    Write,
    Join,
    List,
}

impl From<u32> for Op {
    fn from(number: u32) -> Op {
        match number {
            1 => Op::Admit,
            2 => Op::Count,
            3 => Op::Field,
            4 => Op::Load,
            5 => Op::Write,
            16 => Op::Join,
            _ => Op::List,
        }
    }
}

pub fn call(
    rt: &(impl Input + Print),
    op: Op,
    bytes: &mut [u8],
    tables: &mut Tables,
) -> io::Result<()> {
    match op {
        Op::Admit => admit(rt, tables),
        Op::Count => count(rt, tables),
        Op::Field => field(rt, bytes),
        Op::Load => load(rt, bytes, tables),
        Op::Write => write(rt, bytes, tables),
        Op::Join => joining::join(rt, tables),
        Op::List => listing::list(rt, bytes, tables),
    }
}

fn admit(rt: &(impl Input + Print), tables: &Tables) -> io::Result<()> {
    let answer = graph::admit_graph(&tables.lent(rt));
    print::answer(rt, told::refusal_number(&answer), [0; 3])
}

fn count(rt: &(impl Input + Print), tables: &Tables) -> io::Result<()> {
    let answer = graph::complemented_edges(&tables.lent(rt));
    print::answer(
        rt,
        told::refusal_number(&answer),
        [told::count_told(answer, 0), 0, 0],
    )
}

fn field(rt: &(impl Input + Print), bytes: &[u8]) -> io::Result<()> {
    print::bytes(rt, tagged_file::field(bytes))?;
    let answer = tagged_file::check_field(bytes);
    print::answer(rt, told::refusal_number(&answer), [0; 3])
}

fn load(rt: &(impl Input + Print), bytes: &[u8], tables: &mut Tables) -> io::Result<()> {
    let answer = tagged_file::load(
        bytes,
        tables.node_table,
        tables.node_bits,
        tables.output_table,
        tables.output_bits,
        tables.locks,
    );
    print::answer(
        rt,
        told::refusal_number(&answer),
        told::loaded_told(answer, [0; 3]),
    )
}

fn write(rt: &(impl Input + Print), buffer: &mut [u8], tables: &Tables) -> io::Result<()> {
    let answer = tagged_file::write(&tables.lent(rt), buffer);
    print::answer(rt, told::refusal_number(&answer), [0; 3])?;
    print::size(rt, told::written_told(answer, 0))
}
