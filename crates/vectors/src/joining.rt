// Two graphs joined into the lent slices. Both stand at the end of their case: for each of the first's five slices, and then of the second's,
// how many elements are given for its front, and these; the ten lengths; I, N and O of the first and of the second.
use crate::print;
use crate::tables::Tables;
use answers::told;
use std::io;

// The space of one graph to join.
#[derive(Drop)]
struct Space {
    node_table: [u32; 512],
    node_bits: [u64; 16],
    output_table: [u32; 128],
    output_bits: [u64; 16],
    locks: [u8; 256],
}

impl Space {
    fn new() -> Self {
        Space {
            node_table: [0; 512],
            node_bits: [0; 16],
            output_table: [0; 128],
            output_bits: [0; 16],
            locks: [0; 256],
        }
    }
}

pub fn join(rt: &(impl Input + Print), joined: &mut Tables) -> io::Result<()> {
    let mut first = Space::new();
    let mut second = Space::new();
    let mut first = Tables {
        node_table: &mut first.node_table,
        node_bits: &mut first.node_bits,
        output_table: &mut first.output_table,
        output_bits: &mut first.output_bits,
        locks: &mut first.locks,
    };
    let mut second = Tables {
        node_table: &mut second.node_table,
        node_bits: &mut second.node_bits,
        output_table: &mut second.output_table,
        output_bits: &mut second.output_bits,
        locks: &mut second.locks,
    };
    first.fill(rt);
    second.fill(rt);
    let first = first.front(rt);
    let second = second.front(rt);
    let answer = join::join(
        &first.lent(rt),
        &second.lent(rt),
        joined.node_table,
        joined.node_bits,
        joined.output_table,
        joined.output_bits,
        joined.locks,
    );
    print::answer(
        rt,
        told::refusal_number(&answer),
        told::loaded_told(answer, [0; 3]),
    )
}
