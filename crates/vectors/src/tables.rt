// The five slices of a graph, which a call may change.
use crate::{print, read};
use graph::Lent;
use graph::table::Table;
use std::io;

#[derive(Drop)]
pub struct Tables<'a> {
    pub node_table: &'a mut [u32],
    pub node_bits: &'a mut [u64],
    pub output_table: &'a mut [u32],
    pub output_bits: &'a mut [u64],
    pub locks: &'a mut [u8],
}

impl Tables<'_> {
    // So much of each slice as the input says.
    pub fn front(self, rt: &impl Input) -> Self {
        Tables {
            node_table: read::front_mut(rt, self.node_table),
            node_bits: read::front_mut(rt, self.node_bits),
            output_table: read::front_mut(rt, self.output_table),
            output_bits: read::front_mut(rt, self.output_bits),
            locks: read::front_mut(rt, self.locks),
        }
    }

    pub fn fill(&mut self, rt: &impl Input) {
        read::fill_words(rt, self.node_table);
        read::fill_longs(rt, self.node_bits);
        read::fill_words(rt, self.output_table);
        read::fill_longs(rt, self.output_bits);
        read::fill_bytes(rt, self.locks);
    }

    fn nodes(&self) -> Table<'_> {
        Table {
            indices: self.node_table,
            bits: self.node_bits,
        }
    }

    fn outputs(&self) -> Table<'_> {
        Table {
            indices: self.output_table,
            bits: self.output_bits,
        }
    }

    // A graph to read, of the numbers I, N and O that the input has for it.
    pub fn lent(&self, rt: &impl Input) -> Lent<'_> {
        Lent {
            inputs: read::word(rt),
            nodes: read::word(rt),
            outputs: read::word(rt),
            node_table: self.nodes(),
            output_table: self.outputs(),
            locks: self.locks,
        }
    }

    pub fn show(&self, rt: &impl Print) -> io::Result<()> {
        print::words(rt, self.node_table)?;
        print::longs(rt, self.node_bits)?;
        print::words(rt, self.output_table)?;
        print::longs(rt, self.output_bits)?;
        print::bytes(rt, self.locks)
    }
}
