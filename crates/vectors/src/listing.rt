// A list of calls on a file's graph, by one replay. The words given for the calls, the nodes and moves for many moves, and the lengths of
// these three, of scratch and of answers stand at the end of its case.
use crate::tables::Tables;
use crate::{print, read};
use std::io;

pub fn list(rt: &(impl Input + Print), file: &[u8], tables: &mut Tables) -> io::Result<()> {
    let mut calls = [0u32; 128];
    let mut list = [0u32; 128];
    let mut moves = [0u8; 128];
    let mut scratch = [77u32; 4096];
    let mut answers = [77i64; 192];
    read::fill_words(rt, &mut calls);
    read::fill_words(rt, &mut list);
    read::fill_bytes(rt, &mut moves);
    let calls = read::front(rt, &calls);
    let list = read::front(rt, &list);
    let moves = read::front(rt, &moves);
    let scratch = read::front_mut(rt, &mut scratch);
    let answers = read::front_mut(rt, &mut answers);
    let answer = replay::replay(
        file,
        calls,
        tables.node_table,
        tables.node_bits,
        tables.output_table,
        tables.output_bits,
        tables.locks,
        list,
        moves,
        scratch,
        answers,
    );
    match answer {
        Ok(sizes) => print::answer(rt, 0, [sizes.inputs, sizes.nodes, sizes.outputs])?,
        // A replay that was not made has the number 1 here, whatever refused it, and its scratch is shown.
        Err(_) => {
            print::answer(rt, 1, [0; 3])?;
            print::words(rt, scratch)?;
        }
    }
    print::size(rt, answers.len())
}
