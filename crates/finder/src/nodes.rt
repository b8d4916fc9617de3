// The nodes of a graph, with how many inputs stand below them.
use graph::table::Table;

#[derive(Clone, Copy)]
pub struct Nodes<'a> {
    pub inputs: u32,
    pub nodes: u32,
    pub table: Table<'a>,
}
