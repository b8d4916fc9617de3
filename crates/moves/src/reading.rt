// The readers of an index, and how many of them are complemented.
ghost use Rattle.std.specs.Prelude.{◌≡◌, ◌+◌, ◌*◌, ◌<◌, ◌≤◌, length};
ghost use Rattle.graph.specs.Admission.{Admitted};
ghost use Rattle.graph.specs.Literals.{held};
ghost use Rattle.moves.specs.Decide.{Tallied, Read, numbers_of};
ghost use Rattle.graph.specs.Tables.{lent_graph, lent_table};

use crate::decide::NodeNumbers;
use crate::{rows, words};
use graph::table::Table;
use graph::{Lent, table};

// How many words of a table name an index, and how many of these are complemented.
#[derive(Clone, Copy)]
pub struct Tally {
    pub count: u32,
    pub odd: u32,
}

// The readers of an index: all, those in the node table, and how many of all are complemented.
#[derive(Clone, Copy)]
pub struct Readers {
    pub all: u32,
    pub in_nodes: u32,
    pub odd: u32,
}

// A tally of the words before place j, with the word there: its bit is looked at only where it names the index.
fn tally_at(table: &Table, j: usize, u: u32, t: Tally) -> Tally
    requires { let l = lent_table table.now in
        (j < held l) × (j < 300000) × (u < 2147483647) × Tallied l j u t.count t.odd }
    ensures { Tallied (lent_table table.now) (j + 1) u result.count result.odd }
{
    if table.index_at(j) == u {
        return Tally {
            count: t.count + 1,
            odd: t.odd + table.odd_at(j),
        };
    }
    t
}

pub fn count_names(table: &Table, n: usize, u: u32) -> Tally
    requires { (n ≤ held (lent_table table.now)) × (n ≤ 300000) × (u < 2147483647) }
    ensures { Tallied (lent_table table.now) n u result.count result.odd }
{
    let mut t = Tally { count: 0, odd: 0 };
    for j in 0..n {
        t = tally_at(table, j, u, t);
    }
    t
}

pub fn readers_of(lent: &Lent, u: u32) -> Readers
    requires { let ns = lent_table lent.now.node_table in
        let os = lent_table lent.now.output_table in
        (lent.now.nodes ≤ 100000) × (lent.now.outputs ≤ 4096) × (3 * lent.now.nodes ≤ held ns) × (lent.now.outputs ≤ held os) × (u < 2147483647) }
    ensures { Read (lent_graph lent.now) u result.all result.in_nodes result.odd }
{
    let a = count_names(&lent.node_table, 3 * lent.nodes as usize, u);
    let b = count_names(&lent.output_table, lent.outputs as usize, u);
    Readers {
        all: a.count + b.count,
        in_nodes: a.count,
        odd: a.odd + b.odd,
    }
}

// The numbers of node v.
pub fn numbers_of(lent: &Lent, v: u32) -> NodeNumbers
    requires { Admitted (lent_graph lent.now) × (v < lent.now.nodes) × (lent.now.nodes ≤ length lent.now.locks.now) }
    ensures { result ≡ numbers_of (lent_graph lent.now) lent.now.locks.now v }
{
    let at = v as usize;
    let all = readers_of(lent, lent.inputs + 1 + v);
    NodeNumbers {
        xor: rows::is_xor(&lent.node_table, at),
        moves: rows::moves_at(&lent.node_table, lent.locks, at),
        costs: words::own_costs(&lent.node_table, at),
        readers: all.all,
        odd: all.odd,
    }
}
