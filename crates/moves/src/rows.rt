// Document 01's table of moves, and the kind of a node.
ghost use Rattle.std.specs.Prelude.{◌≡◌, ℕ, ◌+◌, ◌<◌, ◌≤◌, List, length};
ghost use Rattle.graph.specs.Graph.{graph_of, is_xor};
ghost use Rattle.graph.specs.Inner.{Readable};
ghost use Rattle.moves.specs.Rows.{arity, flag, moves_at};
ghost use Rattle.graph.specs.Tables.{lent_table};

use graph::table;
use graph::table::Table;

// Whether words 1 to 3, and every reader, are turned: a majority's two rows, then an XOR's four.
const ROWS: [[u32; 4]; 6] = [
    [0, 0, 0, 0],
    [1, 1, 1, 1],
    [0, 0, 0, 0],
    [1, 1, 0, 0],
    [1, 0, 0, 1],
    [0, 1, 0, 1],
];

// A third word that is the mark makes an XOR.
pub fn is_xor(node_table: &Table, v: usize) -> bool
    requires { Readable (lent_table node_table.now) v }
    ensures { (i n o : ℕ) (os : List ℕ) → result ≡ is_xor (graph_of i n o (lent_table node_table.now) os) v }
{
    let at = 3 * v + 2;
    node_table.is_mark_at(at)
}

// How many moves node v has: one where it is locked.
pub fn moves_at(node_table: &Table, locks: &[u8], v: usize) -> u32
    requires { Readable (lent_table node_table.now) v × (v < length locks.now) }
    ensures { let ns = lent_table node_table.now in
        ((i n o : ℕ) (os : List ℕ) → v < n → result ≡ moves_at (graph_of i n o ns os) locks.now (i + 1 + v)) }
{
    if locks[v] == 1 {
        return 1;
    }
    if is_xor(node_table, v) {
        return 4;
    }
    2
}

// Whether move m of a kind turns word k + 1, or every reader (k = 3).
pub fn flag_of(xor: bool, m: u32, k: usize) -> u32
    requires { (m < arity xor) × (k < 4) }
    ensures { (result ≡ flag xor m k) × (result ≤ 1) }
{
    let row = 2 * xor as usize + m as usize;
    ROWS[row][k]
}
