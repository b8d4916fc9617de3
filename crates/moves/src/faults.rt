// Document 01's refusal 7 for an index that is no node's, and document 02's 15 and 16 for a move that a node cannot have.
ghost use Rattle.std.specs.Prelude.{◌≡◌, ℕ, ◌+◌, ◌<◌, ◌≤◌, List, length};
ghost use Rattle.graph.specs.Answer.{refusal_number};
ghost use Rattle.graph.specs.Finite.{if_less, if_equal};
ghost use Rattle.graph.specs.Graph.{graph_of};
ghost use Rattle.graph.specs.Inner.{Readable};
ghost use Rattle.moves.specs.Rows.{arity};
ghost use Rattle.moves.specs.Call.{node_fault, move_number};
ghost use Rattle.graph.specs.Tables.{lent_table};

use crate::rows;
use graph::Refusal;
use graph::table::Table;

pub fn check_node(inputs: u32, nodes: u32, node: u32) -> Result<(), Refusal>
    requires { (inputs ≤ 4096) × (nodes ≤ 100000) }
    ensures { (o : ℕ) (ns os : List ℕ) → refusal_number result ≡ node_fault (graph_of inputs nodes o ns os) node }
{
    if node <= inputs {
        return Err(Refusal::NoSuchNode);
    }
    if node < inputs + 1 + nodes {
        return Ok(());
    }
    Err(Refusal::NoSuchNode)
}

// Whether a kind has move m.
pub fn check_kind(xor: bool, m: u32) -> Result<(), Refusal>
    ensures { refusal_number result ≡ if_less m (arity xor) 0 15 }
{
    if m < 2 {
        return Ok(());
    }
    if 4 <= m {
        return Err(Refusal::NoSuchMove);
    }
    if xor {
        return Ok(());
    }
    Err(Refusal::NoSuchMove)
}

// A locked node has move 0 alone.
pub fn check_locked(lock: u8, m: u32) -> Result<(), Refusal>
    ensures { refusal_number result ≡ if_equal lock 1 (if_equal m 0 0 16) 0 }
{
    if lock != 1 {
        return Ok(());
    }
    if m == 0 {
        return Ok(());
    }
    Err(Refusal::LockedNode)
}

// Whether node v, counted from 0, can have move m: by its kind, then by its lock. Both are tested before either is told, so that nothing jumps by the
// move, which a processor could not foresee.
pub fn check_move(node_table: &Table, locks: &[u8], v: usize, m: u32) -> Result<(), Refusal>
    requires { Readable (lent_table node_table.now) v × (v < length locks.now) }
    ensures { let ns = lent_table node_table.now in
        ((i n o : ℕ) (os : List ℕ) → v < n → refusal_number result ≡ move_number (graph_of i n o ns os) locks.now (i + 1 + v) m) }
{
    let lacked = check_kind(rows::is_xor(node_table, v), m);
    let locked = check_locked(locks[v], m);
    lacked.and(locked)
}
