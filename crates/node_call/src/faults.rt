// What refuses a node or pair call, and a trial.
ghost use Rattle.std.specs.Prelude.{◌≡◌, cond, ◌&&◌, List, ℕ, ◌+◌, ◌≤◌, ◌<◌, leb, length};
ghost use Rattle.graph.specs.Answer.{refusal_number};
ghost use Rattle.graph.specs.Finite.{first};
ghost use Rattle.graph.specs.Graph.{graph_of};
ghost use Rattle.graph.specs.Inner.{Readable};
ghost use Rattle.moves.specs.Call.{is_node, move_number, node_number, pair_number, trial_number};
ghost use Rattle.graph.specs.Tables.{lent_graph, lent_table};

use crate::rewrite;
use graph::faults::check_admission;
use graph::table::Table;
use graph::{Lent, Refusal};
use moves::faults::check_move;
use moves::rows;

pub fn check_node(lent: &Lent, node: u32) -> Result<(), Refusal>
    ensures { let g = lent_graph lent.now in
        refusal_number result ≡ node_number g lent.now.locks.now node }
{
    check_admission(lent)?;
    moves::faults::check_node(lent.inputs, lent.nodes, node)
}

// A majority has three words, an XOR two.
pub fn check_word(xor: bool, word: u32) -> Result<(), Refusal>
    ensures { refusal_number result ≡ cond (leb 1 word && leb word (cond xor 2 3)) 0 7 }
{
    if word < 1 {
        return Err(Refusal::NoSuchNode);
    }
    if word <= 2 {
        return Ok(());
    }
    if xor {
        return Err(Refusal::NoSuchNode);
    }
    if word == 3 {
        return Ok(());
    }
    Err(Refusal::NoSuchNode)
}

pub fn check_pair(lent: &Lent, node: u32, word: u32) -> Result<(), Refusal>
    ensures { let g = lent_graph lent.now in
        refusal_number result ≡ pair_number g lent.now.locks.now node word }
{
    check_node(lent, node)?;
    let v = node - (lent.inputs + 1);
    check_word(rows::is_xor(&lent.node_table, v as usize), word)
}

// Of move a at the index `named`, where it is a node's, and then of move m at the node above it.
pub fn check_moves(
    inputs: u32,
    node_table: &Table,
    locks: &[u8],
    named: u32,
    node: u32,
    a: u32,
    m: u32,
) -> Result<(), Refusal>
    requires { let l = lent_table node_table.now in
        (inputs < node) × (node ≤ 200000) × (named < node) × ((v : ℕ) → inputs + 1 + v ≤ node → Readable l v × (v < length locks.now)) }
    ensures { let l = lent_table node_table.now in
        let ls = locks.now in
        ((n o : ℕ) (os : List ℕ) → node < inputs + 1 + n → let g = graph_of inputs n o l os in refusal_number result ≡ first (cond (is_node g named) (move_number g ls named a) 0) (move_number g ls node m)) }
{
    if inputs < named {
        let p = named - (inputs + 1);
        check_move(node_table, locks, p as usize, a)?;
    }
    let v = node - (inputs + 1);
    check_move(node_table, locks, v as usize, m)
}

pub fn check_trial(lent: &Lent, node: u32, word: u32, a: u32, m: u32) -> Result<(), Refusal>
    ensures { let g = lent_graph lent.now in
        refusal_number result ≡ trial_number g lent.now.locks.now node word a m }
{
    check_pair(lent, node, word)?;
    let named = rewrite::named_by(lent.inputs, &lent.node_table, node, word);
    check_moves(lent.inputs, &lent.node_table, lent.locks, named, node, a, m)
}
