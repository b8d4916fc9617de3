// What refuses a tree call.
ghost use Rattle.std.specs.Prelude.{◌≡◌, List, ℕ, ◌+◌, ◌*◌, ◌≤◌, ◌<◌};
ghost use Rattle.graph.specs.Graph.{graph_of};
ghost use Rattle.graph.specs.Admission.{Admitted};
ghost use Rattle.graph.specs.Answer.{refusal_number};
ghost use Rattle.moves.specs.Call.{root_fault, scratch_fault, tree_number};
ghost use Rattle.graph.specs.Tables.{lent_graph};

use graph::faults::check_admission;
use graph::{Lent, Refusal};
use moves::faults::check_node;
use moves::reading::readers_of;

// A node is a root unless it has just one reader and that reader is in the node table.
pub fn check_root(lent: &Lent, root: u32) -> Result<(), Refusal>
    requires { Admitted (lent_graph lent.now) × (root < lent.now.inputs + 1 + lent.now.nodes) }
    ensures { let g = lent_graph lent.now in
        refusal_number result ≡ root_fault g root }
{
    let r = readers_of(lent, root);
    if r.all != 1 {
        return Ok(());
    }
    if r.in_nodes != 1 {
        return Ok(());
    }
    Err(Refusal::NoSuchNode)
}

pub fn check_scratch(nodes: u32, length: usize) -> Result<(), Refusal>
    requires { nodes ≤ 100000 }
    ensures { (i o : ℕ) (ns os : List ℕ) → refusal_number result ≡ scratch_fault (graph_of i nodes o ns os) length }
{
    if length < 8 * nodes as usize {
        return Err(Refusal::ShortScratch);
    }
    Ok(())
}

pub fn check_tree(lent: &Lent, root: u32, length: usize) -> Result<(), Refusal>
    ensures { let g = lent_graph lent.now in
        refusal_number result ≡ tree_number g lent.now.locks.now length root }
{
    check_admission(lent)?;
    check_node(lent.inputs, lent.nodes, root)?;
    check_root(lent, root)?;
    check_scratch(lent.nodes, length)
}
