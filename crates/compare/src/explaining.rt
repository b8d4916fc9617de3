// Two graphs of the same sizes compared: their indices, then their complement bits.
ghost use Rattle.std.specs.Prelude.{◌≡◌, ◌-◌, ◌*◌, ◌≤◌, [], ◌∷◌, length};
ghost use Rattle.graph.specs.Admission.{Admitted};
ghost use Rattle.graph.specs.Answer.{accepted};
ghost use Rattle.graph.specs.Finite.{if_less};
ghost use Rattle.compare.specs.Compare.{compared, difference_told, words_compared};
ghost use Rattle.compare.specs.Telling.{apart, beside, explained};
ghost use Rattle.graph.specs.Tables.{lent_graph};

use crate::{Comparison, indices, telling};
use graph::Lent;

// Words for a bit of each index that a graph can have, as many moves together note them.
const SEEN: usize = 1627;

// A place of both tables in a row at which an index differs.
fn index_told(nodes: u32, place: usize) -> Comparison
    requires { (nodes ≤ 100000) × (place ≤ 1000000) }
    ensures { accepted (difference_told result) ≡ if_less place (3 * nodes) (accepted (2 ∷ place ∷ [])) (accepted (3 ∷ (place - 3 * nodes) ∷ [])) }
{
    let end = 3 * nodes as usize;
    if place < end {
        return Comparison::NodeIndex(place as u32);
    }
    Comparison::OutputIndex((place - end) as u32)
}

// Two graphs of one wiring: the moves that lead from the first to the second, or the first place that none explain.
fn explain(first: &Lent, second: &Lent, moves: &mut [u8]) -> Comparison
    requires { let ns = second.now.node_table.bits.now in
        let os = second.now.output_table.bits.now in
        Admitted (lent_graph first.now) × (3 * first.now.nodes ≤ 64 * length ns) × (first.now.outputs ≤ 64 * length os) × (first.now.nodes ≤ length moves.old) }
    ensures { let g = lent_graph first.now in
        let ns = second.now.node_table.bits.now in
        let os = second.now.output_table.bits.now in
        compared (accepted (difference_told result)) moves.new ≡ explained g (apart g.nodes ns) (apart g.outputs os) moves.old }
{
    let mut seen = [0u64; SEEN];
    let k = telling::tell_nodes(first, second.node_table.bits, &mut seen);
    if k < 3 * first.nodes as usize {
        return Comparison::NodeBit(k as u32);
    }
    let j = telling::tell_outputs(first, second.output_table.bits, &seen);
    if j < first.outputs as usize {
        return Comparison::OutputBit(j as u32);
    }
    telling::fill_moves(first, second.node_table.bits, &seen, moves);
    Comparison::Moves
}

pub fn compare_words(first: &Lent, second: &Lent, moves: &mut [u8]) -> Comparison
    requires { Admitted (lent_graph first.now) × Admitted (beside first.now second.now) × (first.now.nodes ≤ length moves.old) }
    ensures { compared (accepted (difference_told result)) moves.new ≡ words_compared (lent_graph first.now) (beside first.now second.now) moves.old }
{
    let place = indices::wired_to(first, second);
    if place < 3 * first.nodes as usize + first.outputs as usize {
        return index_told(first.nodes, place);
    }
    explain(first, second, moves)
}
