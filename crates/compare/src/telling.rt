// Moves told by the words of nodes that differ in two graphs of one wiring. A node's words name indices below its own, so that it is known by rising index of
// each of them whether its readers are turned; words 1 and 2 then tell the node's move. Loops go by place, since only crate graph reads a table's slice.
ghost use Rattle.std.specs.Prelude.{◌≡◌, Bool, cond, false, ℕ, ◌+◌, ◌*◌, ◌%◌, ◌≤◌, ◌<◌, eqb, length, get_or};
ghost use Rattle.graph.specs.Admission.{Admitted};
ghost use Rattle.graph.specs.Finite.{tab, if_less};
ghost use Rattle.graph.specs.Graph.{index, is_xor};
ghost use Rattle.graph.specs.Literals.{bit_at, held};
ghost use Rattle.graph.specs.Turned.{only};
ghost use Rattle.moves.specs.Rows.{flag};
ghost use Rattle.many.specs.Making.{Noted, bare};
ghost use Rattle.order.specs.Inner.{tells};
ghost use Rattle.compare.specs.Compare.{passing};
ghost use Rattle.compare.specs.Telling.{apart, own_turn, told, fits, unfit};
ghost use Rattle.graph.specs.Tables.{lent_table};

use graph::table::Table;
use graph::{Lent, table};
use many::making;
use moves::rows;

// How often, by twos, the word at place j is to be turned by its own node's move.
fn own_turn(table: &Table, second_bits: &[u64], seen: &[u64], j: usize) -> u32
    requires { let l = lent_table table.now in
        (j < held l) × (index (get_or l j 0) < 104128) × (j < 64 * length second_bits.now) × (length seen.now ≡ 1627) }
    ensures { let l = lent_table table.now in
        (result ≡ own_turn seen.now l second_bits.now j) × (result ≤ 1) }
{
    let f = (table.odd_at(j) + table::bit_at(second_bits, j)) % 2;
    making::turns_at(table, seen, j, f) % 2
}

// x for an XOR, else y. What stands below goes through it, so that nothing jumps by the kind, which a processor could not foresee.
fn either<T: Copy>(xor: bool, x: T, y: T) -> T
    ensures { result ≡ cond xor x y }
{
    if xor {
        return x;
    }
    y
}

// Whether a node's readers are turned, where words 1 and 2 are to be turned x and y times.
fn readers_turn(xor: bool, x: u32, y: u32) -> u32
    requires { (x ≤ 1) × (y ≤ 1) }
    ensures { (result ≡ flag xor (tells xor x y) 3) × (result ≤ 1) }
{
    (x + either(xor, y, 0)) % 2
}

// The first word that no move of the kind turns so: 1 or 2.
fn unfit_word(xor: bool, x: u32, y: u32, z: u32) -> Option<usize>
    ensures { result ≡ unfit xor x y z }
{
    if x != either(xor, x, y) {
        return Some(1);
    }
    if x != either(xor, x, z) {
        return Some(2);
    }
    None
}

// The same of node v; and it is noted whether the node's readers are turned.
fn tell_node(first: &Lent, second_bits: &[u64], seen: &mut [u64], v: u32) -> Option<usize>
    requires { let l = lent_table first.now.node_table in
        Admitted (bare first.now.inputs first.now.nodes l) × (v < first.now.nodes) × (3 * first.now.nodes ≤ 64 * length second_bits.now) × (length seen.old ≡ 1627) }
    ensures { let l = lent_table first.now.node_table in
        let x = is_xor (bare first.now.inputs first.now.nodes l) v in
        let t : ℕ → ℕ = λ k. own_turn seen.old l second_bits.now (3 * v + k) in
        (result ≡ unfit x (t 0) (t 1) (t 2)) × ((w : ℕ) → bit_at seen.new w ≡ (bit_at seen.old w + only (first.now.inputs + 1 + v) (flag x (tells x (t 0) (t 1)) 3) w) % 2) }
{
    let at = 3 * v as usize;
    let xor = rows::is_xor(&first.node_table, v as usize);
    let x = own_turn(&first.node_table, second_bits, seen, at);
    let y = own_turn(&first.node_table, second_bits, seen, at + 1);
    let third = either(xor, at, at + 2);
    let z = own_turn(&first.node_table, second_bits, seen, third);
    making::note(
        seen,
        (first.inputs + 1 + v) as usize,
        readers_turn(xor, x, y),
    );
    unfit_word(xor, x, y, z)
}

// How many words of the nodes are turned as they are to be by the moves that are told, from the front on.
pub fn tell_nodes(first: &Lent, second_bits: &[u64], seen: &mut [u64]) -> usize
    requires { let g = bare first.now.inputs first.now.nodes (lent_table first.now.node_table) in
        Admitted g × (3 * first.now.nodes ≤ 64 * length second_bits.now) × ((d : ℕ → ℕ) → Noted g d seen.old (first.now.inputs + 1)) }
    ensures { let l = lent_table first.now.node_table in
        let g = bare first.now.inputs first.now.nodes l in
        let w = apart l second_bits.now in
        (result ≡ passing (3 * first.now.nodes) (fits g w (told g w))) × (result ≡ 3 * first.now.nodes → Noted g (told g w) seen.new (first.now.inputs + 1 + first.now.nodes)) }
{
    for v in 0..first.nodes {
        if let Some(word) = tell_node(first, second_bits, seen, v) {
            return 3 * v as usize + word;
        }
    }
    3 * first.nodes as usize
}

// The same of the outputs, which no move turns but those of the nodes that they name.
pub fn tell_outputs(first: &Lent, second_bits: &[u64], seen: &[u64]) -> usize
    requires { let l = lent_table first.now.output_table in
        (first.now.outputs ≤ held l) × ((j : ℕ) → j < first.now.outputs → index (get_or l j 0) < 104128) × (first.now.outputs ≤ 64 * length second_bits.now) × (length seen.now ≡ 1627) }
    ensures { let l = lent_table first.now.output_table in
        result ≡ passing first.now.outputs (λ j. eqb (own_turn seen.now l second_bits.now j) 0) }
{
    let end = first.outputs as usize;
    for j in 0..end {
        if own_turn(&first.output_table, second_bits, seen, j) != 0 {
            return j;
        }
    }
    end
}

// The move of a kind that turns words 1 and 2 x and y times.
fn move_told(xor: bool, x: u32, y: u32) -> u8
    requires { (x ≤ 1) × (y ≤ 1) }
    ensures { result ≡ tells xor x y }
{
    if xor {
        return (2 * ((x + y) % 2) + y) as u8;
    }
    x as u8
}

// The moves told, once it is noted of every index whether its readers are turned.
pub fn fill_moves(first: &Lent, second_bits: &[u64], seen: &[u64], moves: &mut [u8])
    requires { let l = lent_table first.now.node_table in
        Admitted (bare first.now.inputs first.now.nodes l) × (3 * first.now.nodes ≤ 64 * length second_bits.now) × (length seen.now ≡ 1627) × (first.now.nodes ≤ length moves.old) }
    ensures { let l = lent_table first.now.node_table in
        let t : ℕ → ℕ = own_turn seen.now l second_bits.now in
        let bs = moves.old in
        moves.new ≡ tab (length bs) (λ v. if_less v first.now.nodes (tells (is_xor (bare first.now.inputs first.now.nodes l) v) (t (3 * v)) (t (3 * v + 1))) (get_or bs v 0)) }
{
    for v in 0..first.nodes as usize {
        let at = 3 * v;
        let x = own_turn(&first.node_table, second_bits, seen, at);
        let y = own_turn(&first.node_table, second_bits, seen, at + 1);
        let xor = rows::is_xor(&first.node_table, v);
        moves[v] = move_told(xor, x, y);
    }
}
