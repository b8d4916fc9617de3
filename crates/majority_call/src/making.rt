// A node made the majority of three indices, by its truth value over them.
ghost use Rattle.std.specs.Prelude.{◌≡◌, true, ◌+◌, ◌*◌, ◌/◌, ◌%◌, ◌≤◌, ◌<◌, set};
ghost use Rattle.graph.specs.Literals.{bit, literals, held};
ghost use Rattle.hidden.specs.Majority.{is_majority, complements};

use crate::bytes::class_of;
use graph::table::set_word;

// Whether a byte is of majority's class.
pub fn is_majority(byte: u32) -> bool
    requires { byte < 256 }
    ensures { result ≡ is_majority byte }
{
    class_of(byte as usize) == 23
}

// Which of the three are complemented, as bits.
pub fn complements_of(byte: u32) -> u32
    requires { (byte < 256) × (is_majority byte ≡ true) }
    ensures { (result ≡ complements byte) × (result < 8) }
{
    match byte {
        232 => 0,
        212 => 1,
        178 => 2,
        113 => 3,
        142 => 4,
        77 => 5,
        43 => 6,
        _ => 7,
    }
}

// Stores the three literals at node v.
pub fn make(
    node_table: &mut [u32],
    node_bits: &mut [u64],
    v: usize,
    one: u32,
    two: u32,
    three: u32,
    c: u32,
)
    requires { let l = literals node_table.old node_bits.old in
        (v < 100000) × (3 * v + 3 ≤ held l) × (one < 200000) × (two < 200000) × (three < 200000) × (c < 8) }
    ensures { let l = literals node_table.old node_bits.old in
        let m = literals node_table.new node_bits.new in
        m ≡ set (set (set l (3 * v) (2 * one + bit 0 c)) (3 * v + 1) (2 * two + bit 1 c)) (3 * v + 2) (2 * three + bit 2 c) }
{
    let at = 3 * v;
    set_word(node_table, node_bits, at, 2 * one + c % 2);
    set_word(node_table, node_bits, at + 1, 2 * two + c / 2 % 2);
    set_word(node_table, node_bits, at + 2, 2 * three + c / 4 % 2);
}
