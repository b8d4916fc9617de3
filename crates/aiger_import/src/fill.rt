// The fill pass, over lines that the check pass accepts.
ghost use Rattle.std.specs.Prelude.{◌≡◌, List, [], ◌∷◌, ℕ, ◌+◌, ◌*◌, ◌≤◌, ◌<◌, length, drop};
ghost use Rattle.graph.specs.Finite.{tab};
ghost use Rattle.graph.specs.Inner.{begun, word_put, words_put};
ghost use Rattle.graph.specs.Literals.{held, literals, filled};
ghost use Rattle.aiger.specs.Lines.{number, skip, number_at};
ghost use Rattle.aiger.specs.Import.{gate_word};
ghost use Rattle.aiger_import.specs.Reading.{Ones, OutputLine, OutputLines, GateLine, GateLines};

use crate::lines::known_number;
use graph::table::{put_last, put_three, put_word};

// What follows so many lines of one number.
pub fn after_ones<'a>(rest: &'a [u8], lines: u32) -> &'a [u8]
    requires { Ones lines rest.now }
    ensures { result.now ≡ skip lines rest.now }
{
    let mut s = rest;
    for k in 0..lines {
        let size = known_number(s).size;
        s = &s[size..];
    }
    s
}

// A line whose words are put: its bytes, and the bits that are gathered then.
#[derive(Clone, Copy)]
pub struct Put {
    pub size: usize,
    pub got: u64,
}

// Puts the literal of the output at the front at place j.
pub fn fill_output(
    s: &[u8],
    j: usize,
    got: u64,
    output_table: &mut [u32],
    output_bits: &mut [u64],
) -> Put
    requires { OutputLine s.now × (j < held (literals output_table.old output_bits.old)) }
    ensures { let before = literals output_table.old (begun j got output_bits.old) in
        let after = literals output_table.new (begun (j + 1) result.got output_bits.new) in
        ((result.size ≤ length s.now) × (drop result.size s.now ≡ skip 1 s.now)) × (after ≡ word_put j (number s.now) before) }
{
    let x = known_number(s);
    let got = put_word(output_table, output_bits, j, got, x.value);
    Put { size: x.size, got }
}

// Fills the output table; returns what follows the outputs.
pub fn fill_outputs<'a>(
    rest: &'a [u8],
    outputs: u32,
    output_table: &mut [u32],
    output_bits: &mut [u64],
) -> &'a [u8]
    requires { OutputLines outputs rest.now × (outputs ≤ held (literals output_table.old output_bits.old)) }
    ensures result_value { result.now ≡ skip outputs rest.now }
    ensures output_bits_after { let os = literals output_table.old output_bits.old in
        literals output_table.new output_bits.new ≡ filled (tab outputs (number_at rest.now)) os }
{
    let mut s = rest;
    let end = outputs as usize;
    let mut got: u64 = 0;
    for j in 0..end {
        let put = fill_output(s, j, got, output_table, output_bits);
        let size = put.size;
        s = &s[size..];
        got = put.got;
    }
    put_last(output_bits, end, got);
    s
}

// Puts the words of the gate at the front from place `at` on.
pub fn fill_gate(
    s: &[u8],
    at: usize,
    got: u64,
    node_table: &mut [u32],
    node_bits: &mut [u64],
) -> Put
    requires { GateLine s.now × (at + 3 ≤ held (literals node_table.old node_bits.old)) }
    ensures { let words : List ℕ = 0 ∷ number_at s.now 1 ∷ number_at s.now 2 ∷ [] in
        let before = literals node_table.old (begun at got node_bits.old) in
        let after = literals node_table.new (begun (at + 3) result.got node_bits.new) in
        ((result.size ≤ length s.now) × (drop result.size s.now ≡ skip 3 s.now)) × (after ≡ words_put at words before) }
{
    let own = known_number(s);
    let second = own.size;
    let x = known_number(&s[second..]);
    let third = second + x.size;
    let y = known_number(&s[third..]);
    let got = put_three(node_table, node_bits, at, got, 0, x.value, y.value);
    Put {
        size: third + y.size,
        got,
    }
}

// Fills the node table.
pub fn fill_gates(rest: &[u8], nodes: u32, node_table: &mut [u32], node_bits: &mut [u64])
    requires { GateLines nodes rest.now × (nodes ≤ 100000) × (3 * nodes ≤ held (literals node_table.old node_bits.old)) }
    ensures { let ns = literals node_table.old node_bits.old in
        literals node_table.new node_bits.new ≡ filled (tab (3 * nodes) (gate_word rest.now 0)) ns }
{
    let mut s = rest;
    let end = nodes as usize;
    let mut got: u64 = 0;
    for k in 0..end {
        let put = fill_gate(s, 3 * k, got, node_table, node_bits);
        let size = put.size;
        s = &s[size..];
        got = put.got;
    }
    put_last(node_bits, 3 * end, got)
}
