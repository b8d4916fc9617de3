// The check pass over the lines after the header: the first fault from front to back.
ghost use Rattle.std.specs.Prelude.{◌≡◌, ◌+◌, ◌≤◌};
ghost use Rattle.graph.specs.Answer.{refusal_number};
ghost use Rattle.graph.specs.Finite.{first};
ghost use Rattle.aiger.specs.Lines.{skip};
ghost use Rattle.aiger.specs.Import.{input_line_number, output_line_number, gate_line_number, output_lines_number, gate_lines_number, body_number};
ghost use Rattle.aiger_import.specs.Reading.{Passed};

use crate::lines::read_line;
use graph::Refusal;
use tagged_file::Sizes;

// Each check of a line returns its bytes. The line of input k:
pub fn check_input(s: &[u8], k: u32) -> Result<usize, Refusal>
    requires { k ≤ 4096 }
    ensures { Passed (input_line_number s.now k) 1 s.now result }
{
    let mut n = [0u32; 1];
    let size = read_line(s, 0, &mut n)?;
    if n[0] != 2 * (1 + k) {
        return Err(Refusal::WrongNumbering);
    }
    Ok(size)
}

// An output may name an index below `end`.
pub fn check_output(s: &[u8], end: u32) -> Result<usize, Refusal>
    ensures { Passed (output_line_number s.now end) 1 s.now result }
{
    let mut n = [0u32; 1];
    let size = read_line(s, 0, &mut n)?;
    if end <= n[0] / 2 {
        return Err(Refusal::BadLiteral);
    }
    Ok(size)
}

// The gate with this index.
pub fn check_gate(s: &[u8], index: u32) -> Result<usize, Refusal>
    requires { index ≤ 104097 }
    ensures { Passed (gate_line_number s.now index) 3 s.now result }
{
    let mut n = [0u32; 3];
    let size = read_line(s, 2, &mut n)?;
    if n[0] != 2 * index {
        return Err(Refusal::WrongNumbering);
    }
    if index <= n[1] / 2 {
        return Err(Refusal::BadLiteral);
    }
    if index <= n[2] / 2 {
        return Err(Refusal::BadLiteral);
    }
    Ok(size)
}

// The three loops that follow differ in the check of a line. One over a closure is no plainer: its contract would take each line's fault and bytes.
pub fn check_gates(rest: &[u8], nodes: u32, start: u32) -> Result<(), Refusal>
    requires { start + nodes ≤ 104097 }
    ensures { refusal_number result ≡ gate_lines_number rest.now nodes start }
{
    let mut s = rest;
    for k in 0..nodes {
        let size = check_gate(s, start + k)?;
        s = &s[size..];
    }
    Ok(())
}

pub fn check_outputs(rest: &[u8], sizes: Sizes) -> Result<(), Refusal>
    requires { (sizes.inputs ≤ 4096) × (sizes.nodes ≤ 100000) }
    ensures { let i = sizes.inputs in
        let n = sizes.nodes in
        let o = sizes.outputs in
        refusal_number result ≡ first (output_lines_number rest.now o (i + 1 + n)) (gate_lines_number (skip o rest.now) n (i + 1)) }
{
    let start = sizes.inputs + 1;
    let end = start + sizes.nodes;
    let mut s = rest;
    for j in 0..sizes.outputs {
        let size = check_output(s, end)?;
        s = &s[size..];
    }
    check_gates(s, sizes.nodes, start)
}

pub fn check_inputs(rest: &[u8], sizes: Sizes) -> Result<(), Refusal>
    requires { (sizes.inputs ≤ 4096) × (sizes.nodes ≤ 100000) }
    ensures { refusal_number result ≡ body_number rest.now sizes.inputs sizes.nodes sizes.outputs }
{
    let mut s = rest;
    for k in 0..sizes.inputs {
        let size = check_input(s, k)?;
        s = &s[size..];
    }
    check_outputs(s, sizes)
}
