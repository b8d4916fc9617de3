// Why a search is refused.
ghost use Rattle.std.specs.Prelude.{◌≡◌, ◌≤◌, length};
ghost use Rattle.graph.specs.Answer.{refusal_number};
ghost use Rattle.graph.specs.Finite.{first, if_less};
ghost use Rattle.graph.specs.Tables.{lent_graph};
ghost use Rattle.assignment.specs.Assignment.{pattern_number, assignment_number};

use graph::faults::{check_content, check_tables};
use graph::{Lent, Refusal};

// No wanted byte is above 2.
fn check_pattern(outputs: u32, wanted: &[u8]) -> Result<(), Refusal>
    requires { outputs ≤ length wanted.now }
    ensures { refusal_number result ≡ pattern_number outputs wanted.now }
{
    for want in &wanted[..outputs as usize] {
        if 2 < *want {
            return Err(Refusal::BadWanted);
        }
    }
    Ok(())
}

// There are at most 16 inputs.
fn check_inputs(inputs: u32) -> Result<(), Refusal>
    ensures { refusal_number result ≡ if_less 16 inputs 17 0 }
{
    if 16 < inputs {
        return Err(Refusal::ManyInputs);
    }
    Ok(())
}

fn check_scratch(nodes: u32, words: usize) -> Result<(), Refusal>
    ensures { refusal_number result ≡ if_less words nodes 8 0 }
{
    if words < nodes as usize {
        return Err(Refusal::ShortScratch);
    }
    Ok(())
}

// Inputs, then the pattern, then scratch.
fn check_last(lent: &Lent, wanted: &[u8], words: usize) -> Result<(), Refusal>
    requires { lent.now.outputs ≤ length wanted.now }
    ensures { refusal_number result ≡ first (if_less 16 lent.now.inputs 17 0) (first (pattern_number lent.now.outputs wanted.now) (if_less words lent.now.nodes 8 0)) }
{
    check_inputs(lent.inputs)?;
    check_pattern(lent.outputs, wanted)?;
    check_scratch(lent.nodes, words)
}

pub fn check_assignment(lent: &Lent, wanted: &[u8], words: usize) -> Result<(), Refusal>
    ensures { refusal_number result ≡ assignment_number (lent_graph lent.now) lent.now.locks.now wanted.now words }
{
    check_tables(lent)?;
    if wanted.len() < lent.outputs as usize {
        return Err(Refusal::ShortSlice);
    }
    check_content(lent)?;
    check_last(lent, wanted, words)
}
