// The number of each answer, and what it leaves at a lent place: its values, or what was there where it has none.
// An array is made in a match: tried with `map_or`, and the proof did not close, since a closure's inferred contract tells nothing of an array.
ghost use Rattle.std.specs.Prelude.{◌≡◌, [], ◌∷◌};
ghost use Rattle.graph.specs.Answer.{accepted, unless, refusal_number, count_answer};
ghost use Rattle.tagged_file.specs.Load.{loaded_answer};
ghost use Rattle.tagged_file.specs.Write.{written_answer};
ghost use Rattle.assignment.specs.Assignment.{assigned_answer};
ghost use Rattle.moves.specs.Call.{saving_answer, gain_answer};
ghost use Rattle.settling.specs.Settle.{settled_answer};
ghost use Rattle.hidden.specs.Call.{majority_answer, found_answer};
ghost use Rattle.class_figures.specs.Call.{figures_answer};
ghost use Rattle.compare.specs.Compare.{comparison_answer};
ghost use Rattle.answers.specs.Told.{told, told_one, told_signed, told_gain};

use class_figures::ClassFigures;
use compare::Comparison;
use graph::Refusal;
use hidden::Majority;
use moves::Saving;
use settling::Settled;
use tagged_file::Sizes;

// The number of what refuses a call, 0 where nothing does.
pub fn refusal_number<T>(answer: &Result<T, Refusal>) -> u32
    ensures { result ≡ refusal_number answer.now }
{
    match answer {
        Ok(_) => 0,
        Err(refusal) => u32::from(*refusal),
    }
}

// The payload of a field starts after the 3 bytes of its head.
pub fn field_told(number: u32, length: usize, before: [usize; 2]) -> [usize; 2]
    ensures { result ≡ told (unless number (accepted (3 ∷ length ∷ []))) before }
{
    if number != 0 {
        return before;
    }
    [3, length]
}

pub fn count_told(count: Result<u32, Refusal>, before: u32) -> u32
    ensures { result ≡ told_one (count_answer count) before }
{
    count.unwrap_or(before)
}

pub fn loaded_told(answer: Result<Sizes, Refusal>, before: [u32; 3]) -> [u32; 3]
    ensures { result ≡ told (loaded_answer answer) before }
{
    match answer {
        Ok(sizes) => [sizes.inputs, sizes.nodes, sizes.outputs],
        Err(_) => before,
    }
}

pub fn written_told(written: Result<usize, Refusal>, before: usize) -> usize
    ensures { result ≡ told_one (written_answer written) before }
{
    written.unwrap_or(before)
}

// 1 and the assignment's number, or 0 and 0 where none gives the pattern.
pub fn assigned_told(answer: Result<Option<u32>, Refusal>, before: [u32; 2]) -> [u32; 2]
    ensures { result ≡ told (assigned_answer answer) before }
{
    match answer {
        Ok(Some(number)) => [1, number],
        Ok(None) => [0, 0],
        Err(_) => before,
    }
}

pub fn saving_told(saving: Result<Saving, Refusal>, before: [i64; 2]) -> [i64; 2]
    ensures { result ≡ told_signed (saving_answer saving) before }
{
    match saving {
        Ok(saving) => [saving.own, saving.others],
        Err(_) => before,
    }
}

pub fn gain_told(gain: Result<i64, Refusal>, before: i64) -> i64
    ensures { result ≡ told_gain (gain_answer gain) before }
{
    gain.unwrap_or(before)
}

pub fn settled_told(answer: Result<Settled, Refusal>, before: [u32; 3]) -> [u32; 3]
    ensures { result ≡ told (settled_answer answer) before }
{
    match answer {
        Ok(settled) => [settled.rounds, settled.before, settled.after],
        Err(_) => before,
    }
}

// What its calls saved.
pub fn settled_sums(answer: Result<Settled, Refusal>, before: [i64; 2]) -> [i64; 2]
    ensures { result ≡ told_signed (settled_answer answer) before }
{
    match answer {
        Ok(settled) => [settled.own, settled.others],
        Err(_) => before,
    }
}

// 0 where the node is a majority now, 1 where it is none, 2 where the three do not cover it.
pub fn majority_told(answer: Result<Majority, Refusal>, before: u32) -> u32
    ensures { result ≡ told_one (majority_answer answer) before }
{
    answer.map_or(before, |majority| majority as u32)
}

// The new number of nodes.
pub fn found_told(found: Result<u32, Refusal>, before: u32) -> u32
    ensures { result ≡ told_one (found_answer found) before }
{
    found.unwrap_or(before)
}

pub fn figures_told(answer: Result<ClassFigures, Refusal>, before: [u64; 6]) -> [u64; 6]
    ensures { result ≡ told (figures_answer answer) before }
{
    match answer {
        Ok(figures) => [
            figures.count,
            figures.before,
            figures.after,
            figures.rounds,
            figures.cells_before,
            figures.cells_after,
        ],
        Err(_) => before,
    }
}

// The fall of C, and the total before.
pub fn improvement_told(answer: Result<ClassFigures, Refusal>, before: [i64; 2]) -> [i64; 2]
    ensures { result ≡ told_signed (figures_answer answer) before }
{
    match answer {
        Ok(figures) => [figures.fall, figures.total_before],
        Err(_) => before,
    }
}

// How two graphs differ, and where.
pub fn comparison_told(answer: Result<Comparison, Refusal>, before: [u32; 2]) -> [u32; 2]
    ensures { result ≡ told (comparison_answer answer) before }
{
    match answer {
        Ok(comparison) => comparison.numbers(),
        Err(_) => before,
    }
}
