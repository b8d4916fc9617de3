// Whether the words of a list of calls are refused.
ghost use Rattle.std.specs.Prelude.{◌≡◌};
ghost use Rattle.replay.specs.Replay.{part_number, call_number, words_number};
ghost use Rattle.replay.specs.Inner.{fault_number};

use crate::CallsFault;
use crate::kind::Kind;

// Entries up to the place `end`, where `length` nodes are lent.
pub fn check_part(length: usize, end: usize) -> Result<(), CallsFault>
    ensures { fault_number result ≡ part_number length end }
{
    if length < end {
        return Err(CallsFault::PartOutside);
    }
    Ok(())
}

pub fn check_call(length: usize, kind: u32, node: u32, word: u32) -> Result<(), CallsFault>
    ensures { fault_number result ≡ call_number length kind node word }
{
    match Kind::try_from(kind)? {
        Kind::Many => check_part(length, node as usize + word as usize),
        Kind::Majority => check_part(length, word as usize + 3),
        _ => Ok(()),
    }
}

pub fn check_words(length: usize, calls: &[u32]) -> Result<(), CallsFault>
    ensures { fault_number result ≡ words_number length calls.now }
{
    let mut s = calls;
    while let [kind, node, word, rest @ ..] = s {
        check_call(length, *kind, *node, *word)?;
        s = rest;
    }
    Ok(())
}
