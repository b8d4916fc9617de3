// The number of a replay's answer, and what it leaves at a lent place: I, N and O, or what was there where it is refused.
ghost use Rattle.std.specs.Prelude.{◌≡◌};
ghost use Rattle.answers.specs.Told.{told};
ghost use Rattle.replay.specs.Replay.{calls_number, replayed_answer};

use crate::{CallsFault, ReplayFault};
use tagged_file::Sizes;

pub fn calls_number(fault: CallsFault) -> u32
    ensures { result ≡ calls_number fault }
{
    match fault {
        CallsFault::LeftOver => 101,
        CallsFault::UnknownKind => 102,
        CallsFault::PartOutside => 105,
    }
}

pub fn replayed_number(answer: Result<Sizes, ReplayFault>) -> u32
    ensures { result ≡ (replayed_answer answer).number }
{
    match answer {
        Ok(_) => 0,
        Err(ReplayFault::NotCalls(fault)) => calls_number(fault),
        Err(ReplayFault::Refused(refusal)) => u32::from(refusal),
    }
}

pub fn replayed_told(answer: Result<Sizes, ReplayFault>, before: [u32; 3]) -> [u32; 3]
    ensures { result ≡ told (replayed_answer answer) before }
{
    match answer {
        Ok(sizes) => [sizes.inputs, sizes.nodes, sizes.outputs],
        Err(_) => before,
    }
}
