// What a call of the list does, by its first word.
ghost use Rattle.replay.specs.Kind.{Decodes};

use crate::CallsFault;

#[derive(Clone, Copy)]
pub enum Kind {
    Node,
    Pair,
    Tree,
    Settling,
    Many,
    Majority,
    Finder,
    Resistive,
}

impl TryFrom<u32> for Kind {
    type Error = CallsFault;

    ghost try_from_gives = { Decodes };

    fn try_from(word: u32) -> Result<Self, CallsFault> {
        match word {
            0 => Ok(Kind::Node),
            1 => Ok(Kind::Pair),
            2 => Ok(Kind::Tree),
            3 => Ok(Kind::Settling),
            4 => Ok(Kind::Many),
            5 => Ok(Kind::Majority),
            6 => Ok(Kind::Finder),
            7 => Ok(Kind::Resistive),
            _ => Err(CallsFault::UnknownKind),
        }
    }
}
