// One field, at the front of the bytes that are left.
ghost use Rattle.std.specs.Prelude.{◌≡◌, ◌+◌, ◌≤◌, length, get_or, MatchOption};
ghost use Rattle.graph.specs.Answer.{refusal_number};
ghost use Rattle.graph.specs.Finite.{if_equal};
ghost use Rattle.graph.specs.Graph.{mark};
ghost use Rattle.file_checks.specs.File.{payload_of, due_number, node_size, third};
ghost use Rattle.file_checks.specs.Walk.{NodeRoom};

use crate::bytes;
use graph::Refusal;
use graph::literal::MARK;

// The length of a tag's payload; none where there is no such tag.
pub fn payload(tag: u8) -> Option<u16>
    ensures { MatchOption result (payload_of tag ≡ 65536) (λ n. payload_of tag ≡ n) }
{
    match tag {
        1 => Some(12),
        2 => Some(12),
        3 => Some(8),
        4 => Some(4),
        5 => Some(0),
        6 => Some(4),
        _ => None,
    }
}

// Whether the field is whole, where a tag from low to high is due.
pub fn check_due(s: &[u8], low: u8, high: u8) -> Result<(), Refusal>
    ensures { refusal_number result ≡ due_number low high s.now }
{
    if s.len() < 3 {
        return Err(Refusal::MissingBytes);
    }
    let tag = s[0];
    if tag < low {
        return Err(Refusal::WrongField);
    }
    if high < tag {
        return Err(Refusal::WrongField);
    }
    let Some(n) = payload(tag) else {
        return Err(Refusal::WrongField);
    };
    if bytes::two(s, 1) != n {
        return Err(Refusal::WrongField);
    }
    if s.len() < 3 + n as usize {
        return Err(Refusal::MissingBytes);
    }
    Ok(())
}

// Whether a node's field is an XOR's decides how long it is and where its last number stands: by picking, since a jump on the kind cannot be
// foreseen.
pub fn node_size(s: &[u8]) -> usize
    requires { NodeRoom s.now }
    ensures { (result ≡ node_size s.now) × (result ≤ 15) }
{
    if s[0] == 3 {
        return 11;
    }
    15
}

pub fn last_place(s: &[u8]) -> usize
    requires { NodeRoom s.now }
    ensures { (result ≡ if_equal (get_or s.now 0 0) 3 7 11) × (result + 4 ≤ length s.now) }
{
    if s[0] == 3 {
        return 7;
    }
    11
}

// The number x, or the mark where the tag is an XOR's.
pub fn unless_xor(tag: u8, x: u32) -> u32
    ensures { result ≡ if_equal tag 3 mark x }
{
    if tag == 3 {
        return MARK;
    }
    x
}

pub fn third_word(s: &[u8]) -> u32
    requires { NodeRoom s.now }
    ensures { result ≡ third s.now }
{
    unless_xor(s[0], bytes::four(s, last_place(s)))
}
