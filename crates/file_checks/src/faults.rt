// The check pass: the first fault from front to back.
ghost use Rattle.std.specs.Prelude.{◌≡◌, ◌+◌, ◌<◌};
ghost use Rattle.graph.specs.Answer.{refusal_number};
ghost use Rattle.file_checks.specs.File.{head_number, node_field_number, output_field_number, lock_field_number, end_number, lock_count, lock_fields_number, output_fields_number, node_fields_number, file_number};

use crate::{bytes, fields};
use graph::Refusal;
use graph::faults::check_room;

pub fn check_head(
    s: &[u8],
    node_room: usize,
    output_room: usize,
    lock_room: usize,
) -> Result<(), Refusal>
    ensures { refusal_number result ≡ head_number s.now node_room output_room lock_room }
{
    fields::check_due(s, 1, 1)?;
    check_room(
        bytes::four(s, 3),
        bytes::four(s, 7),
        bytes::four(s, 11),
        node_room,
        output_room,
        lock_room,
    )
}

pub fn check_node(s: &[u8], index: u32) -> Result<(), Refusal>
    ensures { refusal_number result ≡ node_field_number s.now index }
{
    fields::check_due(s, 2, 3)?;
    if index <= bytes::four(s, 3) / 2 {
        return Err(Refusal::BadLiteral);
    }
    if index <= bytes::four(s, 7) / 2 {
        return Err(Refusal::BadLiteral);
    }
    if index <= bytes::four(s, fields::last_place(s)) / 2 {
        return Err(Refusal::BadLiteral);
    }
    Ok(())
}

pub fn check_output(s: &[u8], index: u32) -> Result<(), Refusal>
    ensures { refusal_number result ≡ output_field_number s.now index }
{
    fields::check_due(s, 4, 4)?;
    if index <= bytes::four(s, 3) / 2 {
        return Err(Refusal::BadLiteral);
    }
    Ok(())
}

pub fn check_end(s: &[u8]) -> Result<(), Refusal>
    ensures { refusal_number result ≡ end_number s.now }
{
    fields::check_due(s, 5, 5)?;
    if 3 < s.len() {
        return Err(Refusal::ExtraBytes);
    }
    Ok(())
}

// A lock names an index from low on and below top.
pub fn check_lock(s: &[u8], low: u32, top: u32) -> Result<(), Refusal>
    ensures { refusal_number result ≡ lock_field_number s.now low top }
{
    fields::check_due(s, 6, 6)?;
    let index = bytes::four(s, 3);
    if index < low {
        return Err(Refusal::BadLock);
    }
    if top <= index {
        return Err(Refusal::BadLock);
    }
    Ok(())
}

// Locks name nodes, which have the indices from start on and below top, each above the one before.
pub fn check_locks(rest: &[u8], start: u32, top: u32) -> Result<(), Refusal>
    ensures { refusal_number result ≡ lock_fields_number (lock_count rest.now) rest.now start top }
{
    let mut s = rest;
    let mut low = start;
    while let [6, ..] = s {
        check_lock(s, low, top)?;
        low = bytes::four(s, 3) + 1;
        s = &s[7..];
    }
    check_end(s)
}

pub fn check_outputs(rest: &[u8], start: u32, top: u32, outputs: u32) -> Result<(), Refusal>
    ensures { refusal_number result ≡ output_fields_number outputs rest.now start top }
{
    let mut s = rest;
    for _output in 0..outputs {
        check_output(s, top)?;
        s = &s[7..];
    }
    check_locks(s, start, top)
}

pub fn check_nodes(rest: &[u8], start: u32, nodes: u32, outputs: u32) -> Result<(), Refusal>
    requires { start + nodes < 4294967295 }
    ensures { refusal_number result ≡ node_fields_number nodes outputs rest.now start start }
{
    let end = start + nodes;
    let mut s = rest;
    for index in start..end {
        check_node(s, index)?;
        s = &s[fields::node_size(s)..];
    }
    check_outputs(s, start, end, outputs)
}

pub fn check_file(
    file: &[u8],
    node_room: usize,
    output_room: usize,
    lock_room: usize,
) -> Result<(), Refusal>
    ensures { refusal_number result ≡ file_number file.now node_room output_room lock_room }
{
    check_head(file, node_room, output_room, lock_room)?;
    check_nodes(
        &file[15..],
        bytes::four(file, 3) + 1,
        bytes::four(file, 7),
        bytes::four(file, 11),
    )
}
