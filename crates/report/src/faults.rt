// What the lengths of the lent slices decide.
ghost use Rattle.std.specs.Prelude.{◌≡◌};
ghost use Rattle.report.specs.Inner.{fault_number};
ghost use Rattle.report.specs.Report.{buffer_number, report_number};

use crate::RoomFault;

// By division, so that no product of lengths can wrap.
fn check_buffer(node_room: usize, output_room: usize, room: usize) -> Result<(), RoomFault>
    ensures { fault_number result ≡ buffer_number node_room output_room room }
{
    if room < 128 {
        return Err(RoomFault::Buffer);
    }
    let words = (room - 128) / 18;
    if words < node_room {
        return Err(RoomFault::Buffer);
    }
    if words - node_room < output_room {
        return Err(RoomFault::Buffer);
    }
    Ok(())
}

// Scratch first.
pub fn check_room(
    node_room: usize,
    output_room: usize,
    words: usize,
    room: usize,
) -> Result<(), RoomFault>
    ensures { fault_number result ≡ report_number node_room output_room words room }
{
    if words / 8 < node_room / 3 {
        return Err(RoomFault::Scratch);
    }
    check_buffer(node_room, output_room, room)
}
