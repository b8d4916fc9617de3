// The header "aag M I L O A".
ghost use Rattle.std.specs.Prelude.{◌≡◌};
ghost use Rattle.graph.specs.Answer.{refusal_number};
ghost use Rattle.aiger.specs.Import.{aag_number};
ghost use Rattle.aiger_import.specs.Reading.{HeaderRead};

use crate::lines::read_line;
use graph::Refusal;
use graph::faults::check_room;
use tagged_file::Sizes;

// What the header says, and how many bytes it takes.
#[derive(Clone, Copy)]
pub struct Header {
    pub sizes: Sizes,
    pub size: usize,
}

pub fn check_aag(s: &[u8]) -> Result<(), Refusal>
    ensures { refusal_number result ≡ aag_number s.now }
{
    if s.starts_with(b"aag ") {
        return Ok(());
    }
    Err(Refusal::BadText)
}

pub fn read_header(
    s: &[u8],
    node_room: usize,
    output_room: usize,
    lock_room: usize,
) -> Result<Header, Refusal>
    ensures { HeaderRead s.now node_room output_room lock_room result }
{
    check_aag(s)?;
    let mut n = [0u32; 5];
    let size = read_line(&s[4..], 4, &mut n)?;
    let inputs = n[1];
    let outputs = n[3];
    let nodes = n[4];
    if n[2] != 0 {
        return Err(Refusal::HasLatches);
    }
    if u64::from(n[0]) != u64::from(inputs) + u64::from(nodes) {
        return Err(Refusal::WrongNumbering);
    }
    check_room(inputs, nodes, outputs, node_room, output_room, lock_room)?;
    let sizes = Sizes {
        inputs,
        nodes,
        outputs,
    };
    Ok(Header {
        sizes,
        size: 4 + size,
    })
}
