// What refuses to export a graph.
ghost use Rattle.std.specs.Prelude.{◌≡◌, IfOk};
ghost use Rattle.graph.specs.Answer.{refusal_number};
ghost use Rattle.graph.specs.Tables.{lent_graph};
ghost use Rattle.aiger.specs.Export.{export_number};

use crate::sizes;
use graph::{Circuit, Lent, Refusal, admitted};

// With this many words of scratch and bytes of buffer. Where any text of so many nodes fits, it is not measured.
pub fn check_export<'a>(lent: &Lent<'a>, words: usize, room: usize) -> Result<Circuit<'a>, Refusal>
    ensures number { let g = lent_graph lent.now in
        refusal_number result ≡ export_number g lent.now.locks.now words room }
    ensures same { IfOk result (λ c. c.lent ≡ lent.now) }
{
    let circuit = admitted(lent)?;
    if words < lent.nodes as usize {
        return Err(Refusal::ShortScratch);
    }
    if sizes::most_bytes(lent.inputs, lent.nodes, lent.outputs) <= room {
        return Ok(circuit);
    }
    if room < sizes::text_size(&circuit) {
        return Err(Refusal::ShortBuffer);
    }
    Ok(circuit)
}
