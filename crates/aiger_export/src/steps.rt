// How wide a literal is in the text, by the index that it names: a byte wider from each of five indices on, the steps.
ghost use Rattle.std.specs.Prelude.{◌≡◌, ◌≤◌, ◌<◌};
ghost use Rattle.graph.specs.Admission.{Admitted};
ghost use Rattle.graph.specs.Finite.{if_less};
ghost use Rattle.aiger_export.specs.Inner.{wide_by, halves, Step, Fit};
ghost use Rattle.graph.specs.Tables.{lent_graph};

use crate::gates;
use graph::Circuit;

// The least index whose literal has two digits, three, and so on.
#[derive(Clone, Copy)]
pub struct Steps {
    pub two: u32,
    pub three: u32,
    pub four: u32,
    pub five: u32,
    pub six: u32,
}

// Whether an index has reached a step: 1 or 0.
pub fn reached(step: u32, index: u32) -> usize
    ensures { (result ≡ if_less index step 0 1) × (result ≤ 1) }
{
    if index < step {
        return 0;
    }
    1
}

// The bytes of a literal and of the byte after it.
pub fn wide_by(steps: Steps, index: u32) -> usize
    ensures { (result ≡ wide_by steps index) × (result ≤ 7) }
{
    2 + reached(steps.two, index)
        + reached(steps.three, index)
        + reached(steps.four, index)
        + reached(steps.five, index)
        + reached(steps.six, index)
}

// The same of a literal that has this index in the text.
pub fn text_wide(index: u32) -> usize
    ensures { (result ≡ wide_by halves index) × (result ≤ 7) }
{
    let halves = Steps {
        two: 5,
        three: 50,
        four: 500,
        five: 5000,
        six: 50000,
    };
    wide_by(halves, index)
}

// The least index of the graph whose literals have at least the index `half` in the text; past the last where none have.
pub fn step_at(circuit: &Circuit, half: u32) -> u32
    ensures { let g = lent_graph circuit.now.lent in
        Step g half result }
{
    if half <= circuit.lent.inputs {
        return half;
    }
    let mut last = circuit.lent.inputs;
    for v in 0..circuit.lent.nodes {
        last += gates::gates_at(&circuit.lent.node_table, v as usize);
        if half <= last {
            return circuit.lent.inputs + 1 + v;
        }
    }
    circuit.lent.inputs + 1 + circuit.lent.nodes
}

// The steps of the graph's indices.
pub fn graph_steps(circuit: &Circuit) -> Steps
    ensures { let g = lent_graph circuit.now.lent in
        Fit g result }
{
    Steps {
        two: step_at(circuit, 5),
        three: step_at(circuit, 50),
        four: step_at(circuit, 500),
        five: step_at(circuit, 5000),
        six: step_at(circuit, 50000),
    }
}
