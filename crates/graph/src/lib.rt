#![tactic(auto)]

ghost use Rattle.std.specs.Prelude.{◌≡◌, [], ◌∷◌, IfOk};
ghost use Rattle.graph.specs.Count.{C};
ghost use Rattle.graph.specs.Admission.{Admitted, admission_number};
ghost use Rattle.graph.specs.Answer.{accepted, unless, admission_answer, count_answer, number_of, refusal_number};
ghost use Rattle.graph.specs.Tables.{lent_graph};

pub mod decimal;
pub mod edges;
pub mod faults;
pub mod literal;
pub mod signed;
pub mod table;

use table::Table;

// Why a call is refused: the causes of document 01's table, in its order, then those of document 02.
#[derive(Clone, Copy)]
pub enum Refusal {
    MissingBytes,
    WrongField,
    OverLimit,
    ShortSlice,
    BadLiteral,
    ExtraBytes,
    NoSuchNode,
    ShortScratch,
    ShortBuffer,
    BadText,
    HasLatches,
    WrongNumbering,
    BadLock,
    NotRising,
    NoSuchMove,
    LockedNode,
    ManyInputs,
    BadWanted,
    StagesDiffer,
}

// A graph as its owner lends it, with its locks.
#[derive(Clone, Copy)]
pub struct Lent<'a> {
    pub inputs: u32,
    pub nodes: u32,
    pub outputs: u32,
    pub node_table: Table<'a>,
    pub output_table: Table<'a>,
    pub locks: &'a [u8],
}

// A graph that is admitted: so made where a call has been through its checks, and lent on to what relies on them.
#[derive(Clone, Copy)]
pub struct Circuit<'a> {
    pub lent: Lent<'a>,
    pub ghost admitted: { Admitted (lent_graph lent) },
}

impl From<Refusal> for u32 {
    ghost from_gives = { λ r n. n ≡ number_of r };

    // The number that the documents give each.
    fn from(refusal: Refusal) -> u32 {
        match refusal {
            Refusal::MissingBytes => 1,
            Refusal::WrongField => 2,
            Refusal::OverLimit => 3,
            Refusal::ShortSlice => 4,
            Refusal::BadLiteral => 5,
            Refusal::ExtraBytes => 6,
            Refusal::NoSuchNode => 7,
            Refusal::ShortScratch => 8,
            Refusal::ShortBuffer => 9,
            Refusal::BadText => 10,
            Refusal::HasLatches => 11,
            Refusal::WrongNumbering => 12,
            Refusal::BadLock => 13,
            Refusal::NotRising => 14,
            Refusal::NoSuchMove => 15,
            Refusal::LockedNode => 16,
            Refusal::ManyInputs => 17,
            Refusal::BadWanted => 18,
            Refusal::StagesDiffer => 19,
        }
    }
}

// Whether a graph in lent tables is one, with its locks, by its limits, its slices' lengths, its literals and its lock bytes, in that order.
pub fn admit_graph(lent: &Lent) -> Result<(), Refusal>
    ensures { admission_answer result ≡ unless (admission_number (lent_graph lent.now) lent.now.locks.now) (accepted []) }
{
    faults::check_admission(lent)
}

// The circuit that a graph is with its locks, where they are admitted.
pub fn admitted<'a>(lent: &Lent<'a>) -> Result<Circuit<'a>, Refusal>
    ensures number { refusal_number result ≡ admission_number (lent_graph lent.now) lent.now.locks.now }
    ensures same { IfOk result (λ c. c.lent ≡ lent.now) }
{
    faults::check_admission(lent)?;
    Ok(Circuit { lent: *lent })
}

// How many edges are complemented: document 01's C.
pub fn complemented_edges(lent: &Lent) -> Result<u32, Refusal>
    ensures { count_answer result ≡ unless (admission_number (lent_graph lent.now) lent.now.locks.now) (accepted (C (lent_graph lent.now) ∷ [])) }
{
    faults::check_admission(lent)?;
    Ok(edges::complemented(lent))
}
