// What refuses a call of a class.
ghost use Rattle.std.specs.Prelude.{◌≡◌, get_or, take, nat_le};
ghost use Rattle.std.specs.List.{list_any};
ghost use Rattle.graph.specs.Finite.{first};
ghost use Rattle.graph.specs.Answer.{refusal_number};
ghost use Rattle.graph.specs.Admission.{tables_number};
ghost use Rattle.class_figures.specs.Call.{record_number, length_number, figures_number};
ghost use Rattle.graph.specs.Tables.{lent_graph};

use graph::{Lent, Refusal};

// How many graphs a record counts.
fn counted(book: &[u64]) -> u64
    ensures { result ≡ get_or book.now 0 0 }
{
    book.first().copied().unwrap_or(0)
}

// Whether a record holds a figure of 2 to the 40th or above.
fn holds_high(book: &[u64]) -> bool
    ensures { result ≡ list_any (nat_le 1099511627776) (take 86 book.now) }
{
    book.iter().take(86).any(|figure| 1099511627776 <= *figure)
}

// Refused by 3 where a record counts too many, or holds a figure of 2 to the 40th or above.
fn check_record(limit: u64, book: &[u64]) -> Result<(), Refusal>
    ensures { refusal_number result ≡ record_number limit book.now }
{
    if limit <= counted(book) {
        return Err(Refusal::OverLimit);
    }
    if holds_high(book) {
        return Err(Refusal::OverLimit);
    }
    Ok(())
}

fn check_length(book: &[u64]) -> Result<(), Refusal>
    ensures { refusal_number result ≡ length_number book.now }
{
    if book.len() < 86 {
        return Err(Refusal::ShortSlice);
    }
    Ok(())
}

// Before the graph's contents are looked at.
pub fn check_early(lent: &Lent, book: &[u64]) -> Result<(), Refusal>
    ensures { let g = lent_graph lent.now in
        refusal_number result ≡ first (record_number 1000 book.now) (first (tables_number g lent.now.locks.now) (length_number book.now)) }
{
    check_record(1000, book)?;
    graph::faults::check_tables(lent)?;
    check_length(book)
}

pub fn check_figures(book: &[u64]) -> Result<(), Refusal>
    ensures { refusal_number result ≡ figures_number book.now }
{
    check_record(1001, book)?;
    check_length(book)
}
