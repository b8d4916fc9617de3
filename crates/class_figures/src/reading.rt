// The figures read from a record.
ghost use Rattle.std.specs.Prelude.{◌≡◌, ℕ, ◌≤◌, ◌<◌, min, length, get_or};
ghost use Rattle.class_figures.specs.Call.{told_answer, latest_total, all_of, latest_of};
ghost use Rattle.class_figures.specs.Figures.{figures};
ghost use Rattle.class_figures.specs.Inner.{Roomy};

use crate::ClassFigures;
use graph::signed;

// What is told of so many graphs whose five totals these are.
fn told(count: u64, totals: &[u64]) -> ClassFigures
    requires { (5 ≤ length totals.now) × ((k : ℕ) → k < 5 → get_or totals.now k 0 ≤ 17592186044416) }
    ensures { told_answer result ≡ figures count (λ k. get_or totals.now k 0) }
{
    let before = totals[0];
    let after = totals[1];
    ClassFigures {
        count,
        before,
        after,
        rounds: totals[2],
        cells_before: totals[3],
        cells_after: totals[4],
        fall: signed::less(before, after),
        total_before: signed::less(before, 0),
    }
}

pub fn all(book: &[u64]) -> ClassFigures
    requires { Roomy book.now }
    ensures { told_answer result ≡ all_of book.now }
{
    told(book[0], &book[1..6])
}

// The sum of figure k over the sixteen rows.
fn latest_total(book: &[u64], k: usize) -> u64
    requires { Roomy book.now × (k < 5) }
    ensures { (result ≡ latest_total book.now k) × (result ≤ 17592186044416) }
{
    let mut sum: u64 = 0;
    for i in 0..16 {
        sum += book[6 + 5 * i + k];
    }
    sum
}

pub fn latest(book: &[u64]) -> ClassFigures
    requires { Roomy book.now }
    ensures { told_answer result ≡ latest_of book.now }
{
    let totals = [
        latest_total(book, 0),
        latest_total(book, 1),
        latest_total(book, 2),
        latest_total(book, 3),
        latest_total(book, 4),
    ];
    told(book[0].min(16), &totals)
}
