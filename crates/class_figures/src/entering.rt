// A row entered into the record.
ghost use Rattle.std.specs.Prelude.{◌≡◌, ℕ, ◌≤◌, ◌<◌, length, get_or};
ghost use Rattle.settling.specs.Settle.{rounds_answer};
ghost use Rattle.class_figures.specs.Call.{entered_at, entered};
ghost use Rattle.class_figures.specs.Inner.{Roomy, Countable, node_cells, answer_row};
ghost use Rattle.graph.specs.Tables.{lent_table};

use crate::cells;
use graph::table::Table;
use settling::Settled;

// The word at place j after one more row.
fn word_after(book: &[u64], row: &[u64; 5], j: usize) -> u64
    requires { (86 ≤ length book.now) × (j < 86) × (get_or book.now j 0 < 1099511627776) × ((k : ℕ) → k < 5 → get_or row.now k 0 < 1099511627776) }
    ensures { result ≡ entered_at row.now book.now j }
{
    if j == 0 {
        return book[0] + 1;
    }
    if j < 6 {
        return book[j] + row[j - 1];
    }
    if j < 11 {
        return row[j - 6];
    }
    book[j - 5]
}

// From the last word down, so that a row is moved before another is put in its place: one by one, as crate graph copies
// words.
fn enter_row(book: &mut [u64], row: &[u64; 5])
    requires { Roomy book.old × ((k : ℕ) → k < 5 → get_or row.now k 0 < 1099511627776) }
    ensures { book.new ≡ entered row.now book.old }
{
    for j in (0..86).rev() {
        let w = word_after(book, row, j);
        book[j] = w;
    }
}

// The nodes of the settled graph are those of the graph before, so that they are counted once.
pub fn enter_settled(settled: Settled, nodes: u32, node_table: &Table, book: &mut [u64])
    requires { Roomy book.old × Countable nodes (lent_table node_table.now) }
    ensures { book.new ≡ entered (answer_row (rounds_answer settled) (node_cells nodes (lent_table node_table.now))) book.old }
{
    let before = settled.before as u64;
    let after = settled.after as u64;
    let kinds = cells::node_cells(nodes, node_table) as u64;
    let row = [
        before,
        after,
        settled.rounds as u64,
        13 * before + kinds,
        13 * after + kinds,
    ];
    enter_row(book, &row);
}
