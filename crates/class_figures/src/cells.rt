// Cells of nodes: 12 an XOR, 5 a majority.
ghost use Rattle.std.specs.Prelude.{◌≡◌, cond, ◌≤◌};
ghost use Rattle.class_figures.specs.Inner.{Countable, node_cells};
ghost use Rattle.graph.specs.Tables.{lent_table};

use graph::table::Table;
use moves::rows;

fn kind_cells(xor: bool) -> u32
    ensures { (result ≡ cond xor 12 5) × (result ≤ 12) }
{
    if xor {
        return 12;
    }
    5
}

pub fn node_cells(nodes: u32, node_table: &Table) -> u32
    requires { Countable nodes (lent_table node_table.now) }
    ensures { result ≡ node_cells nodes (lent_table node_table.now) }
{
    let mut cells: u32 = 0;
    for v in 0..nodes {
        cells += kind_cells(rows::is_xor(node_table, v as usize));
    }
    cells
}
