// A move written into both tables: the node's own words by their places, then a sweep for its readers by indices alone.
ghost use Rattle.std.specs.Prelude.{◌≡◌, ◌≢◌, ◌+◌, ◌*◌, ◌≤◌, ◌<◌, eqb, get_or};
ghost use Rattle.graph.specs.Admission.{Admitted};
ghost use Rattle.graph.specs.Graph.{mark};
ghost use Rattle.graph.specs.Inner.{Readable};
ghost use Rattle.graph.specs.Literals.{graph_in, held, literals};
ghost use Rattle.graph.specs.Turned.{turned_table, only};
ghost use Rattle.moves.specs.Apply.{none, at, apply};
ghost use Rattle.moves.specs.Rows.{arity, kind_moves};
ghost use Rattle.node_call.specs.Write.{own_turns, read_turns, readers_after};

use graph::table;
use graph::table::Table;
use moves::rows;

// Turns the words of node v as move m of its kind says.
pub fn turn_own(node_table: &[u32], node_bits: &mut [u64], v: usize, xor: bool, m: u32)
    requires { let l = literals node_table.now node_bits.old in
        Readable l v × (m < arity xor) × (xor ≡ eqb (get_or l (3 * v + 2) 0) mark) }
    ensures { let l = literals node_table.now node_bits.old in
        literals node_table.now node_bits.new ≡ turned_table l (own_turns v xor m) }
{
    let at = 3 * v;
    table::turn_word(node_table, node_bits, at, rows::flag_of(xor, m, 0));
    table::turn_word(node_table, node_bits, at + 1, rows::flag_of(xor, m, 1));
    table::turn_word(node_table, node_bits, at + 2, rows::flag_of(xor, m, 2));
}

// Turns the word at place j t times where it names index u.
fn turn_reader(table: &[u32], bits: &mut [u64], j: usize, u: u32, t: u32)
    requires { (j < held (literals table.now bits.old)) × (u < 2147483647) × (t ≤ 2) }
    ensures { let l = literals table.now bits.old in
        literals table.now bits.new ≡ turned_table l (only j (read_turns u t j (get_or l j 0))) }
{
    let read = Table {
        indices: table,
        bits,
    };
    if read.index_at(j) == u {
        table::turn_word(table, bits, j, t);
    }
}

// The same of the first n places.
pub fn turn_readers(table: &[u32], bits: &mut [u64], n: usize, u: u32, t: u32)
    requires { (n ≤ held (literals table.now bits.old)) × (u < 2147483647) × (t ≤ 2) }
    ensures { let l = literals table.now bits.old in
        literals table.now bits.new ≡ readers_after n u t l }
{
    if t == 0 {
        return;
    }
    for j in 0..n {
        turn_reader(table, bits, j, u, t);
    }
}

// Move m at node v, counted from 0.
pub fn write_move(
    inputs: u32,
    nodes: u32,
    outputs: u32,
    node_table: &[u32],
    node_bits: &mut [u64],
    output_table: &[u32],
    output_bits: &mut [u64],
    v: u32,
    m: u32,
)
    requires { let g = graph_in inputs nodes outputs node_table.now node_bits.old output_table.now output_bits.old in
        Admitted g × (v < nodes) × (m < kind_moves g (inputs + 1 + v)) }
    ensures { let g = graph_in inputs nodes outputs node_table.now node_bits.old output_table.now output_bits.old in
        let h = graph_in inputs nodes outputs node_table.now node_bits.new output_table.now output_bits.new in
        h ≡ apply g (at none (inputs + 1 + v) m) }
{
    let xor = rows::is_xor(
        &Table {
            indices: node_table,
            bits: node_bits,
        },
        v as usize,
    );
    let u = inputs + 1 + v;
    let t = rows::flag_of(xor, m, 3);
    turn_own(node_table, node_bits, v as usize, xor, m);
    turn_readers(node_table, node_bits, 3 * nodes as usize, u, t);
    turn_readers(output_table, output_bits, outputs as usize, u, t);
}

// Move k at node p and then move m at node v, another one.
pub fn write_pair(
    inputs: u32,
    nodes: u32,
    outputs: u32,
    node_table: &[u32],
    node_bits: &mut [u64],
    output_table: &[u32],
    output_bits: &mut [u64],
    p: u32,
    k: u32,
    v: u32,
    m: u32,
)
    requires { let g = graph_in inputs nodes outputs node_table.now node_bits.old output_table.now output_bits.old in
        Admitted g × (p < nodes) × (v < nodes) × (p ≢ v) × (k < kind_moves g (inputs + 1 + p)) × (m < kind_moves g (inputs + 1 + v)) }
    ensures { let g = graph_in inputs nodes outputs node_table.now node_bits.old output_table.now output_bits.old in
        let h = graph_in inputs nodes outputs node_table.now node_bits.new output_table.now output_bits.new in
        h ≡ apply g (at (at none (inputs + 1 + p) k) (inputs + 1 + v) m) }
{
    write_move(
        inputs,
        nodes,
        outputs,
        node_table,
        node_bits,
        output_table,
        output_bits,
        p,
        k,
    );
    write_move(
        inputs,
        nodes,
        outputs,
        node_table,
        node_bits,
        output_table,
        output_bits,
        v,
        m,
    );
}
