// A decision from numbers, then its moves written.
ghost use Rattle.std.specs.Prelude.{◌≡◌, List, [], ◌∷◌, ℕ, ◌+◌, ◌-◌, ◌*◌, ◌≤◌, ◌<◌, length, get_or};
ghost use Rattle.graph.specs.Admission.{Admitted};
ghost use Rattle.graph.specs.Answer.{outcome};
ghost use Rattle.graph.specs.Graph.{graph_of, index};
ghost use Rattle.graph.specs.Literals.{graph_in, held};
ghost use Rattle.moves.specs.Call.{told_saving, rewrite, pair_number, named_by, pair_rewrite};
ghost use Rattle.graph.specs.Tables.{lent_table};

use crate::write;
use graph::table::Table;
use graph::{Lent, table};
use moves::decide::Pair;
use moves::{Saving, decide, gains, reading, words};

// The best move of node v, counted from 0; what it saves.
pub fn rewrite_node<'x>(
    inputs: u32,
    nodes: u32,
    outputs: u32,
    node_table: &'x [u32],
    node_bits: &'x mut [u64],
    output_table: &'x [u32],
    output_bits: &'x mut [u64],
    locks: &'x [u8],
    v: u32,
) -> Saving
    requires { let g = graph_in inputs nodes outputs node_table.now node_bits.old output_table.now output_bits.old in
        Admitted g × (v < nodes) × (nodes ≤ length locks.now) }
    ensures { let g = graph_in inputs nodes outputs node_table.now node_bits.old output_table.now output_bits.old in
        let h = graph_in inputs nodes outputs node_table.now node_bits.new output_table.now output_bits.new in
        outcome (told_saving result) h ≡ rewrite g locks.now ((inputs + 1 + v) ∷ []) }
{
    let lent = Lent {
        inputs,
        nodes,
        outputs,
        node_table: Table {
            indices: node_table,
            bits: node_bits,
        },
        output_table: Table {
            indices: output_table,
            bits: output_bits,
        },
        locks,
    };
    let n = reading::numbers_of(&lent, v);
    let z = n.costs;
    let m = decide::first_least(n.xor, n.moves, z, n.readers, n.odd);
    let before = decide::move_cost(n.xor, z, n.readers, n.odd, 0);
    let after = decide::move_cost(n.xor, z, n.readers, n.odd, m);
    let odds = gains::node_odds(n, m);
    write::write_move(
        inputs,
        nodes,
        outputs,
        node_table,
        node_bits,
        output_table,
        output_bits,
        v,
        m,
    );
    gains::saved_by(before, after, odds)
}

// The best moves of node p and of node v above it, both counted from 0; what they save.
pub fn rewrite_pair<'x>(
    inputs: u32,
    nodes: u32,
    outputs: u32,
    node_table: &'x [u32],
    node_bits: &'x mut [u64],
    output_table: &'x [u32],
    output_bits: &'x mut [u64],
    locks: &'x [u8],
    p: u32,
    v: u32,
) -> Saving
    requires { let g = graph_in inputs nodes outputs node_table.now node_bits.old output_table.now output_bits.old in
        Admitted g × (p < v) × (v < nodes) × (nodes ≤ length locks.now) }
    ensures { let g = graph_in inputs nodes outputs node_table.now node_bits.old output_table.now output_bits.old in
        let h = graph_in inputs nodes outputs node_table.now node_bits.new output_table.now output_bits.new in
        outcome (told_saving result) h ≡ rewrite g locks.now ((inputs + 1 + p) ∷ (inputs + 1 + v) ∷ []) }
{
    let lent = Lent {
        inputs,
        nodes,
        outputs,
        node_table: Table {
            indices: node_table,
            bits: node_bits,
        },
        output_table: Table {
            indices: output_table,
            bits: output_bits,
        },
        locks,
    };
    let named = reading::numbers_of(&lent, p);
    let node = reading::numbers_of(&lent, v);
    let which = words::which_name(&lent.node_table, v as usize, inputs + 1 + p);
    let pair = Pair { named, node, which };
    let best = decide::best_pair(pair);
    let k = best.named;
    let m = best.node;
    let odds = gains::pair_odds(named, node, which, k, m);
    write::write_pair(
        inputs,
        nodes,
        outputs,
        node_table,
        node_bits,
        output_table,
        output_bits,
        p,
        k,
        v,
        m,
    );
    gains::saved_by(best.saving, 0, odds)
}

// The index that a word of a node names.
pub fn named_by(inputs: u32, node_table: &Table, node: u32, word: u32) -> u32
    requires { let l = lent_table node_table.now in
        let j = 3 * (node - (inputs + 1)) + (word - 1) in
        (inputs < node) × (node ≤ 200000) × (1 ≤ word) × (word ≤ 3) × (j < held l) × (index (get_or l j 0) < 2147483647) }
    ensures { let l = lent_table node_table.now in
        ((n o : ℕ) (os : List ℕ) → result ≡ named_by (graph_of inputs n o l os) node word) }
{
    let v = node - (inputs + 1);
    let at = 3 * v as usize + (word - 1) as usize;
    node_table.index_at(at)
}

// The best moves of a node and of the node that one of its words names, if it names one; what they save.
pub fn rewrite_named(
    inputs: u32,
    nodes: u32,
    outputs: u32,
    node_table: &[u32],
    node_bits: &mut [u64],
    output_table: &[u32],
    output_bits: &mut [u64],
    locks: &[u8],
    node: u32,
    word: u32,
) -> Saving
    requires { let g = graph_in inputs nodes outputs node_table.now node_bits.old output_table.now output_bits.old in
        pair_number g locks.now node word ≡ 0 }
    ensures { let g = graph_in inputs nodes outputs node_table.now node_bits.old output_table.now output_bits.old in
        let h = graph_in inputs nodes outputs node_table.now node_bits.new output_table.now output_bits.new in
        outcome (told_saving result) h ≡ pair_rewrite g locks.now node word }
{
    let named = named_by(
        inputs,
        &Table {
            indices: node_table,
            bits: node_bits,
        },
        node,
        word,
    );
    if named <= inputs {
        return Saving { own: 0, others: 0 };
    }
    let p = named - (inputs + 1);
    let v = node - (inputs + 1);
    rewrite_pair(
        inputs,
        nodes,
        outputs,
        node_table,
        node_bits,
        output_table,
        output_bits,
        locks,
        p,
        v,
    )
}
