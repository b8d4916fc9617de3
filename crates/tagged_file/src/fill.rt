// The fill pass, over a file that the check pass accepts.
ghost use Rattle.std.specs.Prelude.{◌≡◌, [], ◌∷◌, ◌+◌, ◌*◌, ◌≤◌, length};
ghost use Rattle.graph.specs.Inner.{begun, words_put};
ghost use Rattle.graph.specs.Literals.{held, literals, filled};
ghost use Rattle.file_checks.specs.File.{be4, third, node_words, single_words, after_nodes, after_singles, lock_count, lock_indices};
ghost use Rattle.file_checks.specs.Walk.{NodeThere, Nodes, Outputs, Locks};
ghost use Rattle.tagged_file.specs.Inner.{locked_at};

use file_checks::{bytes, fields};
use graph::table;

// Puts the words of the node at the front from place `at` on; returns the bits that are gathered then.
pub fn fill_node(
    s: &[u8],
    at: usize,
    got: u64,
    node_table: &mut [u32],
    node_bits: &mut [u64],
) -> u64
    requires { NodeThere s.now × (at + 3 ≤ held (literals node_table.old node_bits.old)) }
    ensures { let words = be4 s.now 3 ∷ be4 s.now 7 ∷ third s.now ∷ [] in
        literals node_table.new (begun (at + 3) result node_bits.new) ≡ words_put at words (literals node_table.old (begun at got node_bits.old)) }
{
    table::put_three(
        node_table,
        node_bits,
        at,
        got,
        bytes::four(s, 3),
        bytes::four(s, 7),
        fields::third_word(s),
    )
}

// Fills the node table; returns what follows the nodes.
pub fn fill_nodes<'a>(
    rest: &'a [u8],
    nodes: u32,
    node_table: &mut [u32],
    node_bits: &mut [u64],
) -> &'a [u8]
    requires nodes { Nodes nodes rest.now }
    requires nodes_bound { (3 * nodes ≤ held (literals node_table.old node_bits.old)) × (nodes ≤ 100000) }
    ensures result_value { result.now ≡ after_nodes nodes rest.now }
    ensures node_bits_after { let ns = literals node_table.old node_bits.old in
        literals node_table.new node_bits.new ≡ filled (node_words nodes rest.now) ns }
{
    let end = nodes as usize;
    let mut s = rest;
    let mut got: u64 = 0;
    for v in 0..end {
        got = fill_node(s, 3 * v, got, node_table, node_bits);
        s = &s[fields::node_size(s)..];
    }
    table::put_last(node_bits, 3 * end, got);
    s
}

// Fills the output table; returns what follows the outputs.
pub fn fill_outputs<'a>(
    rest: &'a [u8],
    outputs: u32,
    output_table: &mut [u32],
    output_bits: &mut [u64],
) -> &'a [u8]
    requires outputs { Outputs outputs rest.now }
    requires outputs_bound { (outputs ≤ held (literals output_table.old output_bits.old)) × (outputs ≤ 100000) }
    ensures result_value { result.now ≡ after_singles outputs rest.now }
    ensures output_bits_after { let os = literals output_table.old output_bits.old in
        literals output_table.new output_bits.new ≡ filled (single_words outputs rest.now) os }
{
    let end = outputs as usize;
    let mut s = rest;
    let mut got: u64 = 0;
    for j in 0..end {
        got = table::put_word(output_table, output_bits, j, got, bytes::four(s, 3));
        s = &s[7..];
    }
    table::put_last(output_bits, end, got);
    s
}

// Sets the byte of each node that a lock names, the first node having the index start.
pub fn fill_locks(rest: &[u8], start: u32, locks: &mut [u8])
    requires { Locks (lock_count rest.now) rest.now start (start + length locks.old) }
    ensures { locks.new ≡ locked_at start (lock_indices rest.now) locks.old }
{
    let mut s = rest;
    while let [6, ..] = s {
        let at = (bytes::four(s, 3) - start) as usize;
        locks[at] = 1;
        s = &s[7..];
    }
}
