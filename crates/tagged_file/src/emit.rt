// Writing fields at a place of the buffer, from front to back.
ghost use Rattle.std.specs.Prelude.{◌≡◌, [], ◌∷◌, ◌++◌, ℕ, ◌+◌, ◌≤◌, ◌<◌, length, get_or};
ghost use Rattle.std.proofs.lemmas.List.Edits.{sets};
ghost use Rattle.graph.specs.Finite.{if_equal};
ghost use Rattle.graph.specs.Graph.{index, mark};
ghost use Rattle.graph.specs.Admission.{Admitted};
ghost use Rattle.graph.specs.Inner.{Readable, AllReadable};
ghost use Rattle.graph.specs.Literals.{held};
ghost use Rattle.tagged_file.specs.Write.{big, field_of, lock_field, node_field_at, output_field_at, lock_field_at, in_order, file_of};
ghost use Rattle.graph.specs.Tables.{lent_graph, lent_table};

use graph::Lent;
use graph::literal::MARK;
use graph::table::Table;

// Byte by byte: the file's fixed format over lent bytes.
pub fn put_number(buffer: &mut [u8], at: usize, number: u32)
    requires { at + 4 ≤ length buffer.old }
    ensures { buffer.new ≡ sets buffer.old at (big 4 number) }
{
    buffer[at] = (number / 256 / 256 / 256 % 256) as u8;
    buffer[at + 1] = (number / 256 / 256 % 256) as u8;
    buffer[at + 2] = (number / 256 % 256) as u8;
    buffer[at + 3] = (number % 256) as u8;
}

// A tag, and a payload's length below 256.
pub fn put_head(buffer: &mut [u8], at: usize, tag: u8, size: u8)
    requires { at + 3 ≤ length buffer.old }
    ensures { buffer.new ≡ sets buffer.old at (tag ∷ 0 ∷ size ∷ []) }
{
    buffer[at] = tag;
    buffer[at + 1] = 0;
    buffer[at + 2] = size;
}

// A field of three numbers.
pub fn put_three(buffer: &mut [u8], at: usize, tag: u8, x: u32, y: u32, z: u32)
    requires { at + 15 ≤ length buffer.old }
    ensures { buffer.new ≡ sets buffer.old at (field_of tag (big 4 x ++ (big 4 y ++ big 4 z))) }
{
    put_head(buffer, at, tag, 12);
    put_number(buffer, at + 3, x);
    put_number(buffer, at + 7, y);
    put_number(buffer, at + 11, z);
}

// A field of one number.
pub fn put_single(buffer: &mut [u8], at: usize, tag: u8, x: u32)
    requires { at + 7 ≤ length buffer.old }
    ensures { buffer.new ≡ sets buffer.old at (field_of tag (big 4 x)) }
{
    put_head(buffer, at, tag, 4);
    put_number(buffer, at + 3, x);
}

// The tag of a node's field, by the node's third word, and the length of its payload.
pub fn node_tag(z: u32) -> u8
    ensures { result ≡ if_equal z mark 3 2 }
{
    if z == MARK {
        return 3;
    }
    2
}

pub fn node_payload(z: u32) -> u8
    ensures { result ≡ if_equal z mark 8 12 }
{
    if z == MARK {
        return 8;
    }
    12
}

// The last number of a node's field: an XOR has no third.
pub fn last_number(y: u32, z: u32) -> u32
    ensures { result ≡ if_equal z mark y z }
{
    if z == MARK {
        return y;
    }
    z
}

// Node v; returns the place after its field. Each word is read when it is put, so that the bytes of a number are one store. The last number
// is put where the payload ends, an XOR's second one a second time, so that nothing jumps on the kind.
pub fn put_node(buffer: &mut [u8], at: usize, node_table: &Table, v: usize) -> usize
    requires { let ns = lent_table node_table.now in
        Readable ns v × (at + length (node_field_at ns v) ≤ length buffer.old) }
    ensures { let field = node_field_at (lent_table node_table.now) v in
        (result ≡ at + length field) × (buffer.new ≡ sets buffer.old at field) }
{
    let three = node_table.three_at(v);
    let x = node_table.word_of(v, 0, three);
    put_number(buffer, at + 3, x);
    let y = node_table.word_of(v, 1, three);
    put_number(buffer, at + 7, y);
    let z = node_table.word_of(v, 2, three);
    let payload = node_payload(z);
    let last = at + payload as usize - 1;
    put_number(buffer, last, last_number(y, z));
    put_head(buffer, at, node_tag(z), payload);
    last + 4
}

// The three loops that follow differ in what is put. One over a closure is no plainer: its contract would say again what each field is.
pub fn put_nodes(buffer: &mut [u8], start: usize, nodes: u32, node_table: &Table) -> usize
    requires { let ns = lent_table node_table.now in
        AllReadable nodes ns × (start + length (in_order (node_field_at ns) 0 nodes) ≤ length buffer.old) }
    ensures { let fields = in_order (node_field_at (lent_table node_table.now)) 0 nodes in
        (result ≡ start + length fields) × (buffer.new ≡ sets buffer.old start fields) }
{
    let mut at = start;
    for v in 0..nodes as usize {
        at = put_node(buffer, at, node_table, v);
    }
    at
}

pub fn put_outputs(buffer: &mut [u8], start: usize, outputs: u32, output_table: &Table) -> usize
    requires { let os = lent_table output_table.now in
        ((outputs ≤ held os) × ((j : ℕ) → j < outputs → index (get_or os j 0) < 2147483647)) × (start + length (in_order (output_field_at os) 0 outputs) ≤ length buffer.old) }
    ensures { let fields = in_order (output_field_at (lent_table output_table.now)) 0 outputs in
        (result ≡ start + length fields) × (buffer.new ≡ sets buffer.old start fields) }
{
    let mut at = start;
    for j in 0..outputs as usize {
        put_single(buffer, at, 4, output_table.edge_at(j));
        at += 7;
    }
    at
}

// Returns the place after the lock: a free node takes no bytes.
pub fn put_lock(buffer: &mut [u8], at: usize, lock: u8, index: u32) -> usize
    requires { at + length (lock_field lock index) ≤ length buffer.old }
    ensures value { result ≡ at + length (lock_field lock index) }
    ensures buffer_after { buffer.new ≡ sets buffer.old at (lock_field lock index) }
{
    if lock != 1 {
        return at;
    }
    put_single(buffer, at, 6, index);
    at + 7
}

// The locks of the nodes, of which the first has this index.
pub fn put_locks(buffer: &mut [u8], start: usize, index: u32, nodes: u32, locks: &[u8]) -> usize
    requires nodes_in_bounds { (nodes ≤ length locks.now) × (index + nodes < 4294967296) }
    requires nodes_in_bounds_2 { start + length (in_order (lock_field_at index locks.now) 0 nodes) ≤ length buffer.old }
    ensures value { result ≡ start + length (in_order (lock_field_at index locks.now) 0 nodes) }
    ensures buffer_after { buffer.new ≡ sets buffer.old start (in_order (lock_field_at index locks.now) 0 nodes) }
{
    let mut at = start;
    for v in 0..nodes {
        at = put_lock(buffer, at, locks[v as usize], index + v);
    }
    at
}

// The whole file, from the front; returns its length.
pub fn put_file(lent: &Lent, buffer: &mut [u8]) -> usize
    requires { let g = lent_graph lent.now in
        Admitted g × (lent.now.nodes ≤ length lent.now.locks.now) × (length (file_of g lent.now.locks.now) ≤ length buffer.old) }
    ensures { let g = lent_graph lent.now in
        (result ≡ length (file_of g lent.now.locks.now)) × (buffer.new ≡ sets buffer.old 0 (file_of g lent.now.locks.now)) }
{
    put_three(buffer, 0, 1, lent.inputs, lent.nodes, lent.outputs);
    let second = put_nodes(buffer, 15, lent.nodes, &lent.node_table);
    let third = put_outputs(buffer, second, lent.outputs, &lent.output_table);
    let end = put_locks(buffer, third, lent.inputs + 1, lent.nodes, lent.locks);
    put_head(buffer, end, 5, 0);
    end + 3
}
