// The leaves that read, turn and store a literal of a table of either kind: no other function of any crate indexes one, so that
// none knows how a literal is kept. A table is a slice of indices and a slice of words of 64 bits with their complement bits.
ghost use Rattle.std.specs.Prelude.{◌≡◌, ℕ, ◌+◌, ◌*◌, ◌/◌, ◌%◌, ◌<◌, ◌≤◌, List, [], ◌∷◌, ◌++◌, length, drop, set, ◌==◌, ◌≢◌, slice_index, slice_set};
ghost use Rattle.graph.specs.Finite.{tab, sum};
ghost use Rattle.graph.specs.Graph.{index, mark};
ghost use Rattle.graph.specs.Inner.{Names, IsWord, Readable, Turnable, three_turns, three_bits, Twelve, Thirds, begun, word_put, words_put, BitPut};
ghost use Rattle.graph.specs.Literals.{bit, bit_at, index_at, literal_of, literals, held, bit_of, words_for, strays, ones_in, filled};
ghost use Rattle.graph.specs.Turned.{turned_table, only};
ghost use Rattle.graph.specs.Tables.{lent_table};

use crate::literal::MARK;

// How many literals a table holds.
pub fn room_of(table: &[u32], bits: &[u64]) -> usize
    ensures { result ≡ held (literals table.now bits.now) }
{
    let words = bits.len();
    let places = table.len();
    if words <= places / 64 {
        return 64 * words;
    }
    places
}

// Literals as they are lent: indices in one slice, and their complement bits in words of 64 beside it.
#[derive(Clone, Copy)]
pub struct Table<'a> {
    pub indices: &'a [u32],
    pub bits: &'a [u64],
}

impl Table<'_> {
    // The same where there is a bit too, as what it says of the table.
    pub fn index_at(&self, j: usize) -> u32
        requires { j < held (lent_table self.now) }
        ensures { Names (slice_index (lent_table self.now) j) result }
    {
        raw_at(self.indices, j)
    }

    // Whether the mark stands there, and no literal.
    pub fn is_mark_at(&self, j: usize) -> bool
        requires { (j < held (lent_table self.now)) × IsWord (slice_index (lent_table self.now) j) }
        ensures { result ≡ (slice_index (lent_table self.now) j == mark) }
    {
        raw_at(self.indices, j) == MARK
    }

    // The bit of what stands there, 0 at a mark: no index is looked at.
    pub fn odd_at(&self, j: usize) -> u32
        requires { j < held (lent_table self.now) }
        ensures { (result ≡ bit_of (slice_index (lent_table self.now) j)) × (result ≤ 1) }
    {
        bit_at(self.bits, j)
    }

    // The literal there, or the mark.
    pub fn word_at(&self, j: usize) -> u32
        requires { (j < held (lent_table self.now)) × (slice_index (lent_table self.now) j < 4294967296) }
        ensures { result ≡ slice_index (lent_table self.now) j }
    {
        joined(raw_at(self.indices, j), bit_at(self.bits, j))
    }

    // The same where it is no mark.
    pub fn edge_at(&self, j: usize) -> u32
        requires { (j < held (lent_table self.now)) × (index (slice_index (lent_table self.now) j) < 2147483647) }
        ensures { result ≡ slice_index (lent_table self.now) j }
    {
        2 * raw_at(self.indices, j) + bit_at(self.bits, j)
    }

    // The bits of the words of node v, the first lowest: by one shift, unless they lie in two words of bits.
    pub fn three_at(&self, v: usize) -> u32
        requires { Readable (lent_table self.now) v }
        ensures { result ≡ three_bits (lent_table self.now) v }
    {
        let at = 3 * v;
        if at % 64 < 62 {
            return ((self.bits[at / 64] >> (at % 64)) % 8) as u32;
        }
        bit_at(self.bits, at) + 2 * bit_at(self.bits, at + 1) + 4 * bit_at(self.bits, at + 2)
    }

    // The same of four nodes, those of node v lowest.
    pub fn twelve_at(&self, v: usize) -> u32
        requires { let l = lent_table self.now in
            Readable l v × Readable l (v + 1) × Readable l (v + 2) × Readable l (v + 3) }
        ensures { Twelve (lent_table self.now) v result }
    {
        let at = 3 * v;
        if at % 64 < 53 {
            return ((self.bits[at / 64] >> (at % 64)) % 4096) as u32;
        }
        let low = self.three_at(v) + 8 * self.three_at(v + 1);
        low + 64 * self.three_at(v + 2) + 512 * self.three_at(v + 3)
    }

    // Word k of node v, whose words have these bits.
    pub fn word_of(&self, v: usize, k: usize, three: u32) -> u32
        requires { Readable (lent_table self.now) v × (k ≤ 2) × (three ≡ three_bits (lent_table self.now) v) }
        ensures { result ≡ slice_index (lent_table self.now) (3 * v + k) }
    {
        joined(raw_at(self.indices, 3 * v + k), (three >> k) % 2)
    }
}

// How many words the bits of n places take.
pub fn words_for(n: usize) -> usize
    requires { n ≤ 1000000 }
    ensures { result ≡ words_for n }
{
    (n + 63) / 64
}

// Bit j of the words.
pub fn bit_at(bits: &[u64], j: usize) -> u32
    requires { j < 64 * length bits.now }
    ensures { (result ≡ bit_at bits.now j) × (result ≤ 1) }
{
    ((bits[j / 64] >> (j % 64)) % 2) as u32
}

// The bits of the third words of four nodes from place `at` on, each where it stands among twelve places: by one shift, unless they lie in two
// words of bits.
pub fn thirds_at(bits: &[u64], at: usize) -> u32
    requires { (at + 11 < 64 * length bits.now) × (at ≤ 1000000) }
    ensures { Thirds bits.now at result }
{
    if at % 64 < 53 {
        return ((bits[at / 64] >> (at % 64)) % 4096) as u32;
    }
    let low = 4 * bit_at(bits, at + 2) + 32 * bit_at(bits, at + 5);
    low + 256 * bit_at(bits, at + 8) + 2048 * bit_at(bits, at + 11)
}

// How many bits are set in the first words.
pub fn ones_in(words: usize, bits: &[u64]) -> u32
    requires { (words ≤ length bits.now) × (words ≤ 100000) }
    ensures { (result ≡ ones_in words bits.now) × (result ≡ sum (64 * words) (bit_at bits.now)) × (result ≤ 64 * words) }
{
    let mut c: u32 = 0;
    for word in &bits[..words] {
        c += word.count_ones();
    }
    c
}

// How many bits are set from place n on in its word, where that is not the word's first.
pub fn ones_from(bits: &[u64], n: usize) -> u32
    requires { (n < 64 * length bits.now) × (n % 64 ≢ 0) }
    ensures { (us : List ℕ) → result ≡ strays n (literals us bits.now) }
{
    u64::count_ones(bits[n / 64] >> (n % 64))
}

// What an index and a bit say, where that is a literal or the mark.
pub fn joined(u: u32, b: u32) -> u32
    requires { (b ≤ 1) × (literal_of u b < 4294967296) }
    ensures { result ≡ literal_of u b }
{
    if u == MARK {
        return MARK;
    }
    2 * u + b
}

// What stands in the index table for a word, and its bit.
pub fn stored_index(x: u32) -> u32
    requires { IsWord x }
    ensures { literal_of result (bit_of x) ≡ x }
{
    if x == MARK {
        return MARK;
    }
    x / 2
}

pub fn stored_bit(x: u32) -> u32
    requires { IsWord x }
    ensures { (result ≡ bit_of x) × (result ≤ 1) }
{
    if x == MARK {
        return 0;
    }
    x % 2
}

// A word of 64 bits with bit k changed t times.
pub fn flipped(w: u64, k: usize, t: u32) -> u64
    requires { k < 64 }
    ensures { (m : ℕ) → bit m result ≡ (bit m w + only k t m) % 2 }
{
    w ^ (((t % 2) as u64) << k)
}

// What the index table has at place j.
pub fn raw_at(table: &[u32], j: usize) -> u32
    requires { j < length table.now }
    ensures { result ≡ index_at table.now j }
{
    table[j]
}

// Turns it t times. What is turned names an index below the mark's. Whether anything is turned is not tested: a sweep in which it cannot be
// foreseen would wait at each word.
pub fn turn_word(table: &[u32], bits: &mut [u64], j: usize, t: u32)
    requires { (t ≤ 2) × (j < held (literals table.now bits.old)) × ((0 < t) → index (slice_index (literals table.now bits.old) j) < 2147483647) }
    ensures { literals table.now bits.new ≡ turned_table (literals table.now bits.old) (only j t) }
{
    let k = j / 64;
    bits[k] = flipped(bits[k], j % 64, t);
}

// Turns three words from place j on, by one store, unless their bits lie in two words of bits.
pub fn turn_three(table: &[u32], bits: &mut [u64], j: usize, x: u32, y: u32, z: u32)
    requires { let l = literals table.now bits.old in
        Turnable l j x × Turnable l (j + 1) y × Turnable l (j + 2) z }
    ensures { literals table.now bits.new ≡ turned_table (literals table.now bits.old) (three_turns j x y z) }
{
    let s = j % 64;
    if s < 62 {
        let k = j / 64;
        let one = flipped(bits[k], s, x);
        let two = flipped(one, s + 1, y);
        bits[k] = flipped(two, s + 2, z);
        return;
    }
    turn_word(table, bits, j, x);
    turn_word(table, bits, j + 1, y);
    turn_word(table, bits, j + 2, z);
}

// Stores the word x there.
pub fn set_word(table: &mut [u32], bits: &mut [u64], j: usize, x: u32)
    requires { (j < held (literals table.old bits.old)) × IsWord x }
    ensures { literals table.new bits.new ≡ slice_set (literals table.old bits.old) j x }
{
    let t = bit_at(bits, j) + stored_bit(x);
    let k = j / 64;
    table[j] = stored_index(x);
    bits[k] = flipped(bits[k], j % 64, t);
}

// The bits of a word of 64 that are gathered, the latest highest, with b behind them.
pub fn gathered(got: u64, b: u32) -> u64
    requires { b ≤ 1 }
    ensures { result ≡ got / 2 + b * 9223372036854775808 }
{
    got / 2 + b as u64 * 9223372036854775808
}

// The same of three bits, by one shift.
pub fn gathered_three(got: u64, a: u32, b: u32, c: u32) -> u64
    requires { (a ≤ 1) × (b ≤ 1) × (c ≤ 1) }
    ensures { result ≡ ((got / 2 + a * 9223372036854775808) / 2 + b * 9223372036854775808) / 2 + c * 9223372036854775808 }
{
    got / 8 + (a + 2 * b + 4 * c) as u64 * 2305843009213693952
}

// Puts the word x at place j of a table that is filled from the front: its index at once, its bit with those that are gathered, which are
// stored when their word is full. Returns what is gathered then.
pub fn put_word(table: &mut [u32], bits: &mut [u64], j: usize, got: u64, x: u32) -> u64
    requires { (j < held (literals table.old bits.old)) × IsWord x }
    ensures { literals table.new (begun (j + 1) result bits.new) ≡ word_put j x (literals table.old (begun j got bits.old)) }
{
    let more = gathered(got, stored_bit(x));
    table[j] = stored_index(x);
    if j % 64 != 63 {
        return more;
    }
    bits[j / 64] = more;
    more
}

// Puts three words from place j on: by one test whether their bits fill a word. Each goes through the test of the mark, also where it cannot be
// one: the compiler then reads a number's four bytes at once.
pub fn put_three(
    table: &mut [u32],
    bits: &mut [u64],
    j: usize,
    got: u64,
    x: u32,
    y: u32,
    z: u32,
) -> u64
    requires { (j + 3 ≤ held (literals table.old bits.old)) × IsWord x × IsWord y × IsWord z }
    ensures { literals table.new (begun (j + 3) result bits.new) ≡ words_put j (x ∷ y ∷ z ∷ []) (literals table.old (begun j got bits.old)) }
{
    if 60 < j % 64 {
        let one = put_word(table, bits, j, got, x);
        let two = put_word(table, bits, j + 1, one, y);
        return put_word(table, bits, j + 2, two, z);
    }
    table[j] = stored_index(x);
    table[j + 1] = stored_index(y);
    table[j + 2] = stored_index(z);
    gathered_three(got, stored_bit(x), stored_bit(y), stored_bit(z))
}

// Puts two edges and a third word from place j on, as `put_three` does, with one test of the mark.
pub fn put_node(
    table: &mut [u32],
    bits: &mut [u64],
    j: usize,
    got: u64,
    x: u32,
    y: u32,
    z: u32,
) -> u64
    requires { (j + 3 ≤ held (literals table.old bits.old)) × (index x < 2147483647) × (index y < 2147483647) × IsWord z }
    ensures { literals table.new (begun (j + 3) result bits.new) ≡ words_put j (x ∷ y ∷ z ∷ []) (literals table.old (begun j got bits.old)) }
{
    if 60 < j % 64 {
        return put_three(table, bits, j, got, x, y, z);
    }
    table[j] = x / 2;
    table[j + 1] = y / 2;
    table[j + 2] = stored_index(z);
    gathered_three(got, x % 2, y % 2, stored_bit(z))
}

// Puts the bit b at place j of words of bits that are written from the front, as `put_word` does.
pub fn put_bit(bits: &mut [u64], j: usize, got: u64, b: u32) -> u64
    requires { (j < 64 * length bits.old) × (b ≤ 1) }
    ensures { BitPut (begun j got bits.old) j b (begun (j + 1) result bits.new) }
{
    let more = gathered(got, b);
    if j % 64 != 63 {
        return more;
    }
    bits[j / 64] = more;
    more
}

// Stores the word of bits that has begun before place j, 0 past what is gathered.
pub fn put_last(bits: &mut [u64], j: usize, got: u64)
    requires { j ≤ 64 * length bits.old }
    ensures { bits.new ≡ begun j got bits.old }
{
    let many = j % 64;
    if many == 0 {
        return;
    }
    bits[j / 64] = got >> (64 - many);
}

// Copies the first n indices. Neither copy is `copy_from_slice`: the library for C would need `memmove` for it, which it needs for nothing else.
fn copy_indices(n: usize, table: &[u32], to: &mut [u32])
    requires { (n ≤ length table.now) × (n ≤ length to.old) }
    ensures { to.new ≡ tab n (λ j. slice_index table.now j) ++ drop n to.old }
{
    for j in 0..n {
        to[j] = table[j];
    }
}

// The same of words of bits.
fn copy_bits(n: usize, bits: &[u64], to: &mut [u64])
    requires { (n ≤ length bits.now) × (n ≤ length to.old) }
    ensures { to.new ≡ tab n (λ j. slice_index bits.now j) ++ drop n to.old }
{
    for j in 0..n {
        to[j] = bits[j];
    }
}

// Copies what stands at the places of the first so many words of bits.
pub fn copy_words(words: usize, table: &Table, to_table: &mut [u32], to_bits: &mut [u64])
    requires { let room = held (literals to_table.old to_bits.old) in
        (words ≤ 100000) × (64 * words ≤ held (lent_table table.now)) × (64 * words ≤ room) }
    ensures { let l = lent_table table.now in
        let before = literals to_table.old to_bits.old in
        literals to_table.new to_bits.new ≡ filled (tab (64 * words) (λ j. slice_index l j)) before }
{
    copy_indices(64 * words, table.indices, to_table);
    copy_bits(words, table.bits, to_bits);
}

// The byte at place k of a slice of bytes, as a word.
pub fn byte_at(bytes: &[u8], k: usize) -> u32
    requires { k < length bytes.now }
    ensures { result ≡ slice_index bytes.now k }
{
    bytes[k] as u32
}
