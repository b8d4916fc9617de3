// Texts and numbers, put into a buffer one after another: each function answers the place after what it has put.
ghost use Rattle.std.specs.Prelude.{◌≡◌, ◌+◌, ◌≤◌, length};
ghost use Rattle.std.proofs.lemmas.List.Edits.{sets};
ghost use Rattle.report.specs.Report.{numbered, line1, line2, line3, line4};

pub fn put_text(buffer: &mut [u8], at: usize, text: &[u8]) -> usize
    requires { at + length text.now ≤ length buffer.old }
    ensures { (result ≡ at + length text.now) × (buffer.new ≡ sets buffer.old at text.now) }
{
    let end = at + text.len();
    buffer[at..end].copy_from_slice(text);
    end
}

pub fn put_numbered(buffer: &mut [u8], at: usize, text: &[u8], a: u32) -> usize
    requires { at + length (numbered text.now a) ≤ length buffer.old }
    ensures { (result ≡ at + length (numbered text.now a)) × (buffer.new ≡ sets buffer.old at (numbered text.now a)) }
{
    let middle = put_text(buffer, at, text);
    graph::decimal::put(buffer, middle, a)
}

pub fn put_line1(buffer: &mut [u8], at: usize, t: &[u8], a: u32) -> usize
    requires { at + length (line1 t.now a) ≤ length buffer.old }
    ensures { (result ≡ at + length (line1 t.now a)) × (buffer.new ≡ sets buffer.old at (line1 t.now a)) }
{
    let end = put_numbered(buffer, at, t, a);
    buffer[end] = b'\n';
    end + 1
}

pub fn put_line2(buffer: &mut [u8], at: usize, t: &[u8], a: u32, u: &[u8], b: u32) -> usize
    requires { at + length (line2 t.now a u.now b) ≤ length buffer.old }
    ensures { (result ≡ at + length (line2 t.now a u.now b)) × (buffer.new ≡ sets buffer.old at (line2 t.now a u.now b)) }
{
    let middle = put_numbered(buffer, at, t, a);
    put_line1(buffer, middle, u, b)
}

pub fn put_line3(
    buffer: &mut [u8],
    at: usize,
    t: &[u8],
    a: u32,
    u: &[u8],
    b: u32,
    v: &[u8],
    c: u32,
) -> usize
    requires { at + length (line3 t.now a u.now b v.now c) ≤ length buffer.old }
    ensures { (result ≡ at + length (line3 t.now a u.now b v.now c)) × (buffer.new ≡ sets buffer.old at (line3 t.now a u.now b v.now c)) }
{
    let middle = put_numbered(buffer, at, t, a);
    put_line2(buffer, middle, u, b, v, c)
}

pub fn put_line4(
    buffer: &mut [u8],
    at: usize,
    t: &[u8],
    a: u32,
    u: &[u8],
    b: u32,
    v: &[u8],
    c: u32,
    w: &[u8],
    d: u32,
) -> usize
    requires { at + length (line4 t.now a u.now b v.now c w.now d) ≤ length buffer.old }
    ensures { (result ≡ at + length (line4 t.now a u.now b v.now c w.now d)) × (buffer.new ≡ sets buffer.old at (line4 t.now a u.now b v.now c w.now d)) }
{
    let middle = put_numbered(buffer, at, t, a);
    put_line3(buffer, middle, u, b, v, c, w, d)
}
