// Numbers and lines, at the front of the bytes that are left.
ghost use Rattle.std.specs.Prelude.{◌≡◌, ◌⊎◌, suc, ◌-◌, ◌<◌, ◌≤◌, length, MatchOption};
ghost use Rattle.aiger.specs.Lines.{digits, number};
ghost use Rattle.aiger_import.specs.Reading.{DigitsRead, NumberRead, LineRead, NumberThere};

use graph::Refusal;

#[derive(Clone, Copy)]
pub struct Digits {
    pub value: u64,
    pub count: usize,
}

// A number, and its bytes with the one after it.
#[derive(Clone, Copy)]
pub struct Number {
    pub value: u32,
    pub size: usize,
}

// What a digit says.
pub fn digit(b: u8) -> Option<u64>
    ensures { MatchOption result ((b < 48) ⊎ (58 ≤ b)) (λ d. (48 ≤ b) × (b < 58) × (d ≡ b - 48)) }
{
    match b {
        b'0'..=b'9' => Some((b - b'0') as u64),
        _ => None,
    }
}

// Stops where the value reaches 2 to the 32nd, so that any run of digits is safe.
pub fn digits_at(s: &[u8]) -> Digits
    ensures { DigitsRead s.now result.value result.count }
{
    let mut value: u64 = 0;
    for (count, b) in s.iter().enumerate() {
        let Some(d) = digit(*b) else {
            return Digits { value, count };
        };
        value = 10 * value + d;
        if 4294967296 <= value {
            return Digits {
                value,
                count: count + 1,
            };
        }
    }
    Digits {
        value,
        count: s.len(),
    }
}

// The number at the front, which the byte `end` has to follow, with no zero before its other digits.
pub fn number_at(s: &[u8], end: u8) -> Result<Number, Refusal>
    requires { 0 < end }
    ensures { NumberRead end s.now result }
{
    let d = digits_at(s);
    let value = d.value;
    let count = d.count;
    if 4294967296 <= value {
        return Err(Refusal::BadText);
    }
    if count == 0 {
        return Err(Refusal::BadText);
    }
    if s.len() <= count {
        return Err(Refusal::BadText);
    }
    if s[count] != end {
        return Err(Refusal::BadText);
    }
    if s[0] == b'0' && 1 < count {
        return Err(Refusal::BadText);
    }
    Ok(Number {
        value: value as u32,
        size: count + 1,
    })
}

// A line of k numbers with a space after each and one with a newline, stored in `numbers`; returns its bytes.
pub fn read_line(s: &[u8], k: usize, numbers: &mut [u32]) -> Result<usize, Refusal>
    requires { k < length numbers.old }
    ensures { LineRead k s.now numbers.new result }
{
    let mut at: usize = 0;
    for j in 0..k {
        let n = number_at(&s[at..], b' ')?;
        numbers[j] = n.value;
        at += n.size;
    }
    let n = number_at(&s[at..], b'\n')?;
    numbers[k] = n.value;
    Ok(at + n.size)
}

// The number at the front, which the check pass has accepted: one test a byte, where a `for` over the slice would test for its end too.
pub fn known_number(s: &[u8]) -> Number
    requires { NumberThere s.now }
    ensures { (result.value ≡ number s.now) × (result.size ≡ suc (digits s.now)) }
{
    let mut value: u32 = 0;
    let mut k: usize = 0;
    while b'0' <= s[k] {
        value = 10 * value + (s[k] - b'0') as u32;
        k += 1;
    }
    Number { value, size: k + 1 }
}
