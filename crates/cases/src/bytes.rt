// Bytes of a slice, and the words of a line.
ghost use Rattle.std.specs.Prelude.{◌≡◌, ◌+◌, ◌<◌, min, length, IfSome};
ghost use Rattle.cases.specs.Bytes.{two_at, filled, begins_with, end_of, start_of, word_at, hex_digit, hex_byte, decimal_after, number_of, hex_after, written, decoded};

use arrayvec::ArrayVec;
use slices::byte_at;

// The most bytes that a branch of a line may have.
pub const MOST_BYTES: usize = 2048;

// Bytes i and i + 1 as a number, the low byte first.
#[tactic(auto, unfolding(crate::specs::Bytes::two_at))]
pub fn two(s: &[u8], i: usize) -> u16
    ensures { result ≡ two_at s.now i }
{
    if i < s.len() {
        u16::from_le_bytes([byte_at(s, i), byte_at(s, i + 1)])
    } else {
        0
    }
}

// Whether the bytes from a position to an end have a value.
pub fn all(s: &[u8], from: usize, to: usize, value: u8) -> bool
    ensures { result ≡ filled s.now from to value }
{
    (from..to).all(|i| byte_at(s, i) == value)
}

// Whether s, with zeros behind it, begins with t.
pub fn begins(s: &[u8], t: &[u8]) -> bool
    ensures { result ≡ begins_with s.now t.now }
{
    (0..t.len()).all(|i| byte_at(s, i) == t[i])
}

// Where the word that starts at a position ends.
pub fn end_of(line: &[u8], from: usize) -> usize
    ensures { result ≡ end_of line.now from }
{
    let rest = &line[from.min(line.len())..];
    from + rest.iter().position(|b| *b == b' ').unwrap_or(rest.len())
}

// Where word k starts; the end of the line if it has no such word.
#[tactic(auto, using(crate::proofs::Words::starting))]
pub fn start_of(line: &[u8], k: usize) -> usize
    ensures { result ≡ start_of line.now k }
{
    let mut spaces = 0;
    for (i, b) in line.iter().enumerate() {
        if spaces == k {
            return i;
        }
        if *b == b' ' {
            spaces += 1;
        }
    }
    line.len()
}

// Word k; empty if the line has no such word.
#[tactic(auto, using(crate::proofs::Words::word_from_to, crate::proofs::Words::word_is))]
fn word_at(line: &[u8], k: usize) -> &[u8]
    ensures { result.now ≡ word_at line.now k }
{
    let from = start_of(line, k);
    &line[from..end_of(line, from)]
}

// The digits as a decimal number below a million.
#[tactic(auto, using(crate::proofs::Words::summing))]
fn decimal(digits: &[u8]) -> Option<usize>
    ensures { result ≡ decimal_after 0 digits.now }
{
    let mut n = 0;
    for b in digits {
        let digit = hex_digit(*b)?;
        if 9 < digit || 99999 < n {
            return None;
        }
        n = 10 * n + usize::from(digit);
    }
    Some(n)
}

// Word k as a decimal number below a million.
#[tactic(auto, using(crate::proofs::Words::number_none, crate::proofs::Words::number_some))]
pub fn number_of(line: &[u8], k: usize) -> Option<usize>
    ensures { result ≡ number_of line.now k }
{
    let word = word_at(line, k);
    if word.is_empty() {
        return None;
    }
    decimal(word)
}

// The value of a hexadecimal digit. `char::to_digit` takes capitals too, which are no digits here.
#[tactic(auto, unfolding(crate::specs::Bytes::hex_digit))]
fn hex_digit(b: u8) -> Option<u8>
    ensures value { result ≡ hex_digit b }
    ensures bound { IfSome result (λ digit. digit < 16) }
{
    match b {
        b'0'..=b'9' => Some(b - b'0'),
        b'a'..=b'f' => Some(b - b'a' + 10),
        _ => None,
    }
}

// The number of the first eight hexadecimal digits.
#[tactic(auto, using(crate::proofs::Hex::hexing))]
pub fn hex_number(digits: &[u8]) -> Option<u64>
    ensures { result ≡ hex_after 8 0 digits.now }
{
    let mut n = 0;
    for b in digits.get(..8)? {
        n = 16 * n + u64::from(hex_digit(*b)?);
    }
    Some(n)
}

// The byte of two hexadecimal digits; what is no digit counts as 0.
#[tactic(auto, unfolding(crate::specs::Bytes::hex_byte))]
fn hex_byte(line: &[u8], i: usize) -> u8
    requires { i < length line.now }
    ensures { result ≡ hex_byte line.now i }
{
    let high = hex_digit(byte_at(line, i)).unwrap_or(0);
    let low = hex_digit(byte_at(line, i + 1)).unwrap_or(0);
    16 * high + low
}

// The bytes written in hexadecimal from a position to an end, as many as there is room for.
#[tactic(auto, using(crate::proofs::Hex::decoding))]
pub fn decode(line: &[u8], from: usize, to: usize) -> ArrayVec<u8, MOST_BYTES>
    ensures { result.items ≡ decoded line.now from (min 2048 (written line.now from to)) }
{
    let digits = to.min(line.len()).saturating_sub(from);
    let count = digits.div_ceil(2).min(MOST_BYTES);
    let mut bytes = ArrayVec::new();
    for n in 0..count {
        bytes.push(hex_byte(line, from + 2 * n));
    }
    bytes
}
