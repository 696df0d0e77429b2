// Typed rules through the call: texts from standard input, each behind its length in two bytes, and for each a line: what the call answers
// at flags 0, how many records were read, and a digest of them.
#![tactic(auto)]

ghost use Rattle.std.specs.Prelude.{◌≤◌, ◌<◌, length, IfSome};

use frames::read_full;
use limits::{
    EDGE_TRAY_LENGTH, FORMULA_TRAY_LENGTH, MOST_TEXT, NODE_TRAY_LENGTH, RECORD_LENGTH,
    TEXT_TRAY_LENGTH, TextRecords,
};
use prover::Verdict;
use refusal::{Reason, Refusal};
use std::fmt;
use typed::prove_typed;

// No text of the cases is longer.
const CASE_LENGTH: usize = 5000;

// What the tray of the records is lent with.
const FILLING: u8 = 165;

// The line of an answer, up to the records.
#[derive(Clone, Copy)]
struct Line(Result<Verdict, Refusal>);

impl fmt::Display for Line {
    fn fmt<W: fmt::Write>(&self, f: &mut fmt::Formatter<W>) -> fmt::Result {
        match self.0 {
            Err(Refusal { reason, place }) => write!(f, "refused {} {place}", u16::from(reason)),
            Ok(verdict) => {
                let word = word(verdict);
                write!(
                    f,
                    "{word} {} {} {}",
                    verdict.identifiers, verdict.worlds, verdict.steps
                )
            }
        }
    }
}

fn word(verdict: Verdict) -> &'static str {
    match (verdict.proved, verdict.late) {
        (true, true) => "proved and late",
        (true, false) => "proved",
        (false, true) => "late",
        (false, false) => "open",
    }
}

// How many records: they end with the last that is marked.
fn record_count(records: &TextRecords) -> usize
    ensures { result ≤ MOST_TEXT }
{
    records
        .chunks_exact(RECORD_LENGTH)
        .rposition(|record| record[1] == 1)
        .map_or(0, |last| last + 1)
}

// A digest with one byte more.
fn fold(d: u64, b: u8) -> u64 {
    (d % 4294967296 * 33 + u64::from(b)) % 4294967296
}

// A digest of the bytes.
fn digest(bytes: &[u8]) -> u64 {
    bytes.iter().fold(5381, |d, b| fold(d, *b))
}

// What stands in the tray behind the records: zeros; or, where nothing was to be written, what it was lent with.
fn filling(answer: Result<Verdict, Refusal>) -> u8 {
    match answer {
        Err(
            Refusal {
                reason: Reason::UnreadableText | Reason::TextTooLong,
                ..
            },
        ) => FILLING,
        _ => 0,
    }
}

// The line of a text.
fn show<P: Print>(rt: &P, text: &[u8]) {
    let mut records = [FILLING; TEXT_TRAY_LENGTH];
    let mut nodes = [0u8; NODE_TRAY_LENGTH];
    let mut formulas = [0u8; FORMULA_TRAY_LENGTH];
    let mut edges = [0u32; EDGE_TRAY_LENGTH];
    let answer = prove_typed(text, 0, &mut records, &mut nodes, &mut formulas, &mut edges);
    let count = record_count(&records);
    let (read, rest) = records.split_at(RECORD_LENGTH * count);
    let filled = filling(answer);
    let more = if rest.iter().all(|b| *b == filled) {
        ""
    } else {
        " and more"
    };
    let line = Line(answer);
    let digest = digest(read);
    let _ = println!(rt; "{line} {count} {digest}{more}");
}

// The length of the text at the start of the input, in two bytes, the low one first, and what comes after them.
fn split_length(input: &[u8]) -> Option<(usize, &[u8])>
    ensures short { IfSome result (λ found. found.0 ≤ CASE_LENGTH) }
    ensures less { IfSome result (λ found. length found.1.now < length input.now) }
{
    let (length, rest) = input.split_first_chunk::<2>()?;
    let n = usize::from(u16::from_le_bytes(*length));
    if CASE_LENGTH < n {
        return None;
    }
    Some((n, rest))
}

// The texts one after the other; what is missing of the last counts as zeros.
fn show_all<P: Print>(rt: &P, input: &[u8]) {
    let mut rest = input;
    while let Some((n, after)) = split_length(rest) {
        let mut text = [0u8; CASE_LENGTH];
        let there = n.min(after.len());
        text[..there].copy_from_slice(&after[..there]);
        show(rt, &text[..n]);
        rest = &after[there..];
    }
}

fn main(rt: HostRuntime) {
    let mut input = [0u8; 65536];
    let (n, _) = read_full(&mut rt.stdin(), &mut input);
    show_all(&rt, &input[..n]);
}
