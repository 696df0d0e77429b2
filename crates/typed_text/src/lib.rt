// Typed rules: the eight lines of a text, and where it is garbled, as a compiler says it.
#![tactic(auto)]

ghost use Rattle.std.specs.Prelude.{◌≡◌, [], ◌++◌, ◌+◌, ◌-◌, ◌*◌, ◌≤◌, ◌<◌, Err, IfErr, length, replicate};
ghost use Rattle.arrayvec.specs.ArrayVec.{array_vec_len};
ghost use Rattle.definition.specs.Limits.{record_length, most_text};
ghost use Rattle.definition.specs.Lists.{concat_map};
ghost use Rattle.typed_text.specs.Diagnosis.{line_number, line_start, line_end, plain, shown, reason, heading, diagnosis, shown_length, place_length, reason_length, diagnosis_length};
ghost use Rattle.typed_text.specs.Showing.{ShownAs, offset_of, Runs};

use arrayvec::ArrayVec;
use frames::{
    Lines, RunError, Taken, append, append_number, lines, print, read_full, refusal_lines,
    refuse_argument, report,
};
use limits::{MOST_TEXT, RECORD_LENGTH, TEXT_TRAY_LENGTH};
use reader::{TextError, read_text};
use refusal::Refusal;
use std::io::{Read, Write};

// One byte more than the longest text: it tells that a text is too long.
pub const KEPT_LENGTH: usize = MOST_TEXT + 1;

// At most so many characters are shown of a byte.
const SHOWN_LENGTH: usize = 4;

// Room for the first line of a diagnosis and the ends of the other two.
const HEADING_LENGTH: usize = 96;

pub const DIAGNOSIS_LENGTH: usize = HEADING_LENGTH + 2 * SHOWN_LENGTH * MOST_TEXT;

// What is kept of an input.
pub type Kept = ArrayVec<u8, KEPT_LENGTH>;

pub type Diagnosis = ArrayVec<u8, DIAGNOSIS_LENGTH>;

// What is told of a text beside its lines: of a garbled one the offset.
#[derive(Clone, Copy, Debug, PartialEq, Eq)]
pub struct Shown {
    pub unreadable_at: Option<u16>,
}

// The number of the line in which an offset stands.
#[tactic(auto, using(crate::proofs::Places::number_is))]
fn line_number(text: &[u8], at: usize) -> usize
    requires { at ≤ length text.now }
    ensures value { result ≡ line_number text.now at }
    ensures upper_bound { result ≤ at + 1 }
{
    1 + text[..at].iter().filter(|&&b| b == b'\n').count()
}

// Where the line begins in which an offset stands.
fn line_start(text: &[u8], at: usize) -> usize
    requires { at ≤ length text.now }
    ensures { (result ≡ line_start text.now at) × (result ≤ at) }
{
    match text[..at].iter().rposition(|&b| b == b'\n') {
        Some(newline) => newline + 1,
        None => 0,
    }
}

// Where this line ends.
fn line_end(text: &[u8], at: usize) -> usize
    requires { at ≤ length text.now }
    ensures { (result ≡ line_end text.now at) × (at ≤ result) × (result ≤ length text.now) }
{
    match text[at..].iter().position(|&b| b == b'\n') {
        Some(length) => at + length,
        None => text.len(),
    }
}

// Whether a byte prints as itself.
fn is_plain(b: u8) -> bool
    ensures { result ≡ plain b }
{
    b' ' <= b && b <= b'~' && b != b'\\'
}

// Appends a byte as it is shown.
#[tactic(auto, unfolding(crate::specs::Diagnosis::shown))]
fn append_shown_byte(out: &mut Diagnosis, b: u8)
    requires { array_vec_len out.old + shown_length ≤ diagnosis_length }
    ensures items { out.new.items ≡ out.old.items ++ shown b }
    ensures len { array_vec_len out.new ≤ array_vec_len out.old + shown_length }
{
    if is_plain(b) {
        out.push(b);
        return;
    }
    let mut digits = [0u8; 16];
    let count = io::hex(b as u64, 2, &mut digits);
    append(out, b"\\x");
    append(out, &digits[..count]);
}

// Appends bytes as they are shown.
#[tactic(auto, using(crate::proofs::Marks::each_none, crate::proofs::Marks::each_next))]
fn append_shown(out: &mut Diagnosis, bytes: &[u8])
    requires { array_vec_len out.old + shown_length * length bytes.now ≤ diagnosis_length }
    ensures items { out.new.items ≡ out.old.items ++ concat_map shown bytes.now }
    ensures len { array_vec_len out.new ≤ array_vec_len out.old + shown_length * length bytes.now }
{
    for &b in bytes {
        append_shown_byte(out, b);
    }
}

// Appends so many spaces.
#[tactic(auto, using(crate::proofs::Marks::spaces_none, crate::proofs::Marks::spaces_next))]
fn append_spaces(out: &mut Diagnosis, count: usize)
    requires { array_vec_len out.old + count ≤ diagnosis_length }
    ensures items { out.new.items ≡ out.old.items ++ replicate count 32 }
    ensures len { array_vec_len out.new ≡ array_vec_len out.old + count }
{
    for _ in 0..count {
        out.push(b' ');
    }
}

// What is wrong.
#[tactic(auto, unfolding(crate::specs::Diagnosis::reason))]
fn reason(short: bool) -> &'static [u8]
    ensures value { result.now ≡ reason short }
    ensures len { length result.now < reason_length }
{
    if short {
        b" the text ends short"
    } else {
        b" this can't continue a text"
    }
}

// Appends the first line of a diagnosis, of a line that begins at `start`.
#[tactic(auto, using(std::proofs::lemmas::Grind::common_steps), unfolding(crate::specs::Diagnosis::heading, crate::specs::Diagnosis::place))]
fn append_heading(out: &mut Diagnosis, text: &[u8], at: usize, start: usize)
    requires empty { out.old.items ≡ [] }
    requires at_in_bounds { (at ≤ length text.now) × (at ≤ most_text) × (start ≤ at) }
    requires start_value { start ≡ line_start text.now at }
    ensures items { out.new.items ≡ heading text.now at }
    ensures len { array_vec_len out.new ≤ place_length + reason_length }
{
    append(out, b"line ");
    append_number(out, line_number(text, at) as u64, b',');
    append(out, b" column ");
    append_number(out, (at - start + 1) as u64, b':');
    append(out, reason(at == text.len()));
    append(out, b"\n");
}

// Appends where a text is garbled, as a compiler says it: a line with the place, the text's line, a mark
// under the place, behind as many spaces as characters are shown before it.
fn append_diagnosis(out: &mut Diagnosis, text: &[u8], at: usize)
    requires empty { out.old.items ≡ [] }
    requires at_in_bounds { (at ≤ length text.now) × (length text.now ≤ most_text) }
    ensures { out.new.items ≡ diagnosis text.now at }
{
    let start = line_start(text, at);
    let end = line_end(text, at);
    append_heading(out, text, at, start);
    let heading = out.len();
    append_shown(out, &text[start..at]);
    let width = out.len() - heading;
    append_shown(out, &text[at..end]);
    append(out, b"\n");
    append_spaces(out, width);
    append(out, b"^\n");
}

// Where a text is garbled, of any text and offset, in place of what is in `out`: nothing of a text that is
// too long or an offset beyond it. A diagnosis has room for 32 KiB, so that it is filled where it stands.
pub fn diagnose(out: &mut Diagnosis, text: &[u8], at: usize)
    ensures items { at ≤ length text.now → length text.now ≤ most_text → out.new.items ≡ diagnosis text.now at }
    ensures beyond { length text.now < at → out.new.items ≡ [] }
    ensures long { most_text < length text.now → out.new.items ≡ [] }
{
    out.clear();
    if text.len() < at || MOST_TEXT < text.len() {
        return;
    }
    append_diagnosis(out, text, at);
}

// The same, answered.
pub fn diagnosis(text: &[u8], at: usize) -> Diagnosis
    ensures items { at ≤ length text.now → length text.now ≤ most_text → result.items ≡ diagnosis text.now at }
    ensures beyond { length text.now < at → result.items ≡ [] }
    ensures long { most_text < length text.now → result.items ≡ [] }
{
    let mut out = Diagnosis::new();
    diagnose(&mut out, text, at);
    out
}

// The offset of a text that is garbled.
fn offset_of(error: TextError) -> Option<u16>
    ensures { result ≡ offset_of error }
{
    match error {
        TextError::Unreadable { at } => Some(at),
        _ => None,
    }
}

// The eight lines of typed rules. "Short tray" does not arise: the tray here is long enough.
pub fn show(rules: &[u8]) -> (Lines, Shown)
    ensures { ShownAs rules.now result.0.items result.1.unreadable_at }
{
    let mut tray = [0u8; TEXT_TRAY_LENGTH];
    match read_text(rules, &mut tray) {
        Ok(count) => (
            lines(&tray[..RECORD_LENGTH * count as usize]),
            Shown {
                unreadable_at: None,
            },
        ),
        Err(error) => {
            let refusal = Refusal::from(error);
            (
                refusal_lines(u16::from(refusal.reason), refusal.place),
                Shown {
                    unreadable_at: offset_of(error),
                },
            )
        }
    }
}

// Keeps an input in place of what was kept, read until it ends or as many bytes are kept as have room.
fn read_all<R: Read>(input: &mut R, kept: &mut Kept) -> Result<(), RunError>
    ensures { IfErr result (λ error. error ≡ RunError.ReadFailed) }
{
    let mut bytes = [0u8; KEPT_LENGTH];
    let (n, outcome) = read_full(input, &mut bytes);
    kept.clear();
    append(kept, &bytes[..n]);
    outcome
}

// Writes where a text is garbled; an error is let go, since there is nowhere left to report it.
fn report_place<E: Write>(errors: &mut E, rules: &[u8], at: usize) {
    let mut out = Diagnosis::new();
    diagnose(&mut out, rules, at);
    let _ = errors.write_all(&out);
}

// Reads the input and prints its eight lines; of a garbled text, on `errors`, also where it is.
fn answer_input<R: Read, W: Write, E: Write>(
    words: usize,
    input: &mut R,
    output: &mut W,
    errors: &mut E,
    kept: &mut Kept,
    text: &mut Lines,
) -> Result<(), RunError>
    ensures value { 1 < words → result ≡ Err (RunError.ArgumentGiven Taken.TypedRules) }
    ensures kept_unchanged { 1 < words → kept.new ≡ kept.old }
    ensures text_unchanged { 1 < words → text.new ≡ text.old }
    ensures runs { words ≤ 1 → Runs kept.new.items text.new.items result }
{
    refuse_argument(words, Taken::TypedRules)?;
    read_all(input, kept)?;
    let (lines, shown) = show(kept);
    if let Some(at) = shown.unreadable_at {
        report_place(errors, kept, at as usize);
    }
    *text = lines;
    print(output, text)
}

// The program, in the two lines of `frames::run`: with what is kept behind a closure, nothing would say that an argument leaves it
// unchanged (tried).
// Started with so many words, its own name among them: `input`, `output` and `errors`
// are the standard ones. With a further word nothing is read or printed. An error is reported on
// `errors`; after a read error nothing is printed on `output`.
pub fn run<R: Read, W: Write, E: Write>(
    words: usize,
    input: &mut R,
    output: &mut W,
    errors: &mut E,
    kept: &mut Kept,
    text: &mut Lines,
) -> Result<(), RunError>
    ensures value { 1 < words → result ≡ Err (RunError.ArgumentGiven Taken.TypedRules) }
    ensures kept_unchanged { 1 < words → kept.new ≡ kept.old }
    ensures text_unchanged { 1 < words → text.new ≡ text.old }
    ensures runs { words ≤ 1 → Runs kept.new.items text.new.items result }
{
    let outcome = answer_input(words, input, output, errors, kept, text);
    report(errors, outcome)
}
