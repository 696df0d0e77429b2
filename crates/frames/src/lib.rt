// Eight Frames: what is kept of standard input, and the lines that are printed of it.
#![tactic(auto)]

ghost use Rattle.std.specs.Prelude.{◌≡◌, false, [], ◌∷◌, ◌++◌, ◌+◌, ◌≤◌, ◌<◌, ℕ, Ok, Err, IfOk, IfErr, length};
ghost use Rattle.arrayvec.specs.ArrayVec.{array_vec_len};
ghost use Rattle.definition.specs.Trays.{zero_trays};
ghost use Rattle.definition.specs.Call as Call;
ghost use Rattle.definition.specs.Call.{answer, refusal};
ghost use Rattle.prover.specs.Said.{said};
ghost use Rattle.slices.specs.Text.{decimal_of, line_of_words};
ghost use Rattle.frames.specs.Line.{line_of, refused_word, word_of, number_length};
ghost use Rattle.frames.specs.Lines.{lines_below, eight_lines, refusal_lines, Runs};
ghost use Rattle.frames.specs.Messages.{message_of};

mod error;
mod kept;

use arrayvec::ArrayVec;
pub use error::{RunError, Taken};
use itoa::Buffer;
pub use kept::{KEPT_LENGTH, Kept, keep, read_full};
use limits::{EDGE_TRAY_LENGTH, FORMULA_TRAY_LENGTH, NODE_TRAY_LENGTH};
use prover::{Verdict, prove};
use refusal::Refusal;
use std::env::FillError;
use std::io::{Read, Write};
use std::rt::Env;

// No number of 64 bits and the byte after it are longer.
const NUMBER_LENGTH: usize = 21;

// No line is longer.
pub const LINE_LENGTH: usize = 96;

// A line for each of the flags 0 to 7.
pub const TEXT_LENGTH: usize = 8 * LINE_LENGTH;

pub type Line = ArrayVec<u8, LINE_LENGTH>;

pub type Lines = ArrayVec<u8, TEXT_LENGTH>;

// A refusal by its number, which may be any, and its place.
#[derive(Clone, Copy, Debug, PartialEq, Eq)]
pub struct Numbered {
    pub number: u16,
    pub place: u16,
}

impl From<Refusal> for Numbered {
    ghost use Rattle.refusal.specs.Number.{number_of};

    ghost from_gives = { λ refusal told. (told.number ≡ number_of refusal.reason) × (told.place ≡ refusal.place) };

    fn from(refusal: Refusal) -> Numbered {
        Numbered {
            number: u16::from(refusal.reason),
            place: refusal.place,
        }
    }
}

// Appends bytes. Where they do not fit, the text stays as it is.
pub fn append<const N: usize>(text: &mut ArrayVec<u8, N>, bytes: &[u8])
    ensures fits { array_vec_len text.old + length bytes.now ≤ N → text.new.items ≡ text.old.items ++ bytes.now }
    ensures full { N < array_vec_len text.old + length bytes.now → text.new ≡ text.old }
{
    let _ = text.try_extend_from_slice(bytes);
}

// Appends a number and the byte after it. Where the longest number does not fit, the text stays as it is.
#[tactic(auto, using(crate::proofs::Texts::decimal_is))]
pub fn append_number<const N: usize>(text: &mut ArrayVec<u8, N>, number: u64, after: u8)
    ensures fits { array_vec_len text.old + number_length ≤ N → text.new.items ≡ text.old.items ++ (decimal_of number ++ (after ∷ [])) }
    ensures full { N < array_vec_len text.old + number_length → text.new ≡ text.old }
    ensures len { array_vec_len text.new ≤ array_vec_len text.old + number_length }
{
    if text.remaining_capacity() < NUMBER_LENGTH {
        return;
    }
    append(text, Buffer::new().format(number).as_bytes());
    text.push(after);
}

// The word of a verdict and a space.
#[tactic(auto, unfolding(crate::specs::Line::word_of))]
fn word(proved: bool, late: bool) -> &'static [u8]
    ensures value { result.now ≡ word_of proved late ++ (32 ∷ []) }
    ensures len { length result.now ≤ 7 }
{
    match (proved, late) {
        (true, _) => b"proved ",
        (false, true) => b"late ",
        (false, false) => b"open ",
    }
}

// What a refusal prints after the flags.
#[tactic(auto, using(std::proofs::lemmas::Grind::common_steps), unfolding(slices::specs::Text::line_of_words))]
fn append_refusal(text: &mut Line, number: u16, place: u16)
    requires { array_vec_len text.old ≤ number_length }
    ensures { text.new.items ≡ text.old.items ++ line_of_words refused_word (decimal_of number ∷ decimal_of place ∷ []) }
{
    append(text, b"refused ");
    append_number(text, number as u64, b' ');
    append_number(text, place as u64, b'\n');
}

// What a verdict prints after the flags.
#[tactic(auto, using(std::proofs::lemmas::Grind::common_steps), unfolding(slices::specs::Text::line_of_words))]
fn append_verdict(text: &mut Line, verdict: Verdict)
    requires { array_vec_len text.old ≤ number_length }
    ensures { text.new.items ≡ text.old.items ++ line_of_words (word_of verdict.proved verdict.late) (decimal_of verdict.identifiers ∷ decimal_of verdict.worlds ∷ decimal_of verdict.steps ∷ []) }
{
    append(text, word(verdict.proved, verdict.late));
    append_number(text, verdict.identifiers as u64, b' ');
    append_number(text, verdict.worlds as u64, b' ');
    append_number(text, verdict.steps as u64, b'\n');
}

// The line of a refusal by its number, which may be any, at these flags.
#[tactic(auto, unfolding(crate::specs::Line::line_of, slices::specs::Text::line_of_words))]
pub fn refusal_line(flags: u8, number: u16, place: u16) -> Line
    ensures { result.items ≡ line_of flags (refusal number place) }
{
    let mut text = Line::new();
    append_number(&mut text, flags as u64, b' ');
    append_refusal(&mut text, number, place);
    text
}

// The line of a verdict at these flags.
#[tactic(auto, unfolding(crate::specs::Line::line_of, prover::specs::Said::said, slices::specs::Text::line_of_words))]
fn verdict_line(flags: u8, verdict: Verdict) -> Line
    ensures { result.items ≡ line_of flags (said (Ok verdict)) }
{
    let mut text = Line::new();
    append_number(&mut text, flags as u64, b' ');
    append_verdict(&mut text, verdict);
    text
}

// The line of an answer to these flags. Its refusal is told by number, which may be any, and place, or by
// what has them, as what `prove` answers.
pub fn line<E: Into<Numbered>>(flags: u8, answer: Result<Verdict, E>) -> Line
    ensures verdict { IfOk answer (λ verdict. result.items ≡ line_of flags (said (Ok verdict))) }
    ensures refused { IfErr answer (λ error. (told : Numbered) × E.converts error told × (result.items ≡ line_of flags (refusal told.number told.place))) }
{
    match answer {
        Ok(verdict) => verdict_line(flags, verdict),
        Err(error) => {
            let told = error.into();
            refusal_line(flags, told.number, told.place)
        }
    }
}

// The call with these flags and empty trays.
#[tactic(auto, using(crate::proofs::Answering::answer_lengths), unfolding(definition::specs::Trays::zero_trays))]
fn call(branch: &[u8], flags: u8) -> Result<Verdict, Refusal>
    ensures { said result ≡ answer branch.now flags zero_trays }
{
    let mut nodes = [0u8; NODE_TRAY_LENGTH];
    let mut formulas = [0u8; FORMULA_TRAY_LENGTH];
    let mut edges = [0u32; EDGE_TRAY_LENGTH];
    prove(branch, flags, &mut nodes, &mut formulas, &mut edges)
}

// The line of the call with these flags.
fn line_of_call(branch: &[u8], flags: u8) -> Line
    ensures { result.items ≡ line_of flags (answer branch.now flags zero_trays) }
{
    line(flags, call(branch, flags))
}

// The lines for the flags 0 to 7.
#[tactic(auto, using(crate::proofs::Frames::lines_next, crate::proofs::Frames::lines_length), unfolding(crate::specs::Lines::lines_below))]
fn lines_by<F: Fn(u8) -> Line>(line_at: F) -> Lines
    requires { F.IsAlwaysCallable line_at }
    ensures { (answers : ℕ → Call.Answer) → ((flags : ℕ) (r : _) → flags < 8 → F.post line_at flags r → r.items ≡ line_of flags (answers flags)) → result.items ≡ lines_below 8 answers }
{
    let mut text = Lines::new();
    for flags in 0..8 {
        append(&mut text, &line_at(flags));
    }
    text
}

// The eight lines of a branch.
pub fn lines(branch: &[u8]) -> Lines
    ensures { result.items ≡ eight_lines branch.now }
{
    lines_by(|flags| line_of_call(branch, flags))
}

// The eight lines of a refusal by its number, which may be any.
pub fn refusal_lines(number: u16, place: u16) -> Lines
    ensures { result.items ≡ refusal_lines number place }
{
    lines_by(|flags| refusal_line(flags, number, place))
}

// Writes a text whole.
pub fn print<W: Write>(output: &mut W, text: &[u8]) -> Result<(), RunError>
    ensures { IfErr result (λ error. error ≡ RunError.WriteFailed) }
{
    output.write_all(text).or(Err(RunError::WriteFailed))
}

// The line of an error.
fn message(error: RunError) -> std::io::Result<Line>
    ensures { IfOk result (λ text. text.items ≡ message_of error ++ (10 ∷ [])) }
{
    let mut text = Line::new();
    writeln!(text, "{error}")?;
    Ok(text)
}

// Writes the line of an error by one `write_all`, so that no other program's output comes between.
fn write_message<E: Write>(errors: &mut E, error: RunError) -> std::io::Result<()> {
    errors.write_all(&message(error)?)
}

// Hands an outcome on, and writes why a run failed; an error of that is let go, since there is nowhere
// left to report it.
pub fn report<E: Write>(errors: &mut E, outcome: Result<(), RunError>) -> Result<(), RunError>
    ensures { result ≡ outcome }
{
    outcome.inspect_err(|error| {
        let _ = write_message(errors, *error);
    })
}

// How many words the program was started with, its own name among them: 1, or 2 for all that are more.
pub fn word_count<E: Env>(env: &E) -> usize
    ensures low { 1 ≤ result }
    ensures high { result ≤ 2 }
{
    match env.arg(1, &mut []) {
        Err(FillError::NotPresent) => 1,
        _ => 2,
    }
}

// An error if the program was started with more words than its own name.
pub fn refuse_argument(words: usize, taken: Taken) -> Result<(), RunError>
    ensures given { 1 < words → result ≡ Err (RunError.ArgumentGiven taken) }
    ensures none { words ≤ 1 → result ≡ Ok tt }
{
    if 1 < words {
        return Err(RunError::ArgumentGiven(taken));
    }
    Ok(())
}

// Reads the input and prints its eight lines.
#[tactic(auto, using(crate::proofs::Frames::runs_printed))]
fn answer_input<R: Read, W: Write>(
    words: usize,
    input: &mut R,
    output: &mut W,
    kept: &mut Kept,
    text: &mut Lines,
) -> Result<(), RunError>
    ensures value { 1 < words → result ≡ Err (RunError.ArgumentGiven Taken.Records) }
    ensures kept_unchanged { 1 < words → kept.new ≡ kept.old }
    ensures text_unchanged { 1 < words → text.new ≡ text.old }
    ensures runs { words ≤ 1 → Runs kept.new.bytes kept.new.seen text.new.items result }
{
    refuse_argument(words, Taken::Records)?;
    kept.read_all(input)?;
    *text = lines(kept.branch());
    print(output, text)
}

// The program, started with so many words, its own name among them: `input`, `output` and `errors`
// are the standard ones. With a further word nothing is read or printed. An error is reported on
// `errors`; after a read error nothing is printed on `output`.
pub fn run<R: Read, W: Write, E: Write>(
    words: usize,
    input: &mut R,
    output: &mut W,
    errors: &mut E,
    kept: &mut Kept,
    text: &mut Lines,
) -> Result<(), RunError>
    ensures value { 1 < words → result ≡ Err (RunError.ArgumentGiven Taken.Records) }
    ensures kept_unchanged { 1 < words → kept.new ≡ kept.old }
    ensures text_unchanged { 1 < words → text.new ≡ text.old }
    ensures runs { words ≤ 1 → Runs kept.new.bytes kept.new.seen text.new.items result }
{
    let outcome = answer_input(words, input, output, kept, text);
    report(errors, outcome)
}
