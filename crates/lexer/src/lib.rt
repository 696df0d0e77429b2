// The tokens of a text: what the bytes spell, and whether they can be continued to a text.
#![tactic(auto)]

ghost use Rattle.std.specs.Prelude.{◌≡◌, ◌+◌, ◌*◌, ◌-◌, ◌<◌, ◌≤◌, ◌==◌, length, get_or, take_while};
ghost use Rattle.definition.specs.Limits.{most_text};
ghost use Rattle.grammar.specs.Lexing.{is_digit, Digits, value};
ghost use Rattle.grammar.specs.Scan.{digits_of, first_hit, table, name_by};
ghost use Rattle.grammar.specs.Automaton.{step, begins, goes_on};
ghost use Rattle.lexer.specs.Words.{sign_kind, joint_kind, token_of, Stands};
ghost use Rattle.lexer.specs.Bytes.{Atomic, name_by_digits, SpelledAs, Begins, Shows};
ghost use Rattle.lexer.specs.Steps.{state_of, depth_of, FollowedAs};
ghost use Rattle.lexer.specs.Scanned.{ScannedAs};

use formula::Kind;
use limits::{LARGEST_ATOM, MOST_TEXT};

// What stands before one formula.
#[derive(Clone, Copy, Debug, PartialEq, Eq)]
pub enum Sign {
    Non,
    Possible,
    Necessary,
}

impl From<Sign> for Kind {
    ghost use Rattle.std.specs.Prelude.{◌≡◌};
    ghost use Rattle.lexer.specs.Words.{sign_made};

    ghost from_gives = { λ sign kind. kind ≡ sign_made sign };

    fn from(sign: Sign) -> Kind {
        match sign {
            Sign::Non => Kind::Non,
            Sign::Possible => Kind::Possible,
            Sign::Necessary => Kind::Necessary,
        }
    }
}

impl Sign {
    // The number of the kind that it makes.
    #[tactic(auto, using(formula::proofs::KindNumbers::number_of_tag))]
    pub fn kind(self) -> u8
        ensures { result ≡ sign_kind self }
    {
        Kind::from(self) as u8
    }
}

// What stands between two formulas.
#[derive(Clone, Copy, Debug, PartialEq, Eq)]
pub enum Joint {
    And,
    Or,
    Imply,
    BiImply,
    StrictImply,
}

impl From<Joint> for Kind {
    ghost use Rattle.std.specs.Prelude.{◌≡◌};
    ghost use Rattle.lexer.specs.Words.{joint_made};

    ghost from_gives = { λ joint kind. kind ≡ joint_made joint };

    fn from(joint: Joint) -> Kind {
        match joint {
            Joint::And => Kind::And,
            Joint::Or => Kind::Or,
            Joint::Imply => Kind::Imply,
            Joint::BiImply => Kind::BiImply,
            Joint::StrictImply => Kind::StrictImply,
        }
    }
}

impl Joint {
    // The number of the kind that it makes.
    #[tactic(auto, using(formula::proofs::KindNumbers::number_of_tag))]
    pub fn kind(self) -> u8
        ensures { result ≡ joint_kind self }
    {
        Kind::from(self) as u8
    }
}

// A token, or the end of the text.
#[derive(Clone, Copy, Debug, PartialEq, Eq)]
pub enum Word {
    End,
    Name(u16),
    Sign(Sign),
    Joint(Joint),
    Opening,
    Closing,
    Newline,
    Invalid,
}

// The tokens of a text from the first place on, and the end behind them.
// No ArrayVec: whoever reads asks for the token at a place, beyond the last too, and nobody for their count.
pub type Words = [Word; MOST_TEXT];

// Why a text has no tokens that can be read.
#[derive(Clone, Copy, Debug, PartialEq, Eq)]
pub enum ScanError {
    TooLong,
    Unreadable { at: u16 },
}

// The next token, where it begins, and where what follows begins.
#[derive(Clone, Copy)]
struct Next {
    word: Word,
    start: usize,
    end: usize,
}

// A token, and the number of its bytes.
#[derive(Clone, Copy)]
struct Spelling {
    word: Word,
    size: usize,
}

// What can come next: a line or the end; an operand, or what follows one, within so many open brackets.
#[derive(Clone, Copy)]
enum Awaited {
    Line,
    Operand(u16),
    Operator(u16),
}

// The token at a place; beyond the last, the end.
#[tactic(auto, using(crate::proofs::Reading::stands, crate::proofs::Reading::ends_at))]
pub fn word_at(words: &Words, at: usize) -> Word
    ensures { Stands words.now at result }
{
    if MOST_TEXT <= at {
        return Word::End;
    }
    words[at]
}

// How many spaces begin the bytes.
fn space_count(bytes: &[u8]) -> usize
    ensures { result ≡ length (take_while (λ b. b == 32) bytes.now) }
{
    bytes.iter().take_while(|byte| **byte == b' ').count()
}

// How many digits begin the bytes.
fn digit_count(bytes: &[u8]) -> usize
    ensures { result ≡ length (take_while is_digit bytes.now) }
{
    bytes
        .iter()
        .take_while(|byte| byte.is_ascii_digit())
        .count()
}

// The number of some digits, if an atom has it.
#[tactic(auto, using(crate::proofs::Bytes::all_counted))]
fn number(digits: &[u8]) -> Option<u16>
    requires { Digits digits.now }
    ensures { Atomic (value digits.now) result }
{
    let mut number: u32 = 0;
    for digit in digits {
        number = 10 * number + u32::from(*digit - b'0');
        if LARGEST_ATOM < number {
            return None;
        }
    }
    Some(number as u16)
}

// The name of some digits; none without a digit, with a leading zero or above the largest atom.
fn name_of(digits: &[u8]) -> Word
    requires { Digits digits.now }
    ensures { result ≡ name_by_digits digits.now }
{
    match digits {
        [] | [b'0', _, ..] => Word::Invalid,
        _ => match number(digits) {
            Some(number) => Word::Name(number),
            None => Word::Invalid,
        },
    }
}

// The name whose a stands before the bytes.
#[tactic(auto, using(crate::proofs::Bytes::taken_digits, crate::proofs::Bytes::named))]
fn name(bytes: &[u8]) -> Spelling
    ensures { SpelledAs (name_by (digits_of bytes.now)) (1 + length bytes.now) result }
{
    let count = digit_count(bytes);
    Spelling {
        word: name_of(&bytes[..count]),
        size: 1 + count,
    }
}

// The token that begins the bytes, other than a name.
fn fixed(bytes: &[u8]) -> Spelling
    requires { 0 < length bytes.now }
    ensures { SpelledAs (first_hit table (get_or bytes.now 0 0) (get_or bytes.now 1 0) (get_or bytes.now 2 0)) (length bytes.now) result }
{
    let (word, size) = match bytes {
        [b'~', ..] => (Word::Sign(Sign::Non), 1),
        [b'&', ..] => (Word::Joint(Joint::And), 1),
        [b'|', ..] => (Word::Joint(Joint::Or), 1),
        [b'(', ..] => (Word::Opening, 1),
        [b')', ..] => (Word::Closing, 1),
        [b'\n', ..] => (Word::Newline, 1),
        [b'[', b']', ..] => (Word::Sign(Sign::Necessary), 2),
        [b'<', b'>', ..] => (Word::Sign(Sign::Possible), 2),
        [b'-', b'>', ..] => (Word::Joint(Joint::Imply), 2),
        [b'=', b'>', ..] => (Word::Joint(Joint::StrictImply), 2),
        [b'<', b'-', b'>', ..] => (Word::Joint(Joint::BiImply), 3),
        _ => (Word::Invalid, 1),
    };
    Spelling { word, size }
}

// The token that begins the bytes, where no space stands; the end where there are none.
#[tactic(auto, using(crate::proofs::Bytes::begins_name, crate::proofs::Bytes::begins_fixed))]
fn first_token(bytes: &[u8]) -> Spelling
    ensures { Begins bytes.now result }
{
    match bytes {
        [] => Spelling {
            word: Word::End,
            size: 0,
        },
        [b'a', after @ ..] => name(after),
        _ => fixed(bytes),
    }
}

// The token at or after `at`.
fn next_token(text: &[u8], at: usize) -> Next
    requires { at ≤ length text.now }
    ensures { Shows text.now at result }
{
    let start = at + space_count(&text[at..]);
    let Spelling { word, size } = first_token(&text[start..]);
    Next {
        word,
        start,
        end: start + size,
    }
}

// Where an operand is wanted.
fn at_operand(word: Word, depth: u16) -> Option<Awaited>
    requires { depth ≤ most_text }
    ensures { FollowedAs (begins depth (token_of word)) result }
{
    match word {
        Word::Name(_) => Some(Awaited::Operator(depth)),
        Word::Sign(_) => Some(Awaited::Operand(depth)),
        Word::Opening => Some(Awaited::Operand(depth + 1)),
        _ => None,
    }
}

// After an operand.
fn after_operand(word: Word, depth: u16) -> Option<Awaited>
    ensures { FollowedAs (goes_on depth (token_of word)) result }
{
    match word {
        Word::Joint(_) => Some(Awaited::Operand(depth)),
        Word::Closing if 0 < depth => Some(Awaited::Operator(depth - 1)),
        Word::Newline if depth == 0 => Some(Awaited::Line),
        _ => None,
    }
}

impl Awaited {
    // What is wanted after a token, if it can come.
    fn after(self, word: Word) -> Option<Awaited>
        requires { depth_of self ≤ most_text }
        ensures { FollowedAs (step (state_of self) (token_of word)) result }
    {
        match self {
            Awaited::Line => at_operand(word, 0),
            Awaited::Operand(depth) => at_operand(word, depth),
            Awaited::Operator(depth) => after_operand(word, depth),
        }
    }
}

// The text can't go on at a byte or at its end.
fn unreadable(at: usize) -> ScanError
    requires { at ≤ most_text }
    ensures { result ≡ ScanError.Unreadable at }
{
    ScanError::Unreadable { at: at as u16 }
}

// The tokens of a text; or where it can't go on.
#[tactic(auto, using(crate::proofs::Scanning::start, crate::proofs::Scanning::next))]
fn scan_words(text: &[u8], words: &mut Words) -> Result<(), ScanError>
    requires { length text.now ≤ most_text }
    ensures { ScannedAs text.now words.old words.new result }
{
    let mut at = 0;
    let mut count = 0;
    let mut awaited = Awaited::Line;
    // No range of places: it would need a case for its own end, which no text comes to.
    loop {
        let next = next_token(text, at);
        if next.word == Word::End {
            break;
        }
        let Some(later) = awaited.after(next.word) else {
            return Err(unreadable(next.start));
        };
        words[count] = next.word;
        at = next.end;
        count += 1;
        awaited = later;
    }
    match awaited {
        Awaited::Line => Ok(()),
        _ => Err(unreadable(text.len())),
    }
}

// The tokens of a text, in an array of ends; or where the text can't go on; or that it is too long.
pub fn scan(text: &[u8], words: &mut Words) -> Result<(), ScanError>
    ensures { ScannedAs text.now words.old words.new result }
{
    if MOST_TEXT < text.len() {
        return Err(ScanError::TooLong);
    }
    scan_words(text, words)
}
