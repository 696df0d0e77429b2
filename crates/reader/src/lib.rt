// The reader of typed rules: the levels of the grammar, one function by level that calls itself one level down, to atoms; brackets call the top level again.
#![tactic(auto)]

ghost use Rattle.std.specs.Prelude.{◌≡◌, ◌∷◌, ◌++◌, ◌+◌, ◌*◌, ◌-◌, ◌<◌, ◌≤◌, length, set, replicate};
ghost use Rattle.definition.specs.Limits.{record_length, most_text, text_tray_length};
ghost use Rattle.definition.specs.Trays.{two, over};
ghost use Rattle.grammar.specs.Tokens.{level, loosest};
ghost use Rattle.lexer.specs.Words.{joint_kind, joint_of};
ghost use Rattle.reader.specs.Contract.{ReadText, LinesWritten};
ghost use Rattle.reader.specs.Levels.{last_leftward, Parsed, Grouped, Puts, JointAt, Closed, LinesRead};

use formula::Kind;
use lexer::{Joint, ScanError, Word, Words, scan, word_at};
use limits::{MOST_TEXT, RECORD_LENGTH, TEXT_TRAY_LENGTH, TextRecords};
use refusal::{Reason, Refusal};

// The level of a whole formula. Levels are numbers, since each calls the next lower one: the definition's too.
const LOOSEST: u8 = 4;

// Up to this level & and | group to the left, above it the arrows to the right.
const LAST_LEFTWARD: u8 = 2;

// Why a text is not read.
#[derive(Clone, Copy, Debug, PartialEq, Eq)]
pub enum TextError {
    ShortTray,
    TooLong,
    Unreadable { at: u16 },
}

impl From<TextError> for Refusal {
    ghost use Rattle.std.specs.Prelude.{◌≡◌};
    ghost use Rattle.reader.specs.Refused.{refusal_of};

    ghost from_gives = { λ error refusal. refusal ≡ refusal_of error };

    fn from(error: TextError) -> Refusal {
        match error {
            TextError::ShortTray => Reason::TrayTooShort.at(0),
            TextError::TooLong => Reason::TextTooLong.at(0),
            TextError::Unreadable { at } => Reason::UnreadableText.at(at),
        }
    }
}

impl From<ScanError> for TextError {
    ghost use Rattle.std.specs.Prelude.{◌≡◌};
    ghost use Rattle.reader.specs.Refused.{text_error_of};

    ghost from_gives = { λ error refused. refused ≡ text_error_of error };

    fn from(error: ScanError) -> TextError {
        match error {
            ScanError::TooLong => TextError::TooLong,
            ScanError::Unreadable { at } => TextError::Unreadable { at },
        }
    }
}

// The records that are made, as bytes, and zeros behind them.
// No ArrayVec: all the bytes are written to the tray, the zeros too.
#[derive(Drop)]
struct Records {
    bytes: TextRecords,
    count: u16,
}

impl Records {
    // The number of the last record.
    fn last(&self) -> u16
        requires { 1 ≤ self.now.count }
        ensures { result ≡ self.now.count - 1 }
    {
        self.count - 1
    }

    // One record more, with mark 0.
    #[tactic(auto, using(crate::proofs::Placing::puts))]
    fn push(&mut self, kind: u8, left: u16, right: u16)
        requires { self.old.count < most_text }
        ensures { Puts self.old.bytes self.new.bytes self.old.count kind left right × (self.new.count ≡ self.old.count + 1) }
    {
        let at = RECORD_LENGTH * usize::from(self.count);
        self.bytes[at..at + RECORD_LENGTH].copy_from_slice(&record_bytes(kind, left, right));
        self.count += 1;
    }

    // The record of two parts, of which the second has the last one.
    fn join(&mut self, joint: Joint, left: u16)
        requires { (1 ≤ self.old.count) × (self.old.count < most_text) }
        ensures { Puts self.old.bytes self.new.bytes self.old.count (joint_kind joint) left (self.old.count - 1) × (self.new.count ≡ self.old.count + 1) }
    {
        let right = self.last();
        self.push(joint.kind(), left, right);
    }

    // Sets the mark of the last record.
    fn mark_last(&mut self)
        requires { (1 ≤ self.old.count) × (self.old.count ≤ most_text) }
        ensures { (self.new.bytes ≡ set self.old.bytes (record_length * (self.old.count - 1) + 1) 1) × (self.new.count ≡ self.old.count) }
    {
        let at = RECORD_LENGTH * usize::from(self.last());
        self.bytes[at + 1] = 1;
    }
}

// A record with mark 0.
fn record_bytes(kind: u8, left: u16, right: u16) -> [u8; RECORD_LENGTH]
    ensures { result ≡ kind ∷ 0 ∷ (two left ++ two right) }
{
    let [left_low, left_high] = left.to_le_bytes();
    let [right_low, right_high] = right.to_le_bytes();
    [kind, 0, left_low, left_high, right_low, right_high]
}

// The level of a joint.
#[tactic(auto, unfolding(grammar::specs::Tokens::level))]
fn level_of(joint: Joint) -> u8
    ensures { result ≡ level (joint_of joint) }
{
    match joint {
        Joint::And => 1,
        Joint::Or => LAST_LEFTWARD,
        Joint::Imply | Joint::StrictImply => 3,
        Joint::BiImply => LOOSEST,
    }
}

// The joint of the level that stands at a place.
fn joint_at(words: &Words, at: usize, level: u8) -> Option<Joint>
    ensures { JointAt words.now at level result }
{
    match word_at(words, at) {
        Word::Joint(joint) if level_of(joint) == level => Some(joint),
        _ => None,
    }
}

// Behind the closing bracket that stands at a place.
fn close(words: &Words, at: usize) -> Option<usize>
    requires { at ≤ most_text }
    ensures { Closed words.now at result }
{
    match word_at(words, at) {
        Word::Closing => Some(at + 1),
        _ => None,
    }
}

// Where a phrase of the level ends: & is level 1, | level 2, -> and => level 3, <-> level 4, and below them stand signs, brackets and atoms.
// Thousands of levels may stand open at once. An option of two numbers, the count beside the place, would go through memory in each of
// their frames, and the deepest text would take more than a MiB of stack: so the count stands with the records.
#[cycle(phrases)]
fn phrase(words: &Words, at: usize, level: u8, records: &mut Records) -> Option<usize>
    requires { (1 ≤ level) × (level ≤ loosest) × (at ≤ most_text) × (records.old.count ≤ at) }
    ensures { Parsed words.now at level records.old.count records.old.bytes records.new.bytes records.new.count result }
{
    let first = tighter(words, at, level, records)?;
    if level <= LAST_LEFTWARD {
        return grouped_left(words, first, level, records);
    }
    grouped_right(words, first, level, records)
}

// Where a phrase of the level below ends.
#[cycle(phrases)]
#[inline(always)]
fn tighter(words: &Words, at: usize, level: u8, records: &mut Records) -> Option<usize>
    requires { (1 ≤ level) × (level ≤ loosest) × (at ≤ most_text) × (records.old.count ≤ at) }
    ensures { Parsed words.now at (level - 1) records.old.count records.old.bytes records.new.bytes records.new.count result }
{
    if level == 1 {
        return operand(words, at, records);
    }
    phrase(words, at, level - 1, records)
}

// What the joints of a level that groups to the left add to a phrase of the level below.
#[cycle(phrases)]
fn grouped_left(words: &Words, first: usize, level: u8, records: &mut Records) -> Option<usize>
    requires { (1 ≤ level) × (level ≤ last_leftward) × (first ≤ most_text) × (records.old.count ≤ first) × (1 ≤ records.old.count) }
    ensures { Grouped words.now first records.old.count level records.old.bytes records.new.bytes records.new.count result }
{
    let mut end = first;
    while let Some(joint) = joint_at(words, end, level) {
        let left = records.last();
        end = tighter(words, end + 1, level, records)?;
        records.join(joint, left);
    }
    Some(end)
}

// What a joint of a level that groups to the right adds.
#[cycle(phrases)]
fn grouped_right(words: &Words, first: usize, level: u8, records: &mut Records) -> Option<usize>
    requires { (last_leftward < level) × (level ≤ loosest) × (first ≤ most_text) × (records.old.count ≤ first) × (1 ≤ records.old.count) }
    ensures { Grouped words.now first records.old.count level records.old.bytes records.new.bytes records.new.count result }
{
    let Some(joint) = joint_at(words, first, level) else {
        return Some(first);
    };
    let left = records.last();
    let end = phrase(words, first + 1, level, records)?;
    records.join(joint, left);
    Some(end)
}

// An atom, a sign with its operand, or a formula in brackets.
#[cycle(phrases)]
fn operand(words: &Words, at: usize, records: &mut Records) -> Option<usize>
    requires { (at ≤ most_text) × (records.old.count ≤ at) }
    ensures { Parsed words.now at 0 records.old.count records.old.bytes records.new.bytes records.new.count result }
{
    match word_at(words, at) {
        Word::Name(number) => {
            records.push(Kind::Atomic as u8, number, 0);
            Some(at + 1)
        }
        Word::Sign(sign) => {
            let end = operand(words, at + 1, records)?;
            let inner = records.last();
            records.push(sign.kind(), inner, 0);
            Some(end)
        }
        Word::Opening => {
            let end = phrase(words, at + 1, LOOSEST, records)?;
            close(words, end)
        }
        _ => None,
    }
}

// The lines of a text that was taken, into empty records.
#[tactic(auto, using(crate::proofs::Sofar::reading_next))]
fn lines(words: &Words, records: &mut Records)
    requires { (records.old.bytes ≡ replicate text_tray_length 0) × (records.old.count ≡ 0) }
    ensures { LinesRead words.now records.new.bytes records.new.count }
{
    let mut at = 0;
    while word_at(words, at) != Word::End {
        let Some(end) = phrase(words, at, LOOSEST, records) else {
            return;
        };
        records.mark_last();
        at = end + 1;
    }
}

// The records of a text that was taken, into the tray that is lent; how many there are.
fn write_lines(words: &Words, tray: &mut [u8]) -> u16
    requires { text_tray_length ≤ length tray.old }
    ensures { LinesWritten words.now tray.old tray.new result }
{
    let mut records = Records {
        bytes: [0; TEXT_TRAY_LENGTH],
        count: 0,
    };
    lines(words, &mut records);
    tray[..TEXT_TRAY_LENGTH].copy_from_slice(&records.bytes);
    records.count
}

// Reads a text of typed rules into records. The scan decides whether it is one before any level is called, so that no text that is
// refused opens a level, and nothing is written before it is decided.
pub fn read_text(text: &[u8], tray: &mut [u8]) -> Result<u16, TextError>
    ensures { ReadText text.now tray.old tray.new result }
{
    if tray.len() < TEXT_TRAY_LENGTH {
        return Err(TextError::ShortTray);
    }
    let mut words = [Word::End; MOST_TEXT];
    scan(text, &mut words)?;
    Ok(write_lines(&words, tray))
}
