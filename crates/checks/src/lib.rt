// The records of a branch, and the checks before the run, part by part in their order.
#![tactic(auto)]

ghost use Rattle.std.specs.Prelude.{◌≡◌, ◌||◌, List, [], ◌<◌, ◌≤◌, ◌/◌, length, get_or, ltb, leb};
ghost use Rattle.definition.specs.Limits.{record_length, most_records};
ghost use Rattle.definition.specs.Lists.{any};
ghost use Rattle.definition.specs.Records.{Rec, links, record_at, decode, marks};
ghost use Rattle.definition.specs.Checks.{is_short, expanded_size, non_zero_field, sheet_checks, flag_checks, tray_checks, checks_of_record, record_checks, mark_checks, first_of, refused};
ghost use Rattle.formula.specs.Recorded.{rec_of};
ghost use Rattle.checks.specs.Checked.{check_of, lengths, linked};

use formula::{FormulaNumber, Kind, Record};
use limits::{
    EDGE_TRAY_LENGTH, FORMULA_TRAY_LENGTH, MOST_FLAGS, MOST_MARKED, MOST_RECORDS, MOST_SIZE,
    NODE_TRAY_LENGTH, RECORD_LENGTH,
};
use refusal::{Reason, Refusal};
use slices::byte_at;

// The fields of a record that are record numbers.
#[derive(Clone, Copy)]
enum Links {
    None,
    One(u16),
    Two(u16, u16),
}

// The record that the bytes begin with; a byte that is missing is 0.
#[tactic(auto, unfolding(definition::specs::Records::record_at))]
pub fn read_record(bytes: &[u8]) -> Record
    ensures { rec_of result ≡ record_at bytes.now 0 }
{
    Record {
        kind: u16::from(byte_at(bytes, 0)),
        mark: u16::from(byte_at(bytes, 1)),
        left: FormulaNumber(u16::from_le_bytes([byte_at(bytes, 2), byte_at(bytes, 3)])),
        right: FormulaNumber(u16::from_le_bytes([byte_at(bytes, 4), byte_at(bytes, 5)])),
    }
}

// The fields that are record numbers, by the kind.
// By its number: with a `Kind` read first, a branch that is refused takes a quarter more instructions.
#[tactic(auto, using(crate::proofs::Bytes::links_one, crate::proofs::Bytes::links_two, crate::proofs::Bytes::links_none))]
fn links_of(x: Record) -> Links
    ensures { linked result ≡ links (rec_of x) }
{
    match x.kind {
        1 | 7 | 8 => Links::One(x.left.0),
        2..=6 => Links::Two(x.left.0, x.right.0),
        _ => Links::None,
    }
}

// A field that is zero by the table is not.
#[tactic(auto, unfolding(definition::specs::Checks::non_zero_field))]
fn non_zero_field(x: Record) -> bool
    ensures { result ≡ non_zero_field (rec_of x) }
{
    match links_of(x) {
        Links::Two(_, _) => false,
        _ => x.right.0 != 0,
    }
}

// A mark above 1, or a field that is zero by the table and is not.
fn is_stray(x: Record) -> bool
    ensures { result ≡ (ltb 1 (rec_of x).mark || non_zero_field (rec_of x)) }
{
    1 < x.mark || non_zero_field(x)
}

// A link to record i or later.
fn links_forward(x: Record, i: u16) -> bool
    ensures { result ≡ any (leb i) (links (rec_of x)) }
{
    match links_of(x) {
        Links::None => false,
        Links::One(l) => i <= l,
        Links::Two(l, r) => i <= l || i <= r,
    }
}

// The expanded size, by the sizes of the records before.
#[tactic(auto, unfolding(definition::specs::Checks::expanded_size))]
fn expanded_size(sizes: &[u16], x: Record) -> usize
    ensures { result ≡ expanded_size sizes.now (rec_of x) }
{
    match links_of(x) {
        Links::None => 1,
        Links::One(l) => 1 + size_at(sizes, l),
        Links::Two(l, r) => 1 + size_at(sizes, l) + size_at(sizes, r),
    }
}

// Entry l of the sizes; 0 beyond the end.
fn size_at(sizes: &[u16], l: u16) -> usize
    ensures { (result ≡ get_or sizes.now l 0) × (result < 65536) }
{
    sizes
        .get(usize::from(l))
        .map_or(0, |size| usize::from(*size))
}

// The lengths of the trays lent.
#[derive(Clone, Copy)]
pub struct Lengths {
    pub nodes: usize,
    pub formulas: usize,
    pub edges: usize,
}

impl Lengths {
    // A tray below its length.
    #[tactic(auto, unfolding(definition::specs::Checks::is_short))]
    fn is_short(self) -> bool
        ensures { result ≡ is_short (lengths self) }
    {
        self.nodes < NODE_TRAY_LENGTH
            || self.formulas < FORMULA_TRAY_LENGTH
            || self.edges < EDGE_TRAY_LENGTH
    }
}

// The sheet's length: torn, blank, overlong.
fn check_sheet(bytes: usize) -> Result<(), Refusal>
    ensures { check_of result ≡ first_of (sheet_checks bytes) }
{
    if bytes % RECORD_LENGTH != 0 {
        return Err(Reason::PartialRecord.at(0));
    }
    if bytes == 0 {
        return Err(Reason::NoRecord.at(0));
    }
    if MOST_RECORDS < bytes / RECORD_LENGTH {
        return Err(Reason::TooManyRecords.at(0));
    }
    Ok(())
}

// The flags: bad tick.
fn check_flags(flags: u8) -> Result<(), Refusal>
    ensures { check_of result ≡ first_of (flag_checks flags) }
{
    if MOST_FLAGS < flags {
        return Err(Reason::UnknownFlag.at(0));
    }
    Ok(())
}

// The trays lent: short tray.
fn check_trays(lent: Lengths) -> Result<(), Refusal>
    ensures { check_of result ≡ first_of (tray_checks (lengths lent)) }
{
    if lent.is_short() {
        return Err(Reason::TrayTooShort.at(0));
    }
    Ok(())
}

// Record i: unknown stain, stray mark, forward link, oversize.
#[tactic(auto, using(crate::proofs::Bytes::kind_unknown, crate::proofs::Bytes::kind_known))]
fn check_record(x: Record, i: u16, size: usize) -> Result<(), Refusal>
    ensures { check_of result ≡ first_of (checks_of_record i size (rec_of x)) }
{
    if (Kind::Necessary as u16) < x.kind {
        return Err(Reason::UnknownKind.at(i));
    }
    if is_stray(x) {
        return Err(Reason::BadMarkOrField.at(i));
    }
    if links_forward(x, i) {
        return Err(Reason::ForwardLink.at(i));
    }
    if MOST_SIZE < size {
        return Err(Reason::FormulaTooLarge.at(i));
    }
    Ok(())
}

// The checks of each record in turn.
#[tactic(auto, using(crate::proofs::Reading::record_small, crate::proofs::Reading::reading_next, crate::proofs::Reading::reading_end))]
fn check_records(branch: &[u8]) -> Result<(), Refusal>
    requires { length branch.now / record_length ≤ most_records }
    ensures { check_of result ≡ first_of (record_checks [] (decode branch.now)) }
{
    let mut sizes = [0u16; MOST_RECORDS];
    for (i, bytes) in branch.chunks_exact(RECORD_LENGTH).enumerate() {
        let x = read_record(bytes);
        let size = expanded_size(&sizes[..i], x);
        check_record(x, i as u16, size)?;
        sizes[i] = size as u16;
    }
    Ok(())
}

// How many records are marked.
fn marked(branch: &[u8]) -> usize
    ensures { result ≡ length (marks (decode branch.now)) }
{
    branch
        .chunks_exact(RECORD_LENGTH)
        .filter(|bytes| read_record(bytes).mark == 1)
        .count()
}

// The count of the marked records: unmarked, crowded.
fn check_marked(n: usize) -> Result<(), Refusal>
    ensures { (rs : List Rec) → n ≡ length (marks rs) → check_of result ≡ first_of (mark_checks rs) }
{
    if n == 0 {
        return Err(Reason::NoMarkedRecord.at(0));
    }
    if MOST_MARKED < n {
        return Err(Reason::TooManyMarked.at(0));
    }
    Ok(())
}

// The checks of a branch, a flag byte and the lengths of the trays lent.
#[tactic(auto, using(crate::proofs::Found::few_records, crate::proofs::Found::refused_sheet, crate::proofs::Found::refused_flags, crate::proofs::Found::refused_trays, crate::proofs::Found::refused_record, crate::proofs::Found::refused_marks))]
pub fn check(branch: &[u8], flags: u8, lent: Lengths) -> Result<(), Refusal>
    ensures { check_of result ≡ refused branch.now flags (lengths lent) }
{
    check_sheet(branch.len())?;
    check_flags(flags)?;
    check_trays(lent)?;
    check_records(branch)?;
    check_marked(marked(branch))
}
