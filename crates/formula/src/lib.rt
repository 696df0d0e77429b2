// Formulas as numbered records.
#![tactic(auto)]

ghost use Rattle.std.specs.Prelude.{◌≡◌, List, [], ◌∷◌, ◌++◌, ◌≤◌, ◌<◌};
ghost use Rattle.definition.specs.Limits.{most_formulas};
ghost use Rattle.definition.specs.Records.{Rec, made, number_of, kind_of, rec_at, formula_of};
ghost use Rattle.definition.specs.Setting.{Setting};
ghost use Rattle.definition.specs.Queue.{priority_of};
ghost use Rattle.formula.specs.Priority.{priority_by};

use arrays::Table;
use limits::MOST_FORMULAS;

// The number of a formula: an input record or one that a rule made.
#[derive(Clone, Copy, Debug, PartialEq, Eq)]
pub struct FormulaNumber(pub u16);

impl FormulaNumber {
    // The number that stands for a comment, in the definition and in the trays; no Option, for the sake of the entries' size.
    pub const COMMENT: FormulaNumber = FormulaNumber(65535);
}

// The kinds of the table; `as` gives the number.
#[derive(Clone, Copy, Debug, PartialEq, Eq)]
pub enum Kind {
    Atomic = 0,
    Non = 1,
    And = 2,
    Or = 3,
    Imply = 4,
    BiImply = 5,
    StrictImply = 6,
    Possible = 7,
    Necessary = 8,
}

// A number that is no kind of the table.
#[derive(Clone, Copy, Debug, PartialEq, Eq)]
pub struct UnknownKind;

impl TryFrom<u16> for Kind {
    ghost use Rattle.std.specs.Prelude.{◌≡◌};
    ghost use Rattle.definition.specs.Records.{kind_of};
    ghost use Rattle.formula.specs.Kinds.{read_as};

    type Error = UnknownKind;

    ghost try_from_gives = { λ number kind. read_as kind ≡ kind_of number };

    #[tactic(auto, using(crate::proofs::KindNumbers::unknown), unfolding(definition::specs::Records::kind_of))]
    fn try_from(number: u16) -> Result<Kind, UnknownKind> {
        match number {
            0 => Ok(Kind::Atomic),
            1 => Ok(Kind::Non),
            2 => Ok(Kind::And),
            3 => Ok(Kind::Or),
            4 => Ok(Kind::Imply),
            5 => Ok(Kind::BiImply),
            6 => Ok(Kind::StrictImply),
            7 => Ok(Kind::Possible),
            8 => Ok(Kind::Necessary),
            _ => Err(UnknownKind),
        }
    }
}

// The number of a record that is not there, as a kind.
const UNKNOWN: u16 = 9;

// The number of a comment, as a kind.
const COMMENT: u16 = 10;

// A record: its kind's number, its mark, and two fields, each the number of an atom or of a formula. In a branch the kind may be any number: the checks refuse what is none of the table, so that it is no `Kind`.
#[derive(Clone, Copy, Debug, PartialEq, Eq)]
pub struct Record {
    pub kind: u16,
    pub mark: u16,
    pub left: FormulaNumber,
    pub right: FormulaNumber,
}

impl Record {
    // What stands in the table where there is no record.
    const BLANK: Record = Record {
        kind: 0,
        mark: 0,
        left: FormulaNumber(0),
        right: FormulaNumber(0),
    };

    // What is read of a record that is not there.
    const MISSING: Record = Record {
        kind: UNKNOWN,
        ..Record::BLANK
    };
}

// The records in their table.
#[derive(Clone, Copy)]
pub struct Formulas {
    pub records: Table<Record, MOST_FORMULAS>,
}

impl Formulas {
    ghost use Rattle.formula.specs.Kinds.{kind_meant};
    ghost use Rattle.formula.specs.Recorded.{HasRecords, IsNext, stored, rec_of};

    // No record.
    pub fn new() -> Self
        ensures { HasRecords [] result }
    {
        Formulas {
            records: Table::new(Record::BLANK),
        }
    }

    // The number of the next record that is made; where there are too many, that of a comment, which names no record.
    fn next(&self) -> FormulaNumber
        ensures { IsNext self.now.records.len result.0 }
    {
        if MOST_FORMULAS < self.records.len {
            return FormulaNumber::COMMENT;
        }
        FormulaNumber(self.records.len as u16)
    }

    pub fn record_at(&self, f: FormulaNumber) -> Record
        ensures { (rs : List Rec) → HasRecords rs self.now → self.now.records.len ≤ most_formulas → result ≡ stored (rec_at rs f.0) }
    {
        let i = f.0 as usize;
        if self.records.len.min(MOST_FORMULAS) <= i {
            return Record::MISSING;
        }
        self.records.entries[i]
    }

    // The kind's number; 9 where there is no such record.
    // No Kind, since document 01 has the rules chosen by a match on kind numbers; 9 and 10 stand for what is no kind of the table.
    pub fn kind_at(&self, f: FormulaNumber) -> u16
        ensures { (rs : List Rec) → HasRecords rs self.now → self.now.records.len ≤ most_formulas → result ≡ number_of (rec_at rs f.0).kind }
    {
        self.record_at(f).kind
    }

    pub fn mark_at(&self, f: FormulaNumber) -> u16
        ensures { (rs : List Rec) → HasRecords rs self.now → self.now.records.len ≤ most_formulas → result ≡ (rec_at rs f.0).mark }
    {
        self.record_at(f).mark
    }

    pub fn left_at(&self, f: FormulaNumber) -> FormulaNumber
        ensures { (rs : List Rec) → HasRecords rs self.now → self.now.records.len ≤ most_formulas → result.0 ≡ (rec_at rs f.0).left }
    {
        self.record_at(f).left
    }

    pub fn right_at(&self, f: FormulaNumber) -> FormulaNumber
        ensures { (rs : List Rec) → HasRecords rs self.now → self.now.records.len ≤ most_formulas → result.0 ≡ (rec_at rs f.0).right }
    {
        self.record_at(f).right
    }

    // The kind's number of a node's formula; 10 for a comment.
    pub fn formula_kind(&self, f: FormulaNumber) -> u16
        ensures { (rs : List Rec) → HasRecords rs self.now → self.now.records.len ≤ most_formulas → result ≡ number_of (formula_of rs f.0).kind }
    {
        if f == FormulaNumber::COMMENT {
            return COMMENT;
        }
        self.kind_at(f)
    }

    // One record more, whose number is the old count; too many where there is no room.
    pub fn push_input(&mut self, input: Record)
        ensures { (rs : List Rec) → HasRecords rs self.old → HasRecords (rs ++ (rec_of input ∷ [])) self.new }
    {
        self.records.push(Record {
            kind: known_kind(input.kind),
            ..input
        });
    }

    // One record more that a rule makes, of a kind with one field: its number.
    pub fn make_unary(&mut self, kind: Kind, p: FormulaNumber) -> FormulaNumber
        ensures number { IsNext self.old.records.len result.0 }
        ensures records { (rs : List Rec) → HasRecords rs self.old → HasRecords (rs ++ (made (kind_meant kind) p.0 0 ∷ [])) self.new }
    {
        self.make_binary(kind, p, FormulaNumber(0))
    }

    // And of a kind with two.
    pub fn make_binary(&mut self, kind: Kind, p: FormulaNumber, q: FormulaNumber) -> FormulaNumber
        ensures number { IsNext self.old.records.len result.0 }
        ensures records { (rs : List Rec) → HasRecords rs self.old → HasRecords (rs ++ (made (kind_meant kind) p.0 q.0 ∷ [])) self.new }
    {
        let number = self.next();
        self.push_input(Record {
            kind: kind as u16,
            mark: 0,
            left: p,
            right: q,
        });
        number
    }

    // The class of a node's formula.
    pub fn priority_of(&self, f: FormulaNumber) -> u16
        ensures { (F : Setting) (rs : List Rec) → HasRecords rs self.now → self.now.records.len ≤ most_formulas → result ≡ priority_of F rs (formula_of rs f.0) }
    {
        let outer = self.formula_kind(f);
        let inner = self.kind_at(self.left_at(f));
        priority_by(outer, inner)
    }
}

// A kind's number; 9 for a number that is no kind of the table.
#[tactic(auto, using(crate::proofs::KindNumbers::number_known), unfolding(definition::specs::Records::number_of))]
fn known_kind(kind: u16) -> u16
    ensures { result ≡ number_of (kind_of kind) }
{
    match Kind::try_from(kind) {
        Ok(known) => known as u16,
        Err(_) => UNKNOWN,
    }
}

// The class by the outer kind and, under Non, the inner kind: 0 is first, 1 in the middle, 2 last.
// A match on kind numbers, nested under Non, is the form that document 01 asks for.
#[tactic(auto, unfolding(crate::specs::Priority::priority_by))]
fn priority_by(outer: u16, inner: u16) -> u16
    ensures { result ≡ priority_by outer inner }
{
    match outer {
        0 => 2,
        1 => match inner {
            0 => 2,
            2 | 5 => 1,
            1 | 3..=4 | 6..=65535 => 0,
        },
        3..=5 => 1,
        2 | 6..=65535 => 0,
    }
}
