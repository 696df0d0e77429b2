// The refusals of the paper's table: why, and at which record or byte.
#![tactic(auto)]

ghost use Rattle.std.specs.Prelude.{◌≡◌};

// Why a sheet or a text is refused; `as` gives the number.
#[derive(Clone, Copy, Debug, PartialEq, Eq)]
pub enum Reason {
    PartialRecord = 1,
    NoRecord = 2,
    TooManyRecords = 3,
    UnknownFlag = 4,
    TrayTooShort = 5,
    UnknownKind = 6,
    BadMarkOrField = 7,
    ForwardLink = 8,
    FormulaTooLarge = 9,
    NoMarkedRecord = 10,
    TooManyMarked = 11,
    TooManyIdentifiers = 12,
    UnreadableText = 13,
    TextTooLong = 14,
}

impl Reason {
    // The refusal for this reason at a record or byte.
    pub fn at(self, place: u16) -> Refusal
        ensures { (result.reason ≡ self) × (result.place ≡ place) }
    {
        Refusal {
            reason: self,
            place,
        }
    }
}

impl From<Reason> for u16 {
    ghost use Rattle.refusal.specs.Number.{number_of};

    ghost from_gives = { λ reason number. number ≡ number_of reason };

    fn from(reason: Reason) -> u16 {
        reason as u16
    }
}

// A refusal: why, and the number of the record, or the offset of the byte, where it was found.
#[derive(Clone, Copy, Debug, PartialEq, Eq)]
pub struct Refusal {
    pub reason: Reason,
    pub place: u16,
}
