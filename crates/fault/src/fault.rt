ghost use Rattle.std.specs.Prelude.{◌≡◌, Some};
ghost use Rattle.model.specs.Refusals.{fault, letter};
ghost use Rattle.fault.specs.Meaning.{number_of, part_of, fault_of, shown};

use std::fmt;

// Why a call refuses; each case has the number of the table of refusals.
#[derive(Clone, Copy)]
pub enum Refusal {
    BadText = 1,
    NonAsciiDialect = 2,
    UnknownFormat = 3,
    Malformed = 4,
    NoCurrentVersion = 5,
    SchemaNotHeld = 6,
    NoSchemaAdded = 7,
    NoVersionAdded = 8,
    VersionNotHeld = 9,
    RepeatedDialect = 10,
    TimeTooEarly = 11,
    NegativeHistorySize = 12,
    LostDialect = 13,
    NoIdLeft = 14,
    LimitReached = 15,
}

impl Refusal {
    // Kept: a method, since `refusal.number()` says which number it is, where `u8::from` would not.
    pub fn number(self) -> u8
        ensures { result ≡ number_of self }
    {
        self as u8
    }
}

// The part of the view that a fault arose in.
#[derive(Clone, Copy)]
pub enum Part {
    Schemas,
    Versions,
    Properties,
    Log,
    Changes,
    Builder,
}

impl Part {
    // Kept: a method, as `Refusal::number`.
    pub fn letter(self) -> char
        ensures { result ≡ letter (part_of self) }
    {
        match self {
            Part::Schemas => 'S',
            Part::Versions => 'V',
            Part::Properties => 'P',
            Part::Log => 'L',
            Part::Changes => 'C',
            Part::Builder => 'B',
        }
    }
}

// A refusal: why, in which part, and the position in the list handed to that part.
#[derive(Clone, Copy)]
pub struct Fault {
    pub refusal: Refusal,
    pub part: Part,
    pub position: usize,
}

impl Fault {
    // A fault at position 0.
    pub fn new(refusal: Refusal, part: Part) -> Fault
        ensures { fault_of result ≡ fault (number_of refusal) (part_of part) }
    {
        Fault {
            refusal,
            part,
            position: 0,
        }
    }
}

// NUMBER LETTER POSITION, as `15 S 0`.
impl fmt::Display for Fault {
    ghost output = { λ f. Some (shown (fault_of f)) };

    fn fmt<W: fmt::Write>(&self, f: &mut fmt::Formatter<W>) -> fmt::Result {
        let number = self.refusal.number();
        let letter = self.part.letter();
        let position = self.position;
        write!(f, "{number} {letter} {position}")
    }
}
