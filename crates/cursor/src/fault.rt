use std::alloc::{AllocError, AllocFailed};
use std::error::Error;
use std::fmt;

// What a line should have had at the place where it could not be read.
#[derive(Clone, Copy, Debug)]
pub enum Expected {
    Statement,
    Word(&'static str),
    Text,
    TextOrNone,
    Number,
    Id,
    Time,
    Uuid,
    ListEnd,
    LineEnd,
}

// In words, after "expected".
impl fmt::Display for Expected {
    ghost use Rattle.std.specs.Prelude.{Some};
    ghost use Rattle.cursor.specs.Wanted.{wanted_words};

    ghost output = { λ e. Some (wanted_words e) };

    fn fmt<W: fmt::Write>(&self, f: &mut fmt::Formatter<W>) -> fmt::Result {
        f.write_str(match self {
            Expected::Statement => "a statement",
            Expected::Word(word) => word,
            Expected::Text => "a text in quotes",
            Expected::TextOrNone => "a text in quotes, or none",
            Expected::Number => "a number from 0 to 4294967295",
            Expected::Id => "a number of 32 bits",
            Expected::Time => "a number of 64 bits",
            Expected::Uuid => "a uuid of 32 hexadecimal digits",
            Expected::ListEnd => "the end of the list",
            Expected::LineEnd => "the end of the line",
        })
    }
}

// Why a line was not read.
#[derive(Debug, Drop)]
pub enum ReadFault {
    NoMemory,
    Expected(Expected),
}

impl fmt::Display for ReadFault {
    ghost use Rattle.std.specs.Prelude.{Some};
    ghost use Rattle.cursor.specs.Wanted.{fault_words};

    ghost output = { λ fault. Some (fault_words fault) };

    fn fmt<W: fmt::Write>(&self, f: &mut fmt::Formatter<W>) -> fmt::Result {
        match self {
            ReadFault::NoMemory => write!(f, "out of memory"),
            ReadFault::Expected(expected) => write!(f, "expected {expected}"),
        }
    }
}

impl Error for ReadFault {}

impl From<AllocError> for ReadFault {
    ghost use Rattle.std.specs.Prelude.{◌≡◌};
    ghost use Rattle.cursor.specs.declared.fault.ReadFault.TheVariants.{NoMemory};

    ghost from_gives = { λ _ fault. fault ≡ NoMemory };

    fn from(_fault: AllocError) -> ReadFault {
        ReadFault::NoMemory
    }
}

impl<T: Drop> From<AllocFailed<T>> for ReadFault {
    ghost use Rattle.std.specs.Prelude.{◌≡◌};
    ghost use Rattle.cursor.specs.declared.fault.ReadFault.TheVariants.{NoMemory};

    ghost from_gives = { λ _ fault. fault ≡ NoMemory };

    fn from(_refused: AllocFailed<T>) -> ReadFault {
        ReadFault::NoMemory
    }
}
