ghost use Rattle.std.specs.Prelude.{◌≡◌};
ghost use Rattle.register.specs.declared.fault.RecordFault.TheVariants.{BadText};

use text::text::TextFault;

// Why a record's own tests refuse it.
#[derive(Clone, Copy)]
pub enum RecordFault {
    TooMany,
    BadText,
    NonAsciiDialect,
    Malformed,
}

// Why a register takes no new thing.
#[derive(Clone, Copy)]
pub enum RegisterFault {
    NoIdLeft,
    Full,
}

impl From<TextFault> for RecordFault {
    ghost from_gives = { λ _ r. r ≡ BadText };

    fn from(_fault: TextFault) -> RecordFault {
        RecordFault::BadText
    }
}
