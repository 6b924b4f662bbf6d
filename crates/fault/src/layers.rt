ghost use Rattle.std.specs.Prelude.{◌≡◌};
ghost use Rattle.fault.specs.Meaning.{fault_of, number_of};
ghost use Rattle.fault.specs.Layers.{text_fault};
ghost use Rattle.register.specs.Faults.{record_number, register_number};
ghost use Rattle.property.specs.Outcomes.{fault_of as property_fault, number_of as property_number};

use super::fault::{Fault, Part, Refusal};
use property::property::{PropertyFault, PropertyRefusal};
use register::fault::{RecordFault, RegisterFault};
use text::text::TextFault;

// The refusal of a record's own tests.
impl From<RecordFault> for Refusal {
    ghost from_gives = { λ f r. number_of r ≡ record_number f };

    fn from(fault: RecordFault) -> Refusal {
        match fault {
            RecordFault::TooMany => Refusal::LimitReached,
            RecordFault::BadText => Refusal::BadText,
            RecordFault::NonAsciiDialect => Refusal::NonAsciiDialect,
            RecordFault::Malformed => Refusal::Malformed,
        }
    }
}

// The refusal of a register.
impl From<RegisterFault> for Refusal {
    ghost from_gives = { λ f r. number_of r ≡ register_number f };

    fn from(fault: RegisterFault) -> Refusal {
        match fault {
            RegisterFault::NoIdLeft => Refusal::NoIdLeft,
            RegisterFault::Full => Refusal::LimitReached,
        }
    }
}

// A text of the builder's own is bad.
impl From<TextFault> for Fault {
    ghost from_gives = { λ _ r. fault_of r ≡ text_fault };

    fn from(_fault: TextFault) -> Fault {
        Fault::new(Refusal::BadText, Part::Builder)
    }
}

// The refusal of properties.
impl From<PropertyRefusal> for Refusal {
    ghost from_gives = { λ f r. number_of r ≡ property_number f };

    fn from(refusal: PropertyRefusal) -> Refusal {
        match refusal {
            PropertyRefusal::TooMany => Refusal::LimitReached,
            PropertyRefusal::BadText => Refusal::BadText,
            PropertyRefusal::Malformed => Refusal::Malformed,
            PropertyRefusal::NegativeHistorySize => Refusal::NegativeHistorySize,
        }
    }
}

// The fault of properties, in their part.
impl From<PropertyFault> for Fault {
    ghost from_gives = { λ f r. fault_of r ≡ property_fault f };

    fn from(fault: PropertyFault) -> Fault {
        Fault {
            refusal: fault.refusal.into(),
            part: Part::Properties,
            position: fault.position,
        }
    }
}
