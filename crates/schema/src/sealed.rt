ghost use Rattle.std.specs.Prelude.{pos};
ghost use Rattle.schema.specs.Meaning.{Sealed, sealed_content, same_sealed, sealed_verdict, resealed};
ghost use Rattle.schema.specs.Sames.{sealed_decides};
ghost use Rattle.std.proofs.Common.{rules};

use super::kind::SchemaKind;
use register::fault::RecordFault;
use register::numbered::{Identified, Lawful, Numbered};
use text::text::Text;

// A schema that is kept as it came: a text and a greatest field number.
#[derive(Clone, Copy)]
pub struct SealedSchema {
    pub schema_id: i32,
    pub text: Text,
    pub highest_field_id: i32,
}

impl Identified for SealedSchema {
    ghost named = { λ s. s.schema_id };

    fn id(&self) -> i32 {
        self.schema_id
    }
}

impl Numbered for SealedSchema {
    const FIRST_ID: i32 = 0;

    ghost initial = { pos 0 };

    ghost Content = { Sealed };

    ghost content = { sealed_content };

    ghost alike = { same_sealed };

    ghost verdict = { sealed_verdict };

    ghost copied = { resealed };

    fn initial_id() -> i32 {
        Self::FIRST_ID
    }

    fn with_id(self, id: i32) -> Self {
        SealedSchema {
            schema_id: id,
            ..self
        }
    }

    // Kept: by hand, since the text is compared by its bytes and the id not at all.
    fn same(&self, other: &Self, block: &[u8]) -> bool {
        self.highest_field_id == other.highest_field_id && self.text.same(&other.text, block)
    }

    fn check(&self, block: &[u8]) -> Result<(), RecordFault> {
        self.text.check(block)?;
        if self.highest_field_id < 0 {
            return Err(RecordFault::Malformed);
        }
        Ok(())
    }
}

impl Lawful for SealedSchema {
    ghost decides = { sealed_decides };

    ghost own = { Prim.search rules };

    ghost again = { Prim.search rules };

    ghost renamed = { Prim.search rules };

    ghost contents = { Prim.search rules };

    ghost verdicts = { Prim.search rules };
}

impl SchemaKind for SealedSchema {
    ghost greatest = { λ _ s. s.highest_field_id };

    ghost first = { Prim.search rules };

    ghost part = { Prim.search rules };

    fn highest_field_id(&self, _block: &[u8]) -> i32 {
        self.highest_field_id
    }
}
