ghost use Rattle.std.specs.Prelude.{◌≡◌, ℕ, Bool, ◌&&◌, List, map, is_ok};
ghost use Rattle.model.specs.Bytes.{all, same_list, same_bytes};
ghost use Rattle.model.specs.Version.{Property as model_property, Representation, same_property, same_representation};
ghost use Rattle.text.specs.Meaning.{bytes_of, sound};
ghost use Rattle.text.specs.Properties.{property_of, sound_property};
ghost use Rattle.version.specs.Meaning.{representation_of};

use super::view_version::SqlViewRepresentation;
use text::property::Property;
use text::text::{Text, TextFault};

// A piece of a version that is made of texts.
// Kept: sameness by hand, since places in the block are compared as the texts that they name; a derived `==` would compare the places.
pub(super) trait Piece: Copy {
    // the type of what pieces mean
    ghost Meaning: { Type 0 };
    // what it means over a text block
    ghost meant: { List ℕ → Self → Meaning };
    // the test of two meanings
    ghost alike: { Meaning → Meaning → Bool };
    // all its texts are sound
    ghost good: { List ℕ → Self → Bool };

    fn same_as(&self, other: &Self, block: &[u8]) -> bool
        ensures { result ≡ alike (meant block.now self.now) (meant block.now other.now) };

    fn check_texts(&self, block: &[u8]) -> Result<(), TextFault>
        ensures { is_ok result ≡ good block.now self.now };
}

impl Piece for Text {
    ghost Meaning = { List ℕ };

    ghost meant = { bytes_of };

    ghost alike = { same_bytes };

    ghost good = { sound };

    fn same_as(&self, other: &Text, block: &[u8]) -> bool {
        self.same(other, block)
    }

    fn check_texts(&self, block: &[u8]) -> Result<(), TextFault> {
        self.check(block)
    }
}

impl Piece for Property {
    ghost Meaning = { model_property };

    ghost meant = { property_of };

    ghost alike = { same_property };

    ghost good = { sound_property };

    fn same_as(&self, other: &Property, block: &[u8]) -> bool {
        self.key.same_as(&other.key, block) && self.value.same_as(&other.value, block)
    }

    fn check_texts(&self, block: &[u8]) -> Result<(), TextFault> {
        self.check(block)
    }
}

impl Piece for SqlViewRepresentation {
    ghost Meaning = { Representation };

    ghost meant = { representation_of };

    ghost alike = { same_representation };

    ghost good = { λ block r. sound block r.sql && sound block r.dialect };

    fn same_as(&self, other: &SqlViewRepresentation, block: &[u8]) -> bool {
        self.sql.same_as(&other.sql, block) && self.dialect.same_as(&other.dialect, block)
    }

    fn check_texts(&self, block: &[u8]) -> Result<(), TextFault> {
        self.sql.check(block)?;
        self.dialect.check(block)
    }
}

// The same pieces in the same order.
pub(super) fn same_pieces<T: Piece>(left: &[T], right: &[T], block: &[u8]) -> bool
    ensures { result ≡ same_list T.Piece.alike (map (T.Piece.meant block.now) left.now) (map (T.Piece.meant block.now) right.now) }
{
    left.len() == right.len() && left.iter().zip(right).all(|(a, b)| a.same_as(b, block))
}

// Refuses pieces of which one has a bad text.
pub(super) fn check_pieces<T: Piece>(pieces: &[T], block: &[u8]) -> Result<(), TextFault>
    ensures { is_ok result ≡ all (T.Piece.good block.now) pieces.now }
{
    for piece in pieces {
        piece.check_texts(block)?;
    }
    Ok(())
}
