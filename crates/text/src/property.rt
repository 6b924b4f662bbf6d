ghost use Rattle.std.specs.Prelude.{◌≡◌, map, is_ok};
ghost use Rattle.model.specs.Edits.{out_of_order};
ghost use Rattle.text.specs.Properties.{property_of, sound_property};

use super::bytes::before;
use super::text::{Text, TextFault};

// A key and its value: a property of the view, or a pair of a version's summary.
#[derive(Clone, Copy)]
pub struct Property {
    pub key: Text,
    pub value: Text,
}

impl Property {
    // Refuses a property one of whose texts is not sound.
    pub fn check(&self, block: &[u8]) -> Result<(), TextFault>
        ensures { is_ok result ≡ sound_property block.now self.now }
    {
        self.key.check(block)?;
        self.value.check(block)
    }
}

// The position of the first key that does not come after the one before it.
pub fn out_of_order(properties: &[Property], block: &[u8]) -> Option<usize>
    ensures { result ≡ out_of_order (map (property_of block.now) properties.now) }
{
    properties
        .iter()
        .zip(properties.iter().skip(1))
        .position(|(p, q)| !before(p.key.bytes(block), q.key.bytes(block)))
        .map(|first| first + 1)
}
