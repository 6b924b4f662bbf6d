ghost use Rattle.std.specs.Prelude.{◌≡◌, length, is_ok};
ghost use Rattle.model.specs.Bytes.{same_bytes, trimmed};
ghost use Rattle.model.specs.Texts.{block_fits};
ghost use Rattle.text.specs.Meaning.{bytes_of, sound};

use super::bytes::same_bytes;

// The most bytes of one text, and of the text block.
pub const MAX_TEXT_BYTES: usize = 4096;

pub const MAX_BLOCK_BYTES: usize = 65536;

// A text: so many bytes from a place of the text block.
// Kept: a place, and no slice: records are `Copy` and name one block that is lent to each call, and a text that reaches outside it is refused and not ruled out.
#[derive(Clone, Copy)]
pub struct Text {
    pub place: usize,
    pub length: usize,
}

// A text reaches outside the block or is too long, or the block is too long.
#[derive(Clone, Copy)]
pub struct TextFault;

// Refuses a block that is too long.
pub fn check_block(block: &[u8]) -> Result<(), TextFault>
    ensures { is_ok result ≡ block_fits block.now }
{
    if block.len() <= MAX_BLOCK_BYTES {
        Ok(())
    } else {
        Err(TextFault)
    }
}

impl Text {
    // Refuses a text that reaches outside the block or is too long.
    pub fn check(&self, block: &[u8]) -> Result<(), TextFault>
        ensures { is_ok result ≡ sound block.now self.now }
    {
        match self.place.checked_add(self.length) {
            Some(end) if end <= block.len() && self.length <= MAX_TEXT_BYTES => Ok(()),
            _ => Err(TextFault),
        }
    }

    // Its bytes; of a text that reaches outside the block, those inside.
    // Kept: clipped by `min`, since each look at a property asks it; by `get` a look-up takes up to twice the time.
    pub fn bytes<'t>(&self, block: &'t [u8]) -> &'t [u8]
        ensures { result.now ≡ bytes_of block.now self.now }
    {
        let start = self.place.min(block.len());
        let rest = &block[start..];
        &rest[0..self.length.min(rest.len())]
    }

    // The same bytes as the other.
    pub fn same(&self, other: &Text, block: &[u8]) -> bool
        ensures { result ≡ same_bytes (bytes_of block.now self.now) (bytes_of block.now other.now) }
    {
        same_bytes(self.bytes(block), other.bytes(block))
    }

    // The text without its trailing slashes.
    pub fn without_trailing_slashes(&self, block: &[u8]) -> Text
        ensures bytes { bytes_of block.now result ≡ trimmed (bytes_of block.now self.now) }
        ensures place { result.place ≡ self.now.place }
        ensures length { result.length ≡ length (trimmed (bytes_of block.now self.now)) }
    {
        let bytes = self.bytes(block);
        let slashes = bytes.iter().rev().take_while(|b| **b == b'/');
        Text {
            place: self.place,
            length: bytes.len() - slashes.count(),
        }
    }
}
