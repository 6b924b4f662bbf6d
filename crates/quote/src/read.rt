ghost use Rattle.std.specs.Prelude.{◌≡◌, ◌<◌, false, length, take, IfOk, IfSome, MatchOption};
ghost use Rattle.quote.specs.Quotes.{closing, reading, with_byte};
ghost use Rattle.quote.specs.Calls.{Found, IsEndOf, has_text};

use super::hex::hex_byte;
use std::alloc::AllocError;

// The byte that comes next, as it is or by its escape, and the input after it. None at a quote, a bad escape or the end.
fn read_byte(input: &[u8]) -> Option<(u8, &[u8])>
    ensures byte { MatchOption result
        (reading input.now ≡ closing input.now)
        (λ p. reading input.now ≡ with_byte p.0 (reading p.1.now)) }
    ensures after { IfSome result (λ p. IsEndOf p.1.now input.now) }
    ensures shorter { IfSome result (λ p. length p.1.now < length input.now) }
{
    match input {
        [b'\\', b'x', high, low, rest @ ..] => Some((hex_byte(*high, *low)?, rest)),
        [b'\\', byte @ (b'"' | b'\\'), rest @ ..] => Some((*byte, rest)),
        [] | [b'"' | b'\\', ..] => None,
        [byte, rest @ ..] => Some((*byte, rest)),
    }
}

// Appends the bytes as they are read; where no text is found, those before the fault are left.
fn read_pieces(input: &[u8], out: &mut Vec<u8>) -> Result<Option<usize>, AllocError>
    ensures found { IfOk result (Found input.now out.old.items out.new.items) }
    ensures kept { take (length out.old.items) out.new.items ≡ out.old.items }
{
    let Some(mut rest) = input.strip_prefix(b"\"") else {
        return Ok(None);
    };
    while let Some((byte, after)) = read_byte(rest) {
        out.push(byte)?;
        rest = after;
    }
    let closed = rest.strip_prefix(b"\"");
    Ok(closed.map(|after| input.len() - after.len()))
}

// Appends the bytes of the quoted text at the start of `input`, and tells how many bytes of input it took.
// Where there is none, or memory runs out, `out` is as it was.
pub fn read_quoted(input: &[u8], out: &mut Vec<u8>) -> Result<Option<usize>, AllocError>
    ensures found { IfOk result (Found input.now out.old.items out.new.items) }
    ensures same { has_text result ≡ false → out.new.items ≡ out.old.items }
{
    let before = out.len();
    let read = read_pieces(input, out);
    if !matches!(read, Ok(Some(_))) {
        out.truncate(before);
    }
    read
}
