ghost use Rattle.std.specs.Prelude.{◌≡◌, ◌++◌, length, take, is_ok, if◌then◌else◌, OnOk};
ghost use Rattle.quote.specs.Quotes.{escaped, quoted, ReadsBack};

use super::hex::hex_digits;
use std::alloc::AllocError;

fn write_byte(out: &mut Vec<u8>, byte: u8) -> Result<(), AllocError>
    ensures { out.new.items ≡ (if is_ok result then out.old.items ++ escaped byte else out.old.items) }
{
    match byte {
        b'"' | b'\\' => out.extend_from_slice(&[b'\\', byte]),
        b' '..=b'~' => out.extend_from_slice(&[byte]),
        _ => {
            let [high, low] = hex_digits(byte);
            out.extend_from_slice(&[b'\\', b'x', high, low])
        }
    }
}

// The quoted form is written, or at least all that was there before still stands.
fn write_pieces(out: &mut Vec<u8>, bytes: &[u8]) -> Result<(), AllocError>
    ensures made { OnOk result (out.new.items ≡ out.old.items ++ quoted bytes.now) }
    ensures kept { take (length out.old.items) out.new.items ≡ out.old.items }
{
    out.push(b'"')?;
    for byte in bytes {
        write_byte(out, *byte)?;
    }
    out.push(b'"')?;
    Ok(())
}

// Appends the quoted form of `bytes`; where memory runs out, `out` is as it was.
pub fn write_quoted(out: &mut Vec<u8>, bytes: &[u8]) -> Result<(), AllocError>
    ensures after { out.new.items ≡ (if is_ok result then out.old.items ++ quoted bytes.now else out.old.items) }
    ensures inverse { ReadsBack bytes.now }
{
    let before = out.len();
    let written = write_pieces(out, bytes);
    if written.is_err() {
        out.truncate(before);
    }
    written
}
