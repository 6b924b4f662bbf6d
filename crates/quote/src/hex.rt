ghost use Rattle.std.specs.Prelude.{◌≡◌, ◌<◌, ◌++◌, is_ok, if◌then◌else◌};
ghost use Rattle.quote.specs.Quotes.{hex_byte, hex_digit, hex_digits, hex_value};

use std::alloc::AllocError;

// The number of a hexadecimal digit of either case.
pub fn hex_value(digit: u8) -> Option<u8>
    ensures { result ≡ hex_value digit }
{
    char::from(digit).to_digit(16).map(|value| value as u8)
}

// The byte that two hexadecimal digits of either case write, the high one first.
pub fn hex_byte(high: u8, low: u8) -> Option<u8>
    ensures { result ≡ hex_byte high low }
{
    Some(hex_value(high)? * 16 + hex_value(low)?)
}

// The hexadecimal digit of a number below 16, in small letters.
// Kept: `char::from_digit` answers an Option of a char, which would be taken apart and cast.
fn hex_digit(n: u8) -> u8
    requires { n < 16 }
    ensures { result ≡ hex_digit n }
{
    if n < 10 { b'0' + n } else { b'a' + (n - 10) }
}

// The two hexadecimal digits of a byte, the high one first.
pub(crate) fn hex_digits(byte: u8) -> [u8; 2]
    ensures { result ≡ hex_digits byte }
{
    [hex_digit(byte / 16), hex_digit(byte % 16)]
}

// Appends the two hexadecimal digits of a byte; where memory runs out, `out` is as it was.
pub fn write_hex(out: &mut Vec<u8>, byte: u8) -> Result<(), AllocError>
    ensures { out.new.items ≡ (if is_ok result then out.old.items ++ hex_digits byte else out.old.items) }
{
    out.extend_from_slice(&hex_digits(byte))
}
