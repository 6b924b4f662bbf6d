ghost use Rattle.std.specs.Prelude.{◌≡◌, ◌-◌, ◌^◌, [], ◌∷◌};
ghost use Rattle.model.specs.Numbers.{digits, numeral, at_most, signed_reading, unsigned_reading};

// The number n with one more digit; none where b is no digit, or the number is past the limit.
fn with_digit(n: u64, b: u8) -> Option<u64>
    ensures { result ≡ at_most (2 ^ 64 - 1) (digits n (b ∷ [])) }
{
    match b {
        b'0'..=b'9' => n.checked_mul(10)?.checked_add(u64::from(b - b'0')),
        _ => None,
    }
}

// The number that the digits make; none where there is no digit, or another byte, or the number is past the limit.
fn numeral(bytes: &[u8]) -> Option<u64>
    ensures { result ≡ at_most (2 ^ 64 - 1) (numeral bytes.now) }
{
    if bytes.is_empty() {
        return None;
    }
    bytes.iter().try_fold(0, |n, b| with_digit(n, *b))
}

// The number that a text writes with one sign or none before its digits.
pub fn signed_reading(bytes: &[u8]) -> Option<i64>
    ensures { result ≡ signed_reading bytes.now }
{
    match bytes {
        [b'-', digits @ ..] => 0i64.checked_sub_unsigned(numeral(digits)?),
        _ => i64::try_from(unsigned_reading(bytes)?).ok(),
    }
}

// The number that a text writes with one plus or none before its digits.
pub fn unsigned_reading(bytes: &[u8]) -> Option<u64>
    ensures { result ≡ unsigned_reading bytes.now }
{
    match bytes {
        [b'+', digits @ ..] => numeral(digits),
        _ => numeral(bytes),
    }
}

#[cfg(test)]
mod tests {
    use super::*;

    #[test]
    fn signed_texts(rt: HostRuntime) {
        let cases: [(&[u8], Option<i64>); 12] = [
            (b"", None),
            (b"+", None),
            (b"-", None),
            (b"+-1", None),
            (b"-0", Some(0)),
            (b"+5", Some(5)),
            (b"00", Some(0)),
            (b"7x", None),
            (b"9223372036854775807", Some(i64::MAX)),
            (b"9223372036854775808", None),
            (b"-9223372036854775808", Some(i64::MIN)),
            (b"-9223372036854775809", None),
        ];
        for (text, number) in cases {
            assert_eq!(rt; signed_reading(text), number);
        }
    }

    #[test]
    fn unsigned_texts(rt: HostRuntime) {
        let cases: [(&[u8], Option<u64>); 8] = [
            (b"", None),
            (b"+", None),
            (b"-0", None),
            (b"+5", Some(5)),
            (b"000000000000000000000000000001", Some(1)),
            (b"18446744073709551615", Some(u64::MAX)),
            (b"18446744073709551616", None),
            (b"99999999999999999999999x", None),
        ];
        for (text, number) in cases {
            assert_eq!(rt; unsigned_reading(text), number);
        }
    }
}
