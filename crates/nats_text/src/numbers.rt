ghost use Rattle.std.specs.Prelude.{◌≡◌, ◌<◌, ◌^◌, IfSome};
ghost use Rattle.nats_text.specs.Numbers.{number_of, number_after, is_digit};

/// The greatest number of digits.
const MOST_DIGITS: usize = 19;

/// The number that a text of 1 to 19 decimal digits writes, where it is at most `2^63 - 1`, which is
/// the greatest sequence number and the greatest moment.
pub fn number(digits: &[u8]) -> Option<u64>
    ensures value { result ≡ number_of digits.now }
    ensures bound { IfSome result (λ n. n < 2 ^ 63) }
{
    if digits.is_empty() || digits.len() > MOST_DIGITS {
        return None;
    }
    value_of(digits)
}

fn value_of(digits: &[u8]) -> Option<u64>
    ensures value { result ≡ number_after 0 digits.now }
    ensures bound { IfSome result (λ n. n < 2 ^ 63) }
{
    let mut value = 0u64;
    for digit in digits {
        if !is_digit(*digit) {
            return None;
        }
        let next = value as u128 * 10 + (*digit - b'0') as u128;
        if next >= 1 << 63 {
            return None;
        }
        value = next as u64;
    }
    Some(value)
}

fn is_digit(byte: u8) -> bool
    ensures { result ≡ is_digit byte }
{
    b'0' <= byte && byte <= b'9'
}
