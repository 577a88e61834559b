// Int fields.

ghost use Rattle.std.specs.Prelude.{◌≡◌, ◌≤◌, ◌^◌, ◌-◌, option_map, pos};
ghost use Rattle.csv_edge.specs.Ints.{int_of, is_digit, number_of, up_to};

// One more than the greatest i64: the least i64 is as far below zero.
const PAST_GREATEST: u64 = 1 << 63;

/// The number that a field spells: a sign or none, and one or more digits, within 64 bits.
pub(crate) fn int_of(field: &[u8]) -> Option<i64>
    ensures { result ≡ int_of field.now }
{
    match field {
        [b'-', digits @ ..] => {
            let number = number_of(digits, PAST_GREATEST)?;
            Some((-i128::from(number)) as i64)
        }
        [b'+', digits @ ..] => positive(digits),
        digits => positive(digits),
    }
}

// The number that these digits spell, as far as an i64 goes.
fn positive(digits: &[u8]) -> Option<i64>
    ensures { result ≡ option_map pos (up_to (2 ^ 63 - 1) (number_of digits.now)) }
{
    let number = number_of(digits, PAST_GREATEST - 1)?;
    Some(number as i64)
}

// The number that one or more digits spell, if it is at most this.
fn number_of(digits: &[u8], most: u64) -> Option<u64>
    requires { most ≤ 2 ^ 63 }
    ensures { result ≡ up_to most (number_of digits.now) }
{
    if digits.is_empty() {
        return None;
    }
    let mut number = 0u64;
    for byte in digits {
        if !is_digit(*byte) {
            return None;
        }
        let more = u128::from(number) * 10 + u128::from(*byte - b'0');
        if more > u128::from(most) {
            return None;
        }
        number = more as u64;
    }
    Some(number)
}

fn is_digit(byte: u8) -> bool
    ensures { result ≡ is_digit byte }
{
    b'0' <= byte && byte <= b'9'
}
