// Numbers among the words.

ghost use Rattle.std.specs.Prelude.{◌≡◌};
ghost use Rattle.csv_edge.specs.Ints.{is_digit, number_of, up_to};
ghost use Rattle.spill_top.specs.Words.{number_in};

// The number that a word spells in decimal digits without a leading zero, if it lies between these.
pub(crate) fn number_in(word: &str, least: u32, most: u32) -> Option<u32>
    ensures { result ≡ number_in least most word.now }
{
    let digits = word.as_bytes();
    if let [b'0', _, ..] = digits {
        return None;
    }
    let number = number_of(digits, most)?;
    if number < least {
        return None;
    }
    Some(number)
}

// The number that one or more digits spell, if it is at most this.
fn number_of(digits: &[u8], most: u32) -> Option<u32>
    ensures { result ≡ up_to most (number_of digits.now) }
{
    if digits.is_empty() {
        return None;
    }
    let mut number = 0u32;
    for byte in digits {
        if !is_digit(*byte) {
            return None;
        }
        let more = u64::from(number) * 10 + u64::from(*byte - b'0');
        if more > u64::from(most) {
            return None;
        }
        number = more as u32;
    }
    Some(number)
}

fn is_digit(byte: u8) -> bool
    ensures { result ≡ is_digit byte }
{
    b'0' <= byte && byte <= b'9'
}
