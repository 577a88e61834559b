// Whether bytes are the same.

ghost use Rattle.std.specs.Prelude.{◌≡◌, ◌↔◌, ◌≤◌, ◌+◌, length, true};
ghost use Rattle.std.specs.Int.{from_be_bytes, to_be_bytes, w64};
ghost use Rattle.bucket_table.specs.Regions.{cut};

// The bytes of a word.
const WORD: usize = 8;

// Lists of eight to sixteen bytes, as most keys are, are compared by their first eight bytes and their last eight, which are
// all of them. Others are compared byte by byte.
#[inline]
pub(crate) fn are_same(a: &[u8], b: &[u8]) -> bool
    ensures { result ≡ true ↔ (a.now ≡ b.now) }
{
    if a.len() == b.len() && a.len() >= WORD && a.len() <= 2 * WORD {
        let last = a.len() - WORD;
        is_same_word(a, b, 0) && is_same_word(a, b, last)
    } else {
        a == b
    }
}

// Whether two lists have the same word from a place on.
#[inline]
fn is_same_word(a: &[u8], b: &[u8], at: usize) -> bool
    requires a { at + 8 ≤ length a.now }
    requires b { at + 8 ≤ length b.now }
    ensures { result ≡ true ↔ (cut at 8 a.now ≡ cut at 8 b.now) }
{
    word_at(a, at) == word_at(b, at)
}

// The word from a place on.
#[inline]
fn word_at(bytes: &[u8], at: usize) -> u64
    requires { at + 8 ≤ length bytes.now }
    ensures value { result ≡ from_be_bytes w64 (cut at 8 bytes.now) }
    ensures spelled { to_be_bytes w64 result ≡ cut at 8 bytes.now }
{
    let mut word = [0; WORD];
    word.copy_from_slice(&bytes[at..at + WORD]);
    u64::from_be_bytes(word)
}
