//! Bytes behind their number.
ghost use Rattle.std.specs.Prelude.{◌≡◌, ℕ, ◌<◌, ◌^◌, length, option_map, IfNone, IfSome, List};
ghost use Rattle.row_codec.specs.RowBytes.{framed};
ghost use Rattle.row_codec.specs.RowReading.{framed_at};

// The bytes behind the first four, where these count them.
pub(crate) fn body_of(row: &[u8]) -> Option<&[u8]>
    ensures some { IfSome result (λ body. (framed body.now ≡ row.now) × (0 < length body.now) × (length body.now < 2 ^ 32)) }
    ensures none { IfNone result ((body : List ℕ) → framed body ≡ row.now → 0 < length body → length body < 2 ^ 32 → ⊥) }
{
    let (head, body) = row.split_first_chunk::<4>()?;
    if body.is_empty() || body.len() >= 1 << 32 {
        return None;
    }
    if *head != (body.len() as u32).to_be_bytes() {
        return None;
    }
    Some(body)
}

// As many bytes as the first four say, and those behind them.
pub(crate) fn framed(bytes: &[u8]) -> Option<(&[u8], &[u8])>
    ensures reads { option_map (λ (inside, rest). (inside.now, rest.now)) result ≡ framed_at bytes.now }
{
    let (head, rest) = bytes.split_first_chunk::<4>()?;
    rest.split_at_checked(u32::from_be_bytes(*head) as usize)
}
