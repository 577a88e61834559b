//! Bytes behind bytes, where the room for them was taken before.

ghost use Rattle.std.specs.Prelude.{◌≡◌, ◌+◌, ◌<◌, ◌≤◌, ◌^◌, ◌++◌, length, vec_len, vec_capacity, All};
ghost use Rattle.row_codec.specs.RowBytes.{framed};

/// Appends bytes, for which there is room.
#[inline]
pub(crate) fn push(bytes: &[u8], out: &mut Vec<u8>)
    requires room { vec_len out.old + length bytes.now ≤ vec_capacity out.old }
    ensures items { out.new.items ≡ out.old.items ++ bytes.now }
    ensures len { vec_len out.new ≡ vec_len out.old + length bytes.now }
    ensures capacity { vec_capacity out.old ≤ vec_capacity out.new }
    ensures bytes { All (λ byte. byte < 256) bytes.now }
{
    out.extend_from_slice(bytes).unwrap();
}

/// Appends bytes behind their number, for which there is room.
pub(crate) fn push_framed(bytes: &[u8], out: &mut Vec<u8>)
    requires short { length bytes.now < 2 ^ 32 }
    requires room { vec_len out.old + length (framed bytes.now) ≤ vec_capacity out.old }
    ensures items { out.new.items ≡ out.old.items ++ framed bytes.now }
    ensures len { vec_len out.new ≡ vec_len out.old + length (framed bytes.now) }
    ensures capacity { vec_capacity out.old ≤ vec_capacity out.new }
    ensures bytes { All (λ byte. byte < 256) bytes.now }
{
    push(&(bytes.len() as u32).to_be_bytes(), out);
    push(bytes, out);
}
