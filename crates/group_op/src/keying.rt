//! The key in the bytes of a partial row, which is read where it stands.
ghost use Rattle.std.specs.Prelude.{◌≡◌, ℕ, ◌<◌, ◌≤◌, ◌^◌, [], ◌∷◌, ◌++◌, length, drop, take, filter_map, slice_get, option_map, true, IfNone, IfOk, IfSome, List, OnOk};
ghost use Rattle.row_codec.specs.RowBytes.{framed};
ghost use Rattle.group_op.specs.KeyParts.{behind_key, counted, cut_at, cut_behind, left_behind, parts_at, tagged};
ghost use Rattle.group_op.specs.Stored.{IsPartialRow, key_at, key_kinds};

use row_codec::{Kind, Memory, law_row_back};
use store_api::Shape;

// Whether the bytes are a partial row, and then its key, in memory that may be there already.
pub(crate) fn key_of_partial(row: &[u8], shape: &Shape, key: &mut Vec<u8>) -> Result<bool, Memory>
    ensures row { IfOk result (λ found. found ≡ true → IsPartialRow shape.now row.now) }
    ensures key { IfOk result (λ found. found ≡ true → key.new.items ≡ key_at shape.now row.now) }
    ensures found { IfOk result (λ found. IsPartialRow shape.now row.now → found ≡ true) }
{
    law_row_back();
    let Some(body) = body_of(row) else {
        return Ok(false);
    };
    let Some(left) = push_parts(body, shape, key)? else {
        return Ok(false);
    };
    Ok(left == 16 * shape.aggs.as_slice().len())
}

// The bytes behind the first four, where these count them.
pub(crate) fn body_of(row: &[u8]) -> Option<&[u8]>
    ensures some { IfSome result (λ body. (framed body.now ≡ row.now) × (0 < length body.now) × (length body.now < 2 ^ 32)) }
    ensures none { IfNone result ((body : List ℕ) → framed body ≡ row.now → 0 < length body → length body < 2 ^ 32 → ⊥) }
{
    let (head, body) = row.split_first_chunk::<4>()?;
    if body.is_empty() || body.len() >= 1 << 32 {
        return None;
    }
    if *head != (body.len() as u32).to_be_bytes() {
        return None;
    }
    Some(body)
}

// The key of these fields, and how many bytes are left behind them.
fn push_parts(body: &[u8], shape: &Shape, key: &mut Vec<u8>) -> Result<Option<usize>, Memory>
    ensures { IfOk result (λ found. left_behind key.new.items found ≡ counted (parts_at (key_kinds shape.now) body.now)) }
{
    key.clear();
    let mut rest = body;
    for column in shape.keys.as_slice() {
        let Some(len) = push_column(shape.kinds.as_slice(), *column, rest, key)? else {
            return Ok(None);
        };
        rest = &rest[len..];
    }
    Ok(Some(rest.len()))
}

// Appends the part of a column, if there is one, and gives the length of its field.
fn push_column(
    kinds: &[Kind],
    column: usize,
    bytes: &[u8],
    key: &mut Vec<u8>,
) -> Result<Option<usize>, Memory>
    ensures part { IfOk result (λ found. cut_behind key.new.items bytes.now found ≡ behind_key key.old.items (parts_at (filter_map (slice_get kinds.now) (column ∷ [])) bytes.now)) }
    ensures inside { IfOk result (λ found. IfSome found (λ len. len ≤ length bytes.now)) }
{
    if column >= kinds.len() {
        return Ok(Some(0));
    }
    let kind = kinds[column];
    let Some(len) = field_len(kind, bytes) else {
        return Ok(None);
    };
    push_tagged(kind, &bytes[..len], key)?;
    Ok(Some(len))
}

// The length of the field of this kind at the front.
pub(crate) fn field_len(kind: Kind, bytes: &[u8]) -> Option<usize>
    ensures cut { option_map (λ len. (take len bytes.now, drop len bytes.now)) result ≡ cut_at kind bytes.now }
    ensures inside { IfSome result (λ len. len ≤ length bytes.now) }
{
    let len = match kind {
        Kind::Int => 8,
        Kind::Text => {
            let (head, _text) = bytes.split_first_chunk::<4>()?;
            4 + u32::from_be_bytes(*head) as usize
        }
        Kind::Wide => 16,
    };
    if bytes.len() < len {
        return None;
    }
    Some(len)
}

// Appends what a field's bytes are in a key.
fn push_tagged(kind: Kind, field: &[u8], key: &mut Vec<u8>) -> Result<(), Memory>
    ensures { OnOk result (key.new.items ≡ key.old.items ++ tagged kind field.now) }
{
    match kind {
        Kind::Int => key.push(1)?,
        Kind::Text => key.push(2)?,
        Kind::Wide => return Ok(()),
    }
    key.extend_from_slice(field)?;
    Ok(())
}
