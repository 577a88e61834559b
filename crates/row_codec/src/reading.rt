//! Rows, read from bytes.

ghost use Rattle.std.specs.Prelude.{◌≡◌, length, option_map, IfOk, IfSome, IfNone};
ghost use Rattle.row_codec.specs.RowBytes.{row_bytes};
ghost use Rattle.row_codec.specs.RowLaws.{Begins, NoneBegins};
ghost use Rattle.row_codec.specs.RowReading.{framed_at, field_at, fields_in, row_at};

use crate::byte_list::Bytes;
use crate::shortage::Memory;
use crate::values::{Kind, Value};
use std::alloc::Global;

/// The row of these kinds at the front of the bytes, and how many of them it takes.
///
/// `None` comes exactly where the bytes begin with no row of these kinds: there is no kind; fewer than four bytes stand
/// there; fewer stand behind them than these four say; or those are not a field of each kind, in this order, and nothing
/// else. What follows the row is not looked at.
///
/// # Errors
///
/// `Memory`: there was none for the row or for a text in it.
#[tactic(auto, using(crate::proofs::ReadBack::none_begins), unfolding(crate::specs::RowReading::row_at))]
pub fn decode_row(
    alloc: Global,
    kinds: &[Kind],
    bytes: &[u8],
) -> Result<Option<(Vec<Value>, usize)>, Memory>
    // What the format reads there.
    ensures reads { IfOk result (λ found.
        option_map (λ (row, len). (row.items, len)) found ≡ row_at kinds.now bytes.now) }

    // It is the row whose bytes stand there, and none exactly where no row's do.
    ensures row { IfOk result (λ found. IfSome found (λ (row, len).
        Begins kinds.now row.items bytes.now × (len ≡ length (row_bytes row.items)))) }
    ensures none { IfOk result (λ found. IfNone found (NoneBegins kinds.now bytes.now)) }
{
    if kinds.is_empty() {
        return Ok(None);
    }
    let Some((body, _behind)) = framed(bytes) else {
        return Ok(None);
    };
    let Some(row) = decode_fields(alloc, kinds, body)? else {
        return Ok(None);
    };
    Ok(Some((row, 4 + body.len())))
}

/// The fields of these kinds, where they are all the bytes.
fn decode_fields(alloc: Global, kinds: &[Kind], bytes: &[u8]) -> Result<Option<Vec<Value>>, Memory>
    ensures reads { IfOk result (λ found. option_map (λ row. row.items) found ≡ fields_in kinds.now bytes.now) }
{
    let mut row = Vec::with_capacity(alloc, kinds.len())?;
    let mut rest = bytes;
    for kind in kinds {
        let Some((field, behind)) = decode_field(alloc, *kind, rest)? else {
            return Ok(None);
        };
        row.push(field)?;
        rest = behind;
    }
    if !rest.is_empty() {
        return Ok(None);
    }
    Ok(Some(row))
}

/// The field of this kind at the front, and the bytes behind it.
fn decode_field(alloc: Global, kind: Kind, bytes: &[u8]) -> Result<Option<(Value, &[u8])>, Memory>
    ensures reads { IfOk result (λ found.
        option_map (λ (field, rest). (field, rest.now)) found ≡ field_at kind bytes.now) }
{
    match kind {
        Kind::Int => {
            let Some((head, rest)) = bytes.split_first_chunk::<8>() else {
                return Ok(None);
            };
            Ok(Some((Value::Int(i64::from_be_bytes(*head)), rest)))
        }
        Kind::Text => {
            let Some((text, rest)) = framed(bytes) else {
                return Ok(None);
            };
            Ok(Some((Value::Text(Bytes::of(alloc, text)?), rest)))
        }
        Kind::Wide => {
            let Some((head, rest)) = bytes.split_first_chunk::<16>() else {
                return Ok(None);
            };
            Ok(Some((Value::Wide(i128::from_be_bytes(*head)), rest)))
        }
    }
}

/// As many bytes as the first four say, and those behind them.
fn framed(bytes: &[u8]) -> Option<(&[u8], &[u8])>
    ensures reads { option_map (λ (inside, rest). (inside.now, rest.now)) result ≡ framed_at bytes.now }
{
    let (head, rest) = bytes.split_first_chunk::<4>()?;
    rest.split_at_checked(u32::from_be_bytes(*head) as usize)
}
