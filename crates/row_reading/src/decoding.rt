//! The values of an encoded row are read into memory that is used again.
ghost use Rattle.std.specs.Prelude.{◌≡◌, [], option_map, false, true, IfOk, None, OnOk, Some};
ghost use Rattle.row_codec.specs.RowReading.{field_at, fields_in};
ghost use Rattle.row_reading.specs.Reading.{IsRowOf, values_at};

use crate::framing::{body_of, framed};
use row_codec::{Bytes, Kind, Memory, Value};
use std::alloc::Global;

/// Reads the values of a row of these kinds, where the bytes are one, and answers whether they are.
///
/// The memory of texts that stand in `values` goes to `texts` first, and new texts take it from there. Where the bytes are
/// no such row, `values` may hold a front of its fields.
pub fn decode_into(
    alloc: Global,
    kinds: &[Kind],
    row: &[u8],
    values: &mut Vec<Value>,
    texts: &mut Vec<Vec<u8>>,
) -> Result<bool, Memory>
    ensures values { IfOk result (λ found. found ≡ true → values.new.items ≡ values_at kinds.now row.now) }
    ensures row { IfOk result (λ found. found ≡ true → IsRowOf kinds.now row.now) }
    ensures found { IfOk result (λ found. IsRowOf kinds.now row.now → found ≡ true) }
{
    recycle(values, texts)?;
    let Some(body) = body_of(row) else {
        return Ok(false);
    };
    decode_fields(alloc, kinds, body, values, texts)
}

// Takes the memory of all texts.
fn recycle(values: &mut Vec<Value>, texts: &mut Vec<Vec<u8>>) -> Result<(), Memory>
    ensures ok { OnOk result (values.new.items ≡ []) }
{
    while let Some(value) = values.pop() {
        if let Value::Text(text) = value {
            texts.push(text.into_vec())?;
        }
    }
    Ok(())
}

// Reads fields of these kinds, where they are all the bytes.
fn decode_fields(
    alloc: Global,
    kinds: &[Kind],
    bytes: &[u8],
    values: &mut Vec<Value>,
    texts: &mut Vec<Vec<u8>>,
) -> Result<bool, Memory>
    requires empty { values.old.items ≡ [] }
    ensures reads { IfOk result (λ found. found ≡ true → fields_in kinds.now bytes.now ≡ Some values.new.items) }
    ensures none { IfOk result (λ found. found ≡ false → fields_in kinds.now bytes.now ≡ None) }
{
    let mut rest = bytes;
    for kind in kinds {
        let Some((field, behind)) = decode_field(alloc, *kind, rest, texts)? else {
            return Ok(false);
        };
        values.push(field)?;
        rest = behind;
    }
    Ok(rest.is_empty())
}

// The field of this kind at the front, and the bytes behind it.
fn decode_field<'a>(
    alloc: Global,
    kind: Kind,
    bytes: &'a [u8],
    texts: &mut Vec<Vec<u8>>,
) -> Result<Option<(Value, &'a [u8])>, Memory>
    ensures reads { IfOk result (λ found. option_map (λ (field, rest). (field, rest.now)) found ≡ field_at kind bytes.now) }
{
    match kind {
        Kind::Int => {
            let Some((head, rest)) = bytes.split_first_chunk::<8>() else {
                return Ok(None);
            };
            Ok(Some((Value::Int(i64::from_be_bytes(*head)), rest)))
        }
        Kind::Text => {
            let Some((text, rest)) = framed(bytes) else {
                return Ok(None);
            };
            Ok(Some((Value::Text(text_of(alloc, text, texts)?), rest)))
        }
        Kind::Wide => {
            let Some((head, rest)) = bytes.split_first_chunk::<16>() else {
                return Ok(None);
            };
            Ok(Some((Value::Wide(i128::from_be_bytes(*head)), rest)))
        }
    }
}

// A copy of these bytes, in memory that is there if there is any.
fn text_of(alloc: Global, bytes: &[u8], texts: &mut Vec<Vec<u8>>) -> Result<Bytes, Memory>
    ensures copy { IfOk result (λ text. text ≡ bytes.now) }
{
    let mut text = match texts.pop() {
        Some(text) => text,
        None => Vec::new(alloc),
    };
    text.clear();
    text.extend_from_slice(bytes)?;
    Ok(Bytes::from_vec(text))
}
