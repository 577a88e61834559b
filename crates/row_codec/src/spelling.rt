//! Rows, spelled as bytes.

ghost use Rattle.std.specs.Prelude.{◌≡◌, ◌+◌, ◌-◌, ◌<◌, ◌≤◌, ◌^◌, ◌++◌, length, min, vec_len, vec_capacity, All, OnOk, OnErr};
ghost use Rattle.row_codec.specs.Row.{IsValue};
ghost use Rattle.row_codec.specs.RowBytes.{field_bytes, row_bytes};

use crate::append::{push, push_framed};
use crate::shortage::Memory;
use crate::values::Value;

/// How many bytes [`encode_row`] writes, or the greatest u64 where they are more.
pub fn encoded_len(row: &[Value]) -> u64
    ensures len { result ≡ min (length (row_bytes row.now)) (2 ^ 64 - 1) }
{
    row.iter()
        .fold(4, |len: u64, value| len.saturating_add(field_len(value)))
}

/// Writes a row behind what is there.
///
/// # Errors
///
/// `Memory`: there was none for the row's bytes. `out` has what it had.
#[tactic(auto, unfolding(crate::specs::RowBytes::row_bytes))]
pub fn encode_row(row: &[Value], out: &mut Vec<u8>) -> Result<(), Memory>
    requires short { length (row_bytes row.now) < 2 ^ 32 }
    ensures ok { OnOk result (out.new.items ≡ out.old.items ++ row_bytes row.now) }
    ensures err { OnErr result (out.new.items ≡ out.old.items) }

    // What the law of reading back asks of a row.
    ensures values { OnOk result (All IsValue row.now) }
{
    let len = encoded_len(row);
    out.reserve(len as usize)?;
    push(&(len as u32 - 4).to_be_bytes(), out);
    for value in row {
        push_field(value, out);
    }
    Ok(())
}

/// How many bytes a field takes.
pub(crate) fn field_len(value: &Value) -> u64
    ensures len { result ≡ length (field_bytes value.now) }
{
    match value {
        Value::Int(_) => 8,
        Value::Text(text) => 4 + text.as_slice().len() as u64,
        Value::Wide(_) => 16,
    }
}

/// Appends a field, for which there is room.
fn push_field(value: &Value, out: &mut Vec<u8>)
    requires short { length (field_bytes value.now) < 2 ^ 32 }
    requires room { vec_len out.old + length (field_bytes value.now) ≤ vec_capacity out.old }
    ensures items { out.new.items ≡ out.old.items ++ field_bytes value.now }
    ensures len { vec_len out.new ≡ vec_len out.old + length (field_bytes value.now) }
    ensures capacity { vec_capacity out.old ≤ vec_capacity out.new }
    ensures value { IsValue value.now }
{
    match value {
        Value::Int(number) => push(&number.to_be_bytes(), out),
        Value::Text(text) => push_framed(text.as_slice(), out),
        Value::Wide(number) => push(&number.to_be_bytes(), out),
    }
}
