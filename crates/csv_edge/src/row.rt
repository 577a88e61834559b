// A record as a row.

ghost use Rattle.std.specs.Prelude.{◌≡◌, [], IfOk, OnOk, Ok, Err, Some, None, MatchResult, length, slice_index_or, true, false};
ghost use Rattle.csv.specs.Records.{fields_of};
ghost use Rattle.csv_edge.specs.Typed.{row_from, value_of};

use crate::header::Placed;
use crate::ints::int_of;
use csv::ByteRecord;
use row_codec::{Bytes, Kind, Memory, Value};
use std::alloc::Global;

/// The first declared column in which a record has no value.
#[derive(Clone, Copy)]
pub(crate) struct NoValue {
    pub(crate) column: u32,
}

/// The field at a place, with no bytes where the record has none there.
#[inline]
pub(crate) fn field_of(byte_record: &ByteRecord, place: usize) -> &[u8]
    ensures { result.now ≡ slice_index_or (fields_of byte_record.now) place [] }
{
    byte_record.get(place).unwrap_or(&[])
}

/// Makes a list the row of a record. The memory of its texts is used again.
///
/// Behind an error the list has any values.
pub(crate) fn fill_row(
    alloc: Global,
    byte_record: &ByteRecord,
    columns: &[Placed],
    row: &mut Vec<Value>,
) -> Result<Result<(), NoValue>, Memory>
    ensures { IfOk result (λ made. MatchResult made (λ _. row_from 0 columns.now (fields_of byte_record.now) ≡ Ok row.new.items) (λ none. row_from 0 columns.now (fields_of byte_record.now) ≡ Err none.column)) }
{
    fit(row, columns.len())?;
    for (at, column) in columns.iter().enumerate() {
        let field = field_of(byte_record, column.place);
        if !fill_value(alloc, &mut row[at], column.kind, field)? {
            // No list of 2^32 columns is handed in.
            let Ok(column) = u32::try_from(at) else {
                return Err(Memory);
            };
            return Ok(Err(NoValue { column }));
        }
    }
    Ok(Ok(()))
}

// Gives a list so many values. Those that it has stay.
#[inline]
fn fit(row: &mut Vec<Value>, len: usize) -> Result<(), Memory>
    ensures { OnOk result (length row.new.items ≡ len) }
{
    row.truncate(len);
    while row.len() < len {
        row.push(Value::Int(0))?;
    }
    Ok(())
}

// Makes a value the one that a field spells in a column of this kind, or answers `false` where it
// spells none. Sums are no fields.
#[inline]
fn fill_value(alloc: Global, value: &mut Value, kind: Kind, field: &[u8]) -> Result<bool, Memory>
    ensures some { IfOk result (λ found. found ≡ true → value_of kind field.now ≡ Some value.new) }
    ensures none { IfOk result (λ found. found ≡ false → value_of kind field.now ≡ None) }
{
    match kind {
        Kind::Int => match int_of(field) {
            Some(number) => {
                *value = Value::Int(number);
                Ok(true)
            }
            None => Ok(false),
        },
        Kind::Text => {
            fill_text(alloc, value, field)?;
            Ok(true)
        }
        Kind::Wide => Ok(false),
    }
}

// Makes a value this text; where it was a text before, its memory is used again.
#[inline]
fn fill_text(alloc: Global, value: &mut Value, field: &[u8]) -> Result<(), Memory>
    ensures { OnOk result (value.new ≡ Value.Text field.now) }
{
    match value {
        Value::Text(text) => text.refill(field),
        Value::Int(_) | Value::Wide(_) => {
            *value = Value::Text(Bytes::of(alloc, field)?);
            Ok(())
        }
    }
}
