//! Keys, spelled as bytes.

ghost use Rattle.std.specs.Prelude.{◌≡◌, ◌≢◌, ◌<◌, ◌^◌, ◌++◌, length, slice_get, All, Some, OnOk, OnErr};
ghost use Rattle.row_codec.specs.declared.values.Kind.TheVariants as kind;
ghost use Rattle.row_codec.specs.Row.{kind_of, kinds_of};
ghost use Rattle.row_codec.specs.RowBytes.{field_bytes, key_bytes, key_part, row_bytes};

use crate::append::{push, push_framed};
use crate::shortage::Memory;
use crate::spelling::field_len;
use crate::values::Value;

/// The byte before an int in a key.
const INT: u8 = 1;
/// The byte before a text in a key.
const TEXT: u8 = 2;

/// Writes the key of a row in these columns behind what is there.
///
/// # Errors
///
/// `Memory`: there was none for the key's bytes. `out` has what it had.
#[tactic(auto, unfolding(crate::specs::RowBytes::key_bytes, crate::specs::RowBytes::row_bytes))]
pub fn key_bytes(row: &[Value], cols: &[usize], out: &mut Vec<u8>) -> Result<(), Memory>
    requires inside { All (λ column. column < length row.now) cols.now }
    requires keyed { All (λ column. slice_get (kinds_of row.now) column ≢ Some kind.Wide) cols.now }
    requires short { length (row_bytes row.now) < 2 ^ 32 }
    ensures ok { OnOk result (out.new.items ≡ out.old.items ++ key_bytes cols.now row.now) }
    ensures err { OnErr result (out.new.items ≡ out.old.items) }
{
    let start = out.len();
    for col in cols {
        if push_key_part(&row[*col], out).is_err() {
            out.truncate(start);
            return Err(Memory);
        }
    }
    Ok(())
}

/// Appends one value of a key.
fn push_key_part(value: &Value, out: &mut Vec<u8>) -> Result<(), Memory>
    requires keyed { kind_of value.now ≢ kind.Wide }
    requires short { length (field_bytes value.now) < 2 ^ 32 }
    ensures ok { OnOk result (out.new.items ≡ out.old.items ++ key_part value.now) }
    ensures err { OnErr result (out.new.items ≡ out.old.items) }
{
    out.reserve(1 + field_len(value) as usize)?;
    match value {
        Value::Int(number) => {
            push(&[INT], out);
            push(&number.to_be_bytes(), out);
        }
        Value::Text(text) => {
            push(&[TEXT], out);
            push_framed(text.as_slice(), out);
        }
        Value::Wide(_) => unreachable!(),
    }
    Ok(())
}
