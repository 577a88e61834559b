//! The partial row of a row, spelled as bytes.
ghost use Rattle.std.specs.Prelude.{◌≡◌, ◌+◌, ◌-◌, ◌*◌, ◌<◌, ◌≤◌, ◌^◌, ◌++◌, All, drop, flat_map, length, map, OnOk};
ghost use Rattle.std.specs.Int.{w32, w128, cast_unsigned, to_be_bytes};
ghost use Rattle.row_codec.specs.declared.values.Value.TheVariants as value;
ghost use Rattle.row_codec.specs.Row.{IsValue, kinds_of};
ghost use Rattle.row_codec.specs.RowBytes.{field_bytes, row_bytes, values_in};
ghost use Rattle.store_api.specs.Shapes.{IsShape};
ghost use Rattle.group_rows.specs.Aggregates.{own_number};
ghost use Rattle.group_rows.specs.Partials.{partial_of};
ghost use Rattle.group_op.specs.Stored.{IsPartialRow, grouping_of, own_bytes, partial_at};

use group_rows::own;
use row_codec::{Agg, Memory, Value, law_row_back};
use store_api::Shape;

// Spells the partial row of a row. It takes no memory where there is room for it.
pub(crate) fn spell_own(row: &[Value], shape: &Shape, out: &mut Vec<u8>) -> Result<(), Memory>
    requires shape { IsShape shape.now }
    requires kinds { kinds_of row.now ≡ shape.now.kinds }
    requires short { length (row_bytes row.now) + 16 * length shape.now.aggs < 2 ^ 32 }
    ensures row { OnOk result (out.new.items ≡ own_bytes shape.now row.now) }
    ensures formed { OnOk result (IsPartialRow shape.now out.new.items) }
    ensures says { OnOk result (partial_at shape.now out.new.items ≡ partial_of (grouping_of shape.now) row.now) }
{
    law_row_back();
    out.clear();
    // The number of the bytes comes once they are there.
    out.extend_from_slice(&[0; 4])?;
    push_keys(row, shape.keys.as_slice(), out)?;
    push_numbers(row, shape.aggs.as_slice(), out)?;
    set_frame(out);
    Ok(())
}

// Appends the values in these columns.
fn push_keys(row: &[Value], columns: &[usize], out: &mut Vec<u8>) -> Result<(), Memory>
    requires inside { All (λ column. column < length row.now) columns.now }
    requires short { length (row_bytes row.now) < 2 ^ 32 }
    ensures items { OnOk result (out.new.items ≡ out.old.items ++ flat_map field_bytes (values_in columns.now row.now)) }
    ensures values { OnOk result (All IsValue (values_in columns.now row.now)) }
{
    for column in columns {
        push_field(&row[*column], out)?;
    }
    Ok(())
}

// Appends the number that a row has for each aggregate.
fn push_numbers(row: &[Value], aggs: &[Agg], out: &mut Vec<u8>) -> Result<(), Memory>
    ensures items { OnOk result (out.new.items ≡ out.old.items ++ flat_map field_bytes (map (λ agg. value.Wide (own_number agg row.now)) aggs.now)) }
    ensures values { OnOk result (All IsValue (map (λ agg. value.Wide (own_number agg row.now)) aggs.now)) }
{
    for agg in aggs {
        push_wide(own(*agg, row), out)?;
    }
    Ok(())
}

// Appends a field.
fn push_field(value: &Value, out: &mut Vec<u8>) -> Result<(), Memory>
    requires short { length (field_bytes value.now) < 2 ^ 32 }
    ensures items { OnOk result (out.new.items ≡ out.old.items ++ field_bytes value.now) }
    ensures value { OnOk result (IsValue value.now) }
{
    match value {
        Value::Int(number) => out.extend_from_slice(&number.to_be_bytes())?,
        Value::Text(text) => {
            let bytes = text.as_slice();
            out.extend_from_slice(&(bytes.len() as u32).to_be_bytes())?;
            out.extend_from_slice(bytes)?;
        }
        Value::Wide(number) => push_wide(*number, out)?,
    }
    Ok(())
}

// Appends a wide number.
fn push_wide(number: i128, out: &mut Vec<u8>) -> Result<(), Memory>
    ensures items { OnOk result (out.new.items ≡ out.old.items ++ field_bytes (value.Wide number)) }
    ensures value { IsValue (value.Wide number) }
{
    out.extend_from_slice(&spelled(number))?;
    Ok(())
}

// The sixteen bytes that spell a wide number, in two's complement. All of it is turned round before it is parted, which a
// compiler does by an instruction for each half.
#[inline]
fn spelled(number: i128) -> [u8; 16]
    ensures { result ≡ to_be_bytes w128 (cast_unsigned w128 number) }
{
    let turned = number.cast_unsigned().swap_bytes();
    let first = ((turned % (1 << 64)) as u64).to_le_bytes();
    let last = ((turned >> 64) as u64).to_le_bytes();
    let mut out = [0; 16];
    out[..8].copy_from_slice(&first);
    out[8..].copy_from_slice(&last);
    out
}

// Writes the number of the bytes behind the first four into these.
fn set_frame(out: &mut Vec<u8>)
    requires frame { 4 ≤ length out.old.items }
    requires short { length out.old.items - 4 < 2 ^ 32 }
    ensures { out.new.items ≡ to_be_bytes w32 (length out.old.items - 4) ++ drop 4 out.old.items }
{
    let frame = ((out.len() - 4) as u32).to_be_bytes();
    for at in 0..4 {
        out[at] = frame[at];
    }
}
