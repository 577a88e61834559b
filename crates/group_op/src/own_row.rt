//! A row that is fed, as its own partial row.
ghost use Rattle.std.specs.Prelude.{◌≡◌, ◌+◌, ◌*◌, ◌<◌, ◌≤◌, ◌^◌, ◌∷◌, [], All, length, OnOk};
ghost use Rattle.row_codec.specs.Row.{IsValue, kinds_of};
ghost use Rattle.row_codec.specs.RowBytes.{row_bytes};
ghost use Rattle.store_api.specs.Shapes.{IsShape};
ghost use Rattle.group_op.specs.Feeding.{Spells};
ghost use Rattle.group_op.specs.Stored.{IsPartialRow};

use crate::spelling::spell_own;
use row_codec::{Memory, Value};
use store_api::Shape;

// Spells the own partial row of a row.
pub(crate) fn spell(row: &[Value], shape: &Shape, out: &mut Vec<u8>) -> Result<(), Memory>
    requires shape { IsShape shape.now }
    requires kinds { kinds_of row.now ≡ shape.now.kinds }
    requires short { length (row_bytes row.now) + 16 * length shape.now.aggs < 2 ^ 32 }
    ensures spells { OnOk result (Spells shape.now out.new.items (row.now ∷ [])) }
    ensures formed { OnOk result (IsPartialRow shape.now out.new.items) }
    ensures short { OnOk result (length out.new.items ≤ length (row_bytes row.now) + 16 * length shape.now.aggs) }
{
    law_values(row);
    spell_own(row, shape, out)
}

// Each value of a row is one of its type.
fn law_values(row: &[Value])
    ensures { All IsValue row.now }
{
    for value in row {
        law_value(value);
    }
}

fn law_value(value: &Value)
    ensures { IsValue value.now }
{
    match value {
        Value::Int(number) => {
            let _number = *number;
        }
        Value::Text(text) => law_bytes(text.as_slice()),
        Value::Wide(number) => {
            let _number = *number;
        }
    }
}

fn law_bytes(_bytes: &[u8])
    ensures { All (λ byte. byte < 256) _bytes.now }
{}
