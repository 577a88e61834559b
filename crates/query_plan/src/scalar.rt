// A value to compare with.

ghost use Rattle.std.specs.Prelude.{⊤};
ghost use Rattle.query_plan.specs.Values.{scalar_of};
ghost use Rattle.query_plan.specs.Keys.{scalar};

use crate::error::PlanErr;
use crate::rule::Rule;
use row_codec::Bytes;
use std::alloc::Global;
use toml::Value;

/// An integer or a text.
pub(crate) struct Scalar;

impl Rule for Scalar {
    type Made = row_codec::Value;

    ghost check = { λ _. scalar };

    ghost made = { λ _. scalar_of };

    ghost known = { λ _ _. ⊤ };

    fn read(&self, alloc: Global, path: &[u8], value: &Value) -> Result<row_codec::Value, PlanErr> {
        match value {
            Value::Integer(number) => Ok(row_codec::Value::Int(*number)),
            Value::String(text) => Ok(row_codec::Value::Text(Bytes::of(alloc, text.as_bytes())?)),
            _ => {
                let key = Bytes::of(alloc, path)?;
                Err(PlanErr::WrongKind { key })
            }
        }
    }
}
