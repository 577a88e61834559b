// Columns: a name, and a kind behind the last colon.

ghost use Rattle.std.specs.Prelude.{◌≡◌, ⊤, option_map, option_and_then};
ghost use Rattle.toml.specs.Data.{as_str};
ghost use Rattle.toml.specs.View.{view};
ghost use Rattle.query_plan.specs.Words.{column_of};
ghost use Rattle.query_plan.specs.Drafts.{column_in};
ghost use Rattle.query_plan.specs.Keys.{column};

use crate::error::PlanErr;
use crate::rule::Rule;
use row_codec::{Bytes, Column, Kind};
use std::alloc::Global;
use toml::Value;

/// `NAME:int` or `NAME:text`.
pub(crate) struct ColumnText;

impl Rule for ColumnText {
    type Made = Column;

    ghost check = { λ _. column };

    ghost made = { λ _. column_in };

    ghost known = { λ _ _. ⊤ };

    fn read(&self, alloc: Global, path: &[u8], value: &Value) -> Result<Column, PlanErr> {
        let Some((name, kind)) = column_text(value) else {
            let key = Bytes::of(alloc, path)?;
            return Err(PlanErr::WrongKind { key });
        };
        let name = Bytes::of(alloc, name)?;
        Ok(Column { name, kind })
    }
}

fn column_text(value: &Value) -> Option<(&[u8], Kind)>
    ensures { option_map (λ it. record { name = it.0.now; kind = it.1 }) result ≡ option_and_then column_of (as_str (view value.now)) }
{
    column_of(value.as_str()?.as_bytes())
}

// The name and the kind that a column's text says.
fn column_of(text: &[u8]) -> Option<(&[u8], Kind)>
    ensures { option_map (λ it. record { name = it.0.now; kind = it.1 }) result ≡ column_of text.now }
{
    if let Some(name) = text.strip_suffix(b":int") {
        return Some((name, Kind::Int));
    }
    let name = text.strip_suffix(b":text")?;
    Some((name, Kind::Text))
}
