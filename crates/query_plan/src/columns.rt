// Columns by name.

ghost use Rattle.std.specs.Prelude.{◌≡◌, ◌++◌, map, IfOk};
ghost use Rattle.row_codec.specs.Row.{kind_of};
ghost use Rattle.query_plan.specs.Columns.{named, same_kind, with_front};

use row_codec::{Bytes, Column, Kind, Memory, Value};
use std::alloc::Global;

/// The first column of this name: its place, and its kind.
pub(crate) fn find_column(columns: &[Column], name: &[u8]) -> Option<(usize, Kind)>
    ensures { result ≡ named name.now columns.now }
{
    for (place, column) in columns.iter().enumerate() {
        if column.name.as_slice() == name {
            return Some((place, column.kind));
        }
    }
    None
}

pub(crate) fn same_kind(a: Kind, b: Kind) -> bool
    ensures { result ≡ same_kind a b }
{
    matches!(
        (a, b),
        (Kind::Int, Kind::Int) | (Kind::Text, Kind::Text) | (Kind::Wide, Kind::Wide)
    )
}

pub(crate) fn kind_of(value: &Value) -> Kind
    ensures { result ≡ kind_of value.now }
{
    match value {
        Value::Int(_) => Kind::Int,
        Value::Text(_) => Kind::Text,
        Value::Wide(_) => Kind::Wide,
    }
}

pub(crate) fn copy_of(alloc: Global, value: &Value) -> Result<Value, Memory>
    ensures { IfOk result (λ copy. copy ≡ value.now) }
{
    match value {
        Value::Int(number) => Ok(Value::Int(*number)),
        Value::Text(text) => Ok(Value::Text(Bytes::of(alloc, text.as_slice())?)),
        Value::Wide(number) => Ok(Value::Wide(*number)),
    }
}

/// Appends columns, each with this in front of its name.
pub(crate) fn push_behind(
    alloc: Global,
    front: &[u8],
    columns: &[Column],
    out: &mut Vec<Column>,
) -> Result<(), Memory>
    ensures { IfOk result (λ _. out.new.items ≡ out.old.items ++ map (with_front front.now) columns.now) }
{
    for column in columns {
        let mut name = Vec::from_slice(alloc, front)?;
        name.extend_from_slice(column.name.as_slice())?;
        out.push(Column {
            name: Bytes::from_vec(name),
            kind: column.kind,
        })?;
    }
    Ok(())
}
