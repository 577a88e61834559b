// The line of names.

ghost use Rattle.std.specs.Prelude.{◌≡◌, ◌++◌, IfOk, OnOk, Some, codes, false, map};
ghost use Rattle.row_codec.specs.declared.values.Value.TheVariants.{Text};
ghost use Rattle.query_plan.specs.Columns.{behind};
ghost use Rattle.query_plan.specs.Sizes.{groups};
ghost use Rattle.query_run.specs.Answer.{agg_name, header_of, of_column};
ghost use Rattle.query_run.specs.Plans.{HasGroups, name_at, row_columns};

use query_plan::{Query, SidePlan};
use row_codec::{Agg, Bytes, Column, Memory, Value};
use std::alloc::Global;

// The names of the columns that are grouped by, and of the aggregates.
pub(crate) fn header_row(alloc: Global, plan: &Query) -> Result<Vec<Value>, Memory>
    requires { HasGroups plan.now }
    ensures { IfOk result (λ row. row.items ≡ header_of plan.now) }
{
    let left = plan.left.columns.as_slice();
    let Some(asked) = &plan.right else {
        return grouped_names(alloc, left, plan);
    };
    let columns = joined_columns(alloc, left, asked.columns.as_slice())?;
    grouped_names(alloc, &columns, plan)
}

// The same over the columns of the row that is grouped.
fn grouped_names(alloc: Global, columns: &[Column], plan: &Query) -> Result<Vec<Value>, Memory>
    requires groups { HasGroups plan.now }
    requires columns { columns.now ≡ row_columns plan.now }
    ensures { IfOk result (λ row. row.items ≡ header_of plan.now) }
{
    let mut row = Vec::new(alloc);
    push_columns(alloc, columns, plan.group.as_slice(), &mut row)?;
    push_aggs(alloc, columns, plan.aggs.as_slice(), &mut row)?;
    Ok(row)
}

// The names of all columns of a joined row.
pub(crate) fn joined_header(
    alloc: Global,
    plan: &Query,
    asked: &SidePlan,
) -> Result<Vec<Value>, Memory>
    requires right { plan.now.right ≡ Some asked.now }
    requires groups { groups plan.now ≡ false }
    ensures { IfOk result (λ row. row.items ≡ header_of plan.now) }
{
    let columns = joined_columns(
        alloc,
        plan.left.columns.as_slice(),
        asked.columns.as_slice(),
    )?;
    let mut row = Vec::new(alloc);
    for column in &columns {
        row.push(Value::Text(Bytes::of(alloc, column.name.as_slice())?))?;
    }
    Ok(row)
}

// The columns of a joined row: the left ones, and then the right ones.
fn joined_columns(alloc: Global, left: &[Column], right: &[Column]) -> Result<Vec<Column>, Memory>
    ensures { IfOk result (λ columns. columns.items ≡ behind (codes "left.") left.now ++ behind (codes "right.") right.now) }
{
    let mut columns = Vec::new(alloc);
    push_behind(alloc, b"left.", left, &mut columns)?;
    push_behind(alloc, b"right.", right, &mut columns)?;
    Ok(columns)
}

// Adds columns, each with this in front of its name.
fn push_behind(
    alloc: Global,
    front: &[u8],
    columns: &[Column],
    out: &mut Vec<Column>,
) -> Result<(), Memory>
    ensures { OnOk result (out.new.items ≡ out.old.items ++ behind front.now columns.now) }
{
    for column in columns {
        let mut name = Vec::from_slice(alloc, front)?;
        name.extend_from_slice(column.name.as_slice())?;
        out.push(Column {
            name: Bytes::from_vec(name),
            kind: column.kind,
        })?;
    }
    Ok(())
}

// Adds the names of the columns at these places.
fn push_columns(
    alloc: Global,
    columns: &[Column],
    places: &[usize],
    row: &mut Vec<Value>,
) -> Result<(), Memory>
    ensures { OnOk result (row.new.items ≡ row.old.items ++ map (λ place. Text (name_at columns.now place)) places.now) }
{
    for place in places {
        row.push(Value::Text(Bytes::of(alloc, name_of(columns, *place))?))?;
    }
    Ok(())
}

// Adds the names of aggregates over these columns.
fn push_aggs(
    alloc: Global,
    columns: &[Column],
    aggs: &[Agg],
    row: &mut Vec<Value>,
) -> Result<(), Memory>
    ensures { OnOk result (row.new.items ≡ row.old.items ++ map (λ agg. Text (agg_name columns.now agg)) aggs.now) }
{
    for agg in aggs {
        row.push(Value::Text(agg_text(alloc, columns, *agg)?))?;
    }
    Ok(())
}

// The name of a column, and none for one that isn't there.
fn name_of(columns: &[Column], place: usize) -> &[u8]
    ensures { result.now ≡ name_at columns.now place }
{
    match columns.get(place) {
        Some(column) => column.name.as_slice(),
        None => &[],
    }
}

// The name of an aggregate.
fn agg_text(alloc: Global, columns: &[Column], agg: Agg) -> Result<Bytes, Memory>
    ensures { IfOk result (λ name. name ≡ agg_name columns.now agg) }
{
    match agg {
        Agg::Count => Bytes::of(alloc, b"count"),
        Agg::Sum(place) => of_name(alloc, b"sum", columns, place),
        Agg::Min(place) => of_name(alloc, b"min", columns, place),
        Agg::Max(place) => of_name(alloc, b"max", columns, place),
    }
}

// What is computed, and of which column.
fn of_name(alloc: Global, op: &[u8], columns: &[Column], place: usize) -> Result<Bytes, Memory>
    ensures { IfOk result (λ name. name ≡ of_column op.now columns.now place) }
{
    let mut name = Vec::from_slice(alloc, op)?;
    name.extend_from_slice(b"(")?;
    name.extend_from_slice(name_of(columns, place))?;
    name.extend_from_slice(b")")?;
    Ok(Bytes::from_vec(name))
}
