// Columns that are named twice.

ghost use Rattle.std.specs.Prelude.{◌≡◌, ◌+◌, ◌<◌, ◌^◌, map, IfOk};
ghost use Rattle.query_plan.specs.Faults.{first_from, member_in};
ghost use Rattle.query_plan.specs.Names.{repeat_fault, group_fault, group_column_fault};
ghost use Rattle.query_plan.specs.Resolved.{group_on};
ghost use Rattle.query_plan.specs.Told.{Tells, Clears};

use crate::columns::find_column;
use crate::error::PlanErr;
use crate::listed::Listed;
use crate::paths::member_in;
use row_codec::{Bytes, Column};
use std::alloc::Global;

/// Refuses the first column whose name an earlier one has.
pub(crate) fn distinct(alloc: Global, path: &[u8], columns: &[Column]) -> Result<(), PlanErr>
    ensures tells { Tells result (first_from (repeat_fault columns.now path.now) 0 columns.now) }
    ensures clears { Clears result (first_from (repeat_fault columns.now path.now) 0 columns.now) }
{
    for (place, column) in columns.iter().enumerate() {
        if find_column(&columns[..place], column.name.as_slice()).is_some() {
            let key = member_in(alloc, path, place)?;
            return Err(PlanErr::Repeated { key });
        }
    }
    Ok(())
}

/// The columns to group by, each at most once.
pub(crate) fn resolve_group(
    alloc: Global,
    path: &[u8],
    columns: &[Column],
    names: &[Bytes],
) -> Result<Listed<usize>, PlanErr>
    ensures tells { Tells result (first_from (group_fault columns.now names.now path.now) 0 names.now) }
    ensures clears { Clears result (first_from (group_fault columns.now names.now path.now) 0 names.now) }
    ensures made { IfOk result (λ all. all ≡ map (group_on columns.now) names.now) }
{
    let mut made = Vec::with_capacity(alloc, names.len())?;
    for (place, name) in names.iter().enumerate() {
        let it = group_column(alloc, path, columns, &names[..place], place, name)?;
        made.push(it)?;
    }
    Ok(Listed::from_vec(made))
}

// The column of this name, which none of the earlier ones is.
fn group_column(
    alloc: Global,
    path: &[u8],
    columns: &[Column],
    earlier: &[Bytes],
    place: usize,
    name: &Bytes,
) -> Result<usize, PlanErr>
    requires fits { place + 1 < 2 ^ 64 }
    ensures tells { Tells result (group_column_fault columns.now earlier.now (member_in path.now place) name.now) }
    ensures clears { Clears result (group_column_fault columns.now earlier.now (member_in path.now place) name.now) }
    ensures made { IfOk result (λ it. it ≡ group_on columns.now name.now) }
{
    let key = member_in(alloc, path, place)?;
    let Some((column, _)) = find_column(columns, name.as_slice()) else {
        return Err(PlanErr::UnknownColumn { key });
    };
    if earlier.contains(name) {
        return Err(PlanErr::Repeated { key });
    }
    Ok(column)
}
