// What the queries of a plan and its trace share: files, and slots.

ghost use Rattle.std.specs.Prelude.{◌≡◌, ◌≤◌, length};
ghost use Rattle.std.specs.List.{list_any};
ghost use Rattle.query_plan.specs.Faults.{first_from};
ghost use Rattle.query_plan.specs.PlanOf.{output_fault, trace_fault, quota_fault, writes, reads};
ghost use Rattle.query_plan.specs.Told.{Tells, Clears};

use crate::error::PlanErr;
use crate::paths::{key_in, member_in};
use crate::plan::{Query, TracePlan};
use crate::sizes::slots_of;
use row_codec::Bytes;
use std::alloc::Global;

/// Refuses the first output that is an earlier output, or a file of any query.
pub(crate) fn distinct_outputs(alloc: Global, queries: &[Query]) -> Result<(), PlanErr>
    ensures tells { Tells result (first_from (output_fault queries.now) 0 queries.now) }
    ensures clears { Clears result (first_from (output_fault queries.now) 0 queries.now) }
{
    for (place, query) in queries.iter().enumerate() {
        let name = query.output.as_str();
        if is_written(&queries[..place], name) || is_read(queries, name) {
            let at = member_in(alloc, b"query", place)?;
            let key = key_in(alloc, at.as_slice(), b"output")?;
            return Err(PlanErr::SameOutput { key });
        }
    }
    Ok(())
}

/// Refuses a trace whose output is one of a query, or a file of any query.
pub(crate) fn distinct_trace(
    alloc: Global,
    queries: &[Query],
    trace: &Option<TracePlan>,
) -> Result<(), PlanErr>
    ensures tells { Tells result (trace_fault queries.now trace.now) }
    ensures clears { Clears result (trace_fault queries.now trace.now) }
{
    let Some(trace) = trace else {
        return Ok(());
    };
    let name = trace.output.as_str();
    if is_written(queries, name) || is_read(queries, name) {
        let key = Bytes::of(alloc, b"trace")?;
        return Err(PlanErr::SameOutput { key });
    }
    Ok(())
}

fn is_written(queries: &[Query], name: &str) -> bool
    ensures { result ≡ list_any (writes name.now) queries.now }
{
    queries.iter().any(|query| query.output.as_str() == name)
}

fn is_read(queries: &[Query], name: &str) -> bool
    ensures { result ≡ list_any (reads name.now) queries.now }
{
    queries.iter().any(|query| reads(query, name))
}

fn reads(query: &Query, name: &str) -> bool
    ensures { result ≡ reads name.now query.now }
{
    if query.left.file.as_str() == name {
        return true;
    }
    match &query.right {
        Some(side) => side.file.as_str() == name,
        None => false,
    }
}

/// Refuses quotas of all sessions that are together more than the slots.
pub(crate) fn fitting_quotas(alloc: Global, queries: &[Query], slots: u32) -> Result<(), PlanErr>
    requires few { length queries.now ≤ 16 }
    ensures tells { Tells result (quota_fault slots queries.now) }
    ensures clears { Clears result (quota_fault slots queries.now) }
{
    let mut total = 0u128;
    for query in queries {
        total += u128::from(slots_of(query));
    }
    if total > u128::from(slots) {
        let key = Bytes::of(alloc, b"query")?;
        return Err(PlanErr::QuotaSum { key });
    }
    Ok(())
}
