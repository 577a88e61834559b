// Which quota is sure to suffice for a query, by the sizes of its files.

use query_plan::{Plan, Query, SidePlan};
use std::alloc::AllocError;
use std::fs;
use std::rt::Files;

// What a row has at most beside the text of its fields: its length, and for each field a length or a number.
const ROW: u64 = 4;

const FIELD: u64 = 9;

const AGGREGATE: u64 = 16;

// The rows of a side at most, and what they weigh together.
#[derive(Clone, Copy)]
struct Most {
    rows: u64,
    bytes: u64,
}

// For each query of a plan the slots that suffice, where its files tell their sizes and it doesn't join and group.
pub(crate) fn quotas<F: Files + AllocGlobal>(
    files: &F,
    plan: &Plan,
) -> Result<Vec<Option<u64>>, AllocError> {
    let mut quotas = Vec::new(files.alloc());
    for query in plan.queries.as_slice() {
        quotas.push(enough(files, query, plan.block_len))?;
    }
    Ok(quotas)
}

// A page for each row and sixteen more, or the pages that twice the rows' weight fills and 600 more.
fn enough<F: Files>(files: &F, query: &Query, block_len: u32) -> Option<u64> {
    let aggregates = query.aggs.as_slice().len() as u64;
    let mut most = most_of(files, &query.left, aggregates)?;
    if let Some(right) = &query.right {
        if !query.group.as_slice().is_empty() {
            return None;
        }
        let other = most_of(files, right, aggregates)?;
        most.rows = most.rows.saturating_add(other.rows);
        most.bytes = most.bytes.saturating_add(other.bytes);
    }
    let blocks = u64::from(query.page_blocks);
    let filled = most
        .bytes
        .saturating_mul(2)
        .checked_div(blocks * u64::from(block_len))?;
    let by_bytes = filled.saturating_add(601);
    let by_rows = most.rows.saturating_add(16);
    Some(by_bytes.min(by_rows).saturating_mul(blocks))
}

// A record has a byte behind each field, and one that is not empty has two bytes at least.
fn most_of<F: Files>(files: &F, side: &SidePlan, aggregates: u64) -> Option<Most> {
    let data = fs::metadata(files, side.file.as_str()).ok()?;
    if !data.is_file() {
        return None;
    }
    let columns = side.columns.as_slice().len() as u64;
    let rows = data.len().checked_div(columns.max(2))?.saturating_add(1);
    let beside = AGGREGATE
        .saturating_mul(aggregates)
        .saturating_add(FIELD.saturating_mul(columns))
        .saturating_add(ROW);
    Some(Most {
        rows,
        bytes: data.len().saturating_add(rows.saturating_mul(beside)),
    })
}
