// The plan of a check of the program, and its pool.

ghost use Rattle.std.specs.Prelude.{◌≡◌, IfOk};
ghost use Rattle.row_codec.specs.declared.values.Kind.TheVariants.{Int};
ghost use Rattle.spill_top.specs.CheckPlan.{checking, checking_conf};

use crate::words::Check;
use pin_core::PoolConf;
use query_plan::{FileName, Listed, Query, SidePlan};
use row_codec::{Agg, Bytes, Column, Kind};
use std::alloc::{AllocError, Global};

// The bytes of a block of its pool. A page is one block.
pub(crate) const BLOCK_LEN: u32 = 8192;

// With what its pool opens.
pub(crate) fn checking_pool(check: Check) -> PoolConf
    ensures { result ≡ checking_conf check }
{
    PoolConf {
        blocks: check.blocks,
        block_len: BLOCK_LEN,
        first_name: 0,
        profile: 1,
        trace: 0,
    }
}

// The plan that groups the rows of the table by their key, counts each group and sums up its numbers. The table has no
// name.
pub(crate) fn checking_plan(alloc: Global, check: Check) -> Result<Query, AllocError>
    ensures { IfOk result (λ plan. plan ≡ checking check) }
{
    let columns = vec![in alloc; int_column(alloc, "k")?, int_column(alloc, "v")?]?;
    let group = vec![in alloc; 0]?;
    let aggs = vec![in alloc; Agg::Count, Agg::Sum(1)]?;
    Ok(Query {
        page_blocks: 1,
        limit: u64::from(check.blocks) * u64::from(BLOCK_LEN),
        quota: 0,
        output: FileName::from_string(String::from_str(alloc, "selfcheck.csv")?),
        left: SidePlan {
            file: FileName::from_string(String::new(alloc)),
            columns: Listed::from_vec(columns),
            preds: Listed::empty(alloc),
        },
        right: None,
        on: Listed::empty(alloc),
        group: Listed::from_vec(group),
        aggs: Listed::from_vec(aggs),
        fragments: 1,
    })
}

// A column of ints.
fn int_column(alloc: Global, name: &str) -> Result<Column, AllocError>
    ensures { IfOk result (λ column. column ≡ record { name = name.now; kind = Int }) }
{
    let name = Bytes::from_vec(Vec::from_slice(alloc, name.as_bytes())?);
    Ok(Column {
        name,
        kind: Kind::Int,
    })
}
