// The plan of a count, and its pool.

ghost use Rattle.std.specs.Prelude.{◌≡◌, IfOk};
ghost use Rattle.spill_top.specs.Counting.{counting, counting_conf};

use pin_core::PoolConf;
use query_plan::{FileName, Listed, Query, SidePlan};
use row_codec::{Agg, Bytes, Column, Kind};
use std::alloc::{AllocError, Global};

// The most bytes that a count may reserve: all memory of its pool.
const LIMIT: u64 = 8388608;

// With what the pool of a count opens. A page is one block.
pub(crate) fn counting_pool() -> PoolConf
    ensures { result ≡ counting_conf }
{
    PoolConf {
        blocks: 1024,
        block_len: 8192,
        first_name: 0,
        profile: 1,
        trace: 0,
    }
}

// The plan that counts a column of texts of a file. Its answer goes to the report, which has no name.
pub(crate) fn counting_plan(alloc: Global, file: &str, column: &str) -> Result<Query, AllocError>
    ensures { IfOk result (λ plan. plan ≡ counting (record { file = file.now; column = column.now })) }
{
    let name = Bytes::from_vec(Vec::from_slice(alloc, column.as_bytes())?);
    let columns = vec![in alloc;
        Column {
            name,
            kind: Kind::Text
        },
    ]?;
    let group = vec![in alloc; 0]?;
    let aggs = vec![in alloc; Agg::Count]?;
    Ok(Query {
        page_blocks: 1,
        limit: LIMIT,
        quota: 0,
        output: FileName::from_string(String::new(alloc)),
        left: SidePlan {
            file: FileName::from_string(String::from_str(alloc, file)?),
            columns: Listed::from_vec(columns),
            preds: Listed::empty(alloc),
        },
        right: None,
        on: Listed::empty(alloc),
        group: Listed::from_vec(group),
        aggs: Listed::from_vec(aggs),
        fragments: 1,
    })
}
