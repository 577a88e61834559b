//! Whole queries over a store in memory, against worked rows. A page has 256 bytes, and a query begins with twenty of them.

mod both;
mod shared;

ghost use Rattle.std.specs.Prelude.{◌≡◌, ◌≤◌, ◌⊎◌, [], ◌∷◌, codes, IfOk, All, None, length, pos};
ghost use Rattle.row_codec.specs.declared.values.Kind.TheVariants.{Int, Text};
ghost use Rattle.row_codec.specs.declared.values.Value.TheVariants as value;
ghost use Rattle.scan_filter.specs.declared.pred.Cmp.TheVariants.{Lt};
ghost use Rattle.store_api.specs.Shapes.{IsOverInts};
ghost use Rattle.query_run.specs.Plans.{IsRunnable, IsSide, kinds_of_columns};

use outside::{MemSink, MemSource};
use query_plan::{FileName, Listed, Query, Side, SidePlan};
use query_run::{QueryErr, Ran, run_query};
use row_codec::{Agg, Bytes, Column, Kind, Value};
use scan_filter::{Cmp, Pred};
use std::alloc::{AllocError, Global};
use std::test::Fail;
use store_api::MemStore;

// What is asked of the ints `v` of each text `k`: of all rows, or of those with `v` below 5.
#[derive(Clone, Copy)]
enum Asked {
    CountAndSum,
    CountAndSumBelow5,
    LeastAndGreatest,
}

// What is computed over each group.
fn aggs_of(alloc: Global, asked: Asked) -> Result<Vec<Agg>, AllocError>
    ensures ints { IfOk result (λ aggs. All (IsOverInts (Text ∷ Int ∷ [])) aggs.items) }
    ensures few { IfOk result (λ aggs. length aggs.items ≤ 16) }
{
    match asked {
        Asked::CountAndSum | Asked::CountAndSumBelow5 => {
            Ok(vec![in alloc; Agg::Count, Agg::Sum(1)]?)
        }
        Asked::LeastAndGreatest => Ok(vec![in alloc; Agg::Min(1), Agg::Max(1)]?),
    }
}

// What a row has to meet.
fn preds_of(alloc: Global, asked: Asked) -> Result<Vec<Pred>, AllocError>
    ensures { IfOk result (λ preds. (preds.items ≡ []) ⊎ (preds.items ≡ record { column = 1; op = Lt; value = value.Int (pos 5) } ∷ [])) }
{
    match asked {
        Asked::CountAndSumBelow5 => Ok(vec![in alloc;
            Pred {
                column: 1,
                op: Cmp::Lt,
                value: Value::Int(5),
            },
        ]?),
        _ => Ok(Vec::new(alloc)),
    }
}

fn name(alloc: Global, name: &[u8]) -> Result<Bytes, AllocError>
    ensures { IfOk result (λ bytes. bytes ≡ name.now) }
{
    Ok(Bytes::from_vec(Vec::from_slice(alloc, name)?))
}

fn columns(alloc: Global) -> Result<Vec<Column>, AllocError>
    ensures { IfOk result (λ columns. columns.items ≡ record { name = codes "k"; kind = Text } ∷ record { name = codes "v"; kind = Int } ∷ []) }
{
    let key = name(alloc, b"k")?;
    let value = name(alloc, b"v")?;
    Ok(vec![in alloc;
        Column {
            name: key,
            kind: Kind::Text
        },
        Column {
            name: value,
            kind: Kind::Int
        },
    ]?)
}

fn side(alloc: Global, asked: Asked) -> Result<SidePlan, AllocError>
    ensures side { IfOk result (λ side. IsSide side) }
    ensures kinds { IfOk result (λ side. kinds_of_columns side.columns ≡ Text ∷ Int ∷ []) }
{
    Ok(SidePlan {
        file: FileName::from_string(String::new(alloc)),
        columns: Listed::from_vec(columns(alloc)?),
        preds: Listed::from_vec(preds_of(alloc, asked)?),
    })
}

fn plan(alloc: Global, asked: Asked) -> Result<Query, AllocError>
    ensures runnable { IfOk result (λ plan. IsRunnable plan) }
    ensures alone { IfOk result (λ plan. plan.right ≡ None) }
    ensures page { IfOk result (λ plan. plan.page_blocks ≡ 1) }
{
    let group = vec![in alloc; 0]?;
    Ok(Query {
        page_blocks: 1,
        limit: 16384,
        quota: 700,
        output: FileName::from_string(String::new(alloc)),
        left: side(alloc, asked)?,
        right: None,
        on: Listed::empty(alloc),
        group: Listed::from_vec(group),
        aggs: Listed::from_vec(aggs_of(alloc, asked)?),
        fragments: 1,
    })
}

// The plan runs in a new store.
fn run(
    alloc: Global,
    plan: &Query,
    left: &mut MemSource,
    sink: &mut MemSink,
) -> Result<Ran, QueryErr>
    requires plan { IsRunnable plan.now }
    requires alone { plan.now.right ≡ None }
    requires page { plan.now.page_blocks ≡ 1 }
{
    let mut store = MemStore::open(alloc, 256, 16384, 5120)?;
    let mut right = None;
    let ran = run_query(alloc, &mut store, plan, left, &mut right, sink);
    store.close();
    ran
}

// What became of a query over these bytes, and what it wrote.
fn outcome(
    alloc: Global,
    bytes: &[u8],
    asked: Asked,
) -> Result<(Result<Ran, QueryErr>, Vec<u8>), Fail> {
    let plan = plan(alloc, asked)?;
    let mut left = MemSource::over(alloc, bytes, 5, &[])?;
    let mut sink = MemSink::new(alloc, usize::MAX, &[])?;
    let ran = run(alloc, &plan, &mut left, &mut sink);
    Ok((ran, Vec::from_slice(alloc, sink.bytes())?))
}

#[test]
fn groups_are_written_in_the_order_of_paths(rt: HostRuntime) -> Result<(), Fail> {
    const ROWS: &[u8] = b"v,z,k\n+7,q,a\n-9,q,a\n007,q,b\n";
    // The answer, how many rows were read, passed and were written, and the sums of both columns.
    let rows: [(&[u8], Asked, &[u8], [u64; 3], [i128; 2]); 4] = [
        (
            ROWS,
            Asked::CountAndSum,
            b"k,count,sum(v)\nb,1,7\na,2,-2\n",
            [3, 3, 2],
            [3, 5],
        ),
        (
            ROWS,
            Asked::CountAndSumBelow5,
            b"k,count,sum(v)\na,1,-9\n",
            [3, 1, 1],
            [1, -9],
        ),
        (
            ROWS,
            Asked::LeastAndGreatest,
            b"k,min(v),max(v)\nb,7,7\na,-9,7\n",
            [3, 3, 2],
            [-2, 14],
        ),
        (
            b"k,v\n",
            Asked::CountAndSum,
            b"k,count,sum(v)\n",
            [0, 0, 0],
            [0, 0],
        ),
    ];
    for (bytes, asked, text, numbers, totals) in rows {
        let (ran, written) = outcome(rt.alloc(), bytes, asked)?;
        let ran = ran?;
        assert_eq!(rt; written.as_slice(), text);
        assert_eq!(rt; [ran.left, ran.kept, ran.lines], numbers);
        assert_eq!(rt; ran.totals.as_slice(), totals.as_slice());
    }
    Ok(())
}

// A header, and a row with a text of so many bytes and this int.
fn long_row(alloc: Global, len: usize, int: &[u8]) -> Result<Vec<u8>, AllocError> {
    let mut bytes = Vec::from_slice(alloc, b"k,v\n")?;
    bytes.extend_from_slice(vec![in alloc; b'x'; len]?.as_slice())?;
    bytes.extend_from_slice(b",")?;
    bytes.extend_from_slice(int)?;
    bytes.extend_from_slice(b"\n")?;
    Ok(bytes)
}

#[test]
fn a_row_weighs_at_most_a_page(rt: HostRuntime) -> Result<(), Fail> {
    // Beside its text a row weighs 48 bytes with two aggregates. It is weighed before the filter sees it.
    let rows: [(usize, &[u8], Option<u64>); 3] = [
        (208, b"9", None),
        (209, b"1", Some(257)),
        (217, b"9", Some(265)),
    ];
    for (len, int, weight) in rows {
        let bytes = long_row(rt.alloc(), len, int)?;
        let (ran, _) = outcome(rt.alloc(), bytes.as_slice(), Asked::CountAndSumBelow5)?;
        let refusal = weight.map(|bytes| QueryErr::RowTooLong {
            side: Side::Left,
            number: 1,
            bytes,
        });
        assert_eq!(rt; ran.err(), refusal, "{len} bytes");
    }
    Ok(())
}
