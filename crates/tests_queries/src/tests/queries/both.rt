//! Queries that join and group, over a store in memory with pages of 128 bytes, of which a query reserves forty.

ghost use Rattle.std.specs.Prelude.{◌≡◌, ◌⊎◌, [], ◌∷◌, codes, IfOk, true};
ghost use Rattle.row_codec.specs.declared.values.Kind.TheVariants.{Int, Text};
ghost use Rattle.row_codec.specs.declared.values.Value.TheVariants as value;
ghost use Rattle.scan_filter.specs.declared.pred.Cmp.TheVariants.{Ge};
ghost use Rattle.query_plan.specs.Sizes.{groups, joins};
ghost use Rattle.query_run.specs.Plans.{IsRunnable, IsSide, kinds_of_columns};

use crate::tests::queries::name;
use outside::{MemSink, MemSource};
use query_plan::{FileName, Listed, Query, Side, SidePlan};
use query_run::{QueryErr, Ran, run_query};
use row_codec::{Agg, Column, Kind, Value};
use scan_filter::{Cmp, Pred};
use std::alloc::{AllocError, Global};
use std::test::Fail;
use store_api::{MemStore, Store};

fn columns(alloc: Global, second: &[u8]) -> Result<Vec<Column>, AllocError>
    ensures { IfOk result (λ columns. columns.items ≡ record { name = codes "k"; kind = Int } ∷ record { name = second.now; kind = Text } ∷ []) }
{
    let first = name(alloc, b"k")?;
    let second = name(alloc, second)?;
    Ok(vec![in alloc;
        Column {
            name: first,
            kind: Kind::Int
        },
        Column {
            name: second,
            kind: Kind::Text
        },
    ]?)
}

// A text from "b" on is asked for, or nothing is.
fn preds(alloc: Global, filters: bool) -> Result<Vec<Pred>, AllocError>
    ensures { IfOk result (λ preds. (preds.items ≡ []) ⊎ (preds.items ≡ record { column = 1; op = Ge; value = value.Text (codes "b") } ∷ [])) }
{
    if !filters {
        return Ok(Vec::new(alloc));
    }
    let text = name(alloc, b"b")?;
    Ok(vec![in alloc;
        Pred {
            column: 1,
            op: Cmp::Ge,
            value: Value::Text(text),
        },
    ]?)
}

fn side(alloc: Global, second: &[u8], filters: bool) -> Result<SidePlan, AllocError>
    ensures side { IfOk result (λ side. IsSide side) }
    ensures kinds { IfOk result (λ side. kinds_of_columns side.columns ≡ Int ∷ Text ∷ []) }
{
    Ok(SidePlan {
        file: FileName::from_string(String::new(alloc)),
        columns: Listed::from_vec(columns(alloc, second)?),
        preds: Listed::from_vec(preds(alloc, filters)?),
    })
}

// The ints `k` of both sides are to be equal. The pairs are grouped by the right text `y`, counted, and the left `k` summed up.
// Texts of a side are filtered, or none.
fn plan(alloc: Global, left: bool, right: bool) -> Result<Query, AllocError>
    ensures runnable { IfOk result (λ plan. IsRunnable plan) }
    ensures joins { IfOk result (λ plan. joins plan ≡ true) }
    ensures groups { IfOk result (λ plan. groups plan ≡ true) }
    ensures page { IfOk result (λ plan. plan.page_blocks ≡ 1) }
{
    let on = vec![in alloc; (0, 0)]?;
    let group = vec![in alloc; 3]?;
    let aggs = vec![in alloc; Agg::Count, Agg::Sum(0)]?;
    Ok(Query {
        page_blocks: 1,
        limit: 8192,
        quota: 700,
        output: FileName::from_string(String::new(alloc)),
        left: side(alloc, b"x", left)?,
        right: Some(side(alloc, b"y", right)?),
        on: Listed::from_vec(on),
        group: Listed::from_vec(group),
        aggs: Listed::from_vec(aggs),
        fragments: 1,
    })
}

// Where reading or writing fails, if it does: the numbers of the calls.
#[derive(Clone, Copy)]
struct Fails {
    right: &'static [u64],
    sink: &'static [u64],
}

const NONE: Fails = Fails {
    right: &[],
    sink: &[],
};

// The plan runs in a new store: what became of it, and the store's room behind it.
fn run(
    alloc: Global,
    plan: &Query,
    left: &mut MemSource,
    right: MemSource,
    sink: &mut MemSink,
) -> Result<(Result<Ran, QueryErr>, u64), QueryErr>
    requires plan { IsRunnable plan.now }
    requires joins { joins plan.now ≡ true }
    requires groups { groups plan.now ≡ true }
    requires page { plan.now.page_blocks ≡ 1 }
{
    let mut store = MemStore::open(alloc, 128, 16384, 5120)?;
    let mut right = Some(right);
    let ran = run_query(alloc, &mut store, plan, left, &mut right, sink);
    let room = store.room();
    store.close();
    Ok((ran, room))
}

// What became of a query over these bytes, what it wrote, and its store's room behind it.
fn outcome(
    alloc: Global,
    left: (&[u8], bool),
    right: (&[u8], bool),
    fails: Fails,
) -> Result<(Result<Ran, QueryErr>, Vec<u8>, u64), Fail> {
    let plan = plan(alloc, left.1, right.1)?;
    let mut lefts = MemSource::over(alloc, left.0, 5, &[])?;
    let rights = MemSource::over(alloc, right.0, 5, fails.right)?;
    let mut sink = MemSink::new(alloc, usize::MAX, fails.sink)?;
    let (ran, room) = run(alloc, &plan, &mut lefts, rights, &mut sink)?;
    Ok((ran, Vec::from_slice(alloc, sink.bytes())?, room))
}

const LEFT: &[u8] = b"k,x\n1,a\n2,b\n1,c\n";

const RIGHT: &[u8] = b"k,y\n1,p\n2,q\n1,q\n1,a\n";

#[test]
fn pairs_are_grouped(rt: HostRuntime) -> Result<(), Fail> {
    // The answer behind the names, the numbers of rows, and the sums of both columns. Texts are filtered from `b` on.
    let rows: [((&[u8], bool), (&[u8], bool), &[u8], [u64; 4], [i128; 2]); 5] = [
        (
            (LEFT, false),
            (RIGHT, true),
            b"p,2,2\nq,3,4\n",
            [3, 4, 6, 2],
            [5, 6],
        ),
        (
            (LEFT, true),
            (RIGHT, false),
            b"p,1,1\na,1,1\nq,2,3\n",
            [3, 4, 6, 3],
            [4, 5],
        ),
        (
            (LEFT, true),
            (RIGHT, true),
            b"p,1,1\nq,2,3\n",
            [3, 4, 5, 2],
            [3, 4],
        ),
        (
            (LEFT, false),
            (b"k,y\n3,p\n", false),
            b"",
            [3, 1, 4, 0],
            [0, 0],
        ),
        ((b"k,x\n", false), (RIGHT, false), b"", [0, 4, 4, 0], [0, 0]),
    ];
    for (left, right, groups, numbers, totals) in rows {
        let (ran, written, room) = outcome(rt.alloc(), left, right, NONE)?;
        let ran = ran?;
        let mut text = Vec::from_slice(rt.alloc(), b"right.y,count,sum(left.k)\n")?;
        text.extend_from_slice(groups)?;
        assert_eq!(rt; written.as_slice(), text.as_slice());
        assert_eq!(rt; [ran.left, ran.right, ran.kept, ran.lines], numbers);
        assert_eq!(rt; ran.totals.as_slice(), totals.as_slice());
        assert_eq!(rt; room, 5120);
    }
    Ok(())
}

#[test]
fn what_stops_a_query_has_its_place_and_nothing_is_written(rt: HostRuntime) -> Result<(), Fail> {
    // A left row with 17 bytes of text weighs 130: twice 33 bytes and 32 for the aggregates.
    let long: &[u8] = b"k,x\n1,aaaaaaaaaaaaaaaaa\n";
    let rows: [(&[u8], Fails, QueryErr); 4] = [
        (
            LEFT,
            Fails {
                right: &[1],
                sink: &[],
            },
            QueryErr::SourceFault { side: Side::Right },
        ),
        (
            LEFT,
            Fails {
                right: &[],
                sink: &[0],
            },
            QueryErr::SinkFault,
        ),
        (
            long,
            NONE,
            QueryErr::RowTooLong {
                side: Side::Left,
                number: 1,
                bytes: 130,
            },
        ),
        (b"k\n", NONE, QueryErr::BadHeader { side: Side::Left }),
    ];
    for (left, fails, cause) in rows {
        let (ran, written, room) = outcome(rt.alloc(), (left, false), (RIGHT, false), fails)?;
        assert_eq!(rt; ran.err(), Some(cause));
        assert_eq!(rt; written.as_slice(), b"".as_slice());
        assert_eq!(rt; room, 5120);
    }
    Ok(())
}

// A header, and so many rows of one key, each with another text.
fn rows_of_one_key(alloc: Global, header: &[u8], rows: u32) -> Result<Vec<u8>, AllocError> {
    let mut bytes = Vec::from_slice(alloc, header)?;
    for number in 0..rows {
        let digit = |unit: u32| b'0' + (number / unit % 10) as u8;
        bytes.extend_from_slice(&[b'1', b',', b't', digit(10), digit(1), b'\n'])?;
    }
    Ok(bytes)
}

#[test]
fn more_pairs_than_the_pages_hold_are_all_grouped(rt: HostRuntime) -> Result<(), Fail> {
    // Behind names of 26 bytes there is a line of ten bytes for each of sixty right texts, which has sixty pairs.
    let left = rows_of_one_key(rt.alloc(), b"k,x\n", 60)?;
    let right = rows_of_one_key(rt.alloc(), b"k,y\n", 60)?;
    let (ran, written, room) = outcome(rt.alloc(), (&left, false), (&right, false), NONE)?;
    let ran = ran?;
    assert_eq!(rt; (ran.kept, ran.lines), (120, 60));
    assert_eq!(rt; ran.totals.as_slice(), [3600, 3600].as_slice());
    assert_eq!(rt; written.len(), 626);
    assert!(rt; room >= 5120);
    Ok(())
}
