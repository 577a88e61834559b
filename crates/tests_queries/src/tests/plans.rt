use query_plan::{PlanErr, Query, least, read_plan};
use row_codec::{Agg, Bytes, Value};
use scan_filter::Cmp;
use std::alloc::Global;
use std::process::Abort;
use std::test::Fail;

mod documents;
mod tables;

use tables::{BOTH, DOCUMENT, FULL, GROUPS, JOINS, NAMES, ORDER, QUERIES, SIDES};

fn fault(alloc: Global, name: &str, key: &str) -> Result<PlanErr, Fail> {
    let key = Bytes::of(alloc, key.as_bytes())?;
    match name {
        "MissingKey" => Ok(PlanErr::MissingKey { key }),
        "WrongKind" => Ok(PlanErr::WrongKind { key }),
        "UnknownKey" => Ok(PlanErr::UnknownKey { key }),
        "UnknownColumn" => Ok(PlanErr::UnknownColumn { key }),
        "KindClash" => Ok(PlanErr::KindClash { key }),
        "Limit" => Ok(PlanErr::Limit { key }),
        "Repeated" => Ok(PlanErr::Repeated { key }),
        "SameOutput" => Ok(PlanErr::SameOutput { key }),
        "QuotaSum" => Ok(PlanErr::QuotaSum { key }),
        _ => Err(Fail::from("no fault")),
    }
}

// Sees that a plan is refused so, with so many slots.
fn check_refused(rt: &impl Abort, alloc: Global, text: &[u8], slots: u32, why: PlanErr) {
    assert_eq!(rt; read_plan(alloc, text, slots).err(), Some(why));
}

// Each row is a piece of the full document, what stands in its place, the fault and its key.
fn check_row(rt: &impl Abort, alloc: Global, row: &str) -> Result<(), Fail> {
    let mut parts = row.split('|');
    let (Some(old), Some(new), Some(name), Some(key)) = (
        parts.next(),
        parts.next(),
        parts.next(),
        parts.next(),
    ) else {
        return Err(Fail::from("four parts"));
    };
    let old = old.replace(alloc, "~", "\n")?;
    let new = new.replace(alloc, "~", "\n")?;
    let text = FULL.replace(alloc, old.as_str(), new.as_str())?;
    let why = fault(alloc, name, key)?;
    check_refused(rt, alloc, text.as_bytes(), 4096, why);
    Ok(())
}

#[test]
fn each_key_has_its_faults_and_of_two_the_first_is_told(rt: HostRuntime) -> Result<(), Fail> {
    for rows in [DOCUMENT, QUERIES, SIDES, NAMES, ORDER] {
        for row in rows.lines() {
            check_row(&rt, rt.alloc(), row)?;
        }
    }
    Ok(())
}

// What the query of the full document says.
fn check_query(rt: &impl Abort, query: &Query) {
    let numbers = (query.page_blocks, query.limit, query.quota);
    assert_eq!(rt; numbers, (1, 2048, 700));
    assert_eq!(rt; query.output.as_str(), "out.csv");
    assert_eq!(rt; query.on.as_slice(), [(0, 0)].as_slice());
    assert_eq!(rt; query.group.as_slice(), [0].as_slice());
    assert_eq!(rt; query.aggs.as_slice(), [Agg::Count, Agg::Sum(3)].as_slice());
}

// The one filter of its left side.
fn check_filter(rt: &impl Abort, alloc: Global, query: &Query) -> Result<(), Fail> {
    let [pred] = query.left.preds.as_slice() else {
        return Err(Fail::from("one filter"));
    };
    assert_eq!(rt; (pred.column, pred.op), (1, Cmp::Ge));
    assert_eq!(rt; &pred.value, &Value::Text(Bytes::of(alloc, b"b")?));
    Ok(())
}

#[test]
fn the_full_document_says_each_number(rt: HostRuntime) -> Result<(), Fail> {
    let plan = read_plan(rt.alloc(), FULL.as_bytes(), 700)?;
    assert_eq!(rt; (plan.block_len, plan.blocks, plan.writers), (64, 32, 1));
    let [query] = plan.queries.as_slice() else {
        return Err(Fail::from("one query"));
    };
    check_query(&rt, query);
    check_filter(&rt, rt.alloc(), query)
}

// The least reservation of a plan's one query.
fn least_of(alloc: Global, text: &str) -> Result<u64, Fail> {
    let plan = read_plan(alloc, text.as_bytes(), 131072)?;
    let [query] = plan.queries.as_slice() else {
        return Err(Fail::from("one query"));
    };
    if query.page_blocks > 256 || plan.block_len > 65536 {
        return Err(Fail::from("long pages"));
    }
    Ok(least(query, plan.block_len))
}

#[test]
fn a_query_groups_or_joins_or_does_both(rt: HostRuntime) -> Result<(), Fail> {
    for (text, bytes) in [(GROUPS, 5120), (JOINS, 1280), (BOTH, 2621440), (FULL, 2560)] {
        assert_eq!(rt; least_of(rt.alloc(), text)?, bytes);
    }
    Ok(())
}
