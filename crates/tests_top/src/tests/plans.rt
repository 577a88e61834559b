//! Whole runs of plans whose queries group.

use crate::tests::runs::{Fails, File, NOWHERE, check, check_output, run_plan};
use std::process::Abort;
use std::sync::Wait;
use std::test::Fail;
use std::thread::Threads;
use std::time::Clock;

// One query that counts the rows of each key and sums a column.
pub(crate) const SUMS: &str = "\
block_len = 256
blocks = 64
writers = 0
[[query]]
page_blocks = 1
limit = 16384
quota = 700
output = \"out.csv\"
group = [\"k\"]
agg = [{op = \"count\"}, {op = \"sum\", column = \"v\"}]
[query.left]
file = \"in.csv\"
columns = [\"k:text\", \"v:int\"]
";

// Two queries over one file, whose least reservations don't fit the memory together.
const TWO: &str = "\
block_len = 64
blocks = 32
writers = 1
[[query]]
page_blocks = 1
limit = 2048
quota = 700
output = \"one.csv\"
group = [\"k\"]
agg = [{op = \"count\"}]
left = {file = \"in.csv\", columns = [\"k:text\"]}
[[query]]
page_blocks = 1
limit = 2048
quota = 700
output = \"two.csv\"
group = [\"k\"]
agg = [{op = \"count\"}]
left = {file = \"in.csv\", columns = [\"k:text\"]}
";

const ONE: File = ("in.csv", b"k,v\na,1\n", &[]);

const THREE: File = ("in.csv", b"v,z,k\n+7,q,a\n-9,q,a\n007,q,b\n", &[]);

const TOO_GREAT: File = ("in.csv", b"k,v\na,1\na,9223372036854775808\n", &[]);

const EMPTY: File = ("in.csv", b"k,v\na,1\na,\n", &[]);

const NAMELESS: File = ("in.csv", b"z\n", &[]);

const BROKEN: File = ("in.csv", b"k,v\na,1\n", &[1]);

// Only the rows below 5; and the least and the greatest in place of the sums.
const SMALL: (&str, &str) = (
    "\"v:int\"]",
    "\"v:int\"]\nfilter = [{column = \"v\", op = \"<\", value = 5}]",
);

const ENDS: (&str, &str) = (
    "{op = \"count\"}, {op = \"sum\", column = \"v\"}",
    "{op = \"min\", column = \"v\"}, {op = \"max\", column = \"v\"}",
);

// Runs the sums over these files, where the plan has these texts written anew, and sees what becomes of it.
fn check_sums<R: Abort + AllocGlobal + Wait + Threads + Clock + Sync>(
    rt: &R,
    edits: &[(&str, &str)],
    files: &[File],
    status: u8,
    report: &str,
    output: Option<&str>,
) -> Result<(), Fail> {
    let ended = run_plan(rt, SUMS, edits, files, NOWHERE)?;
    check(rt, &ended, status, report.as_bytes());
    let output = output.map(|text| text.as_bytes());
    check_output(rt, &ended, "out.csv", output, status == 0);
    Ok(())
}

#[test]
fn a_query_ends_with_its_answer(rt: HostRuntime) -> Result<(), Fail> {
    let rows: [(&[(&str, &str)], &[File], &str, &str); 3] = [
        (
            &[],
            &[THREE],
            "query 1: 0 lines 2\n",
            "k,count,sum(v)\nb,1,7\na,2,-2\n",
        ),
        (
            &[SMALL],
            &[THREE],
            "query 1: 0 lines 1\n",
            "k,count,sum(v)\na,1,-9\n",
        ),
        (
            &[ENDS],
            &[THREE],
            "query 1: 0 lines 2\n",
            "k,min(v),max(v)\nb,7,7\na,-9,7\n",
        ),
    ];
    for (edits, files, report, output) in rows {
        check_sums(&rt, edits, files, 0, report, Some(output))?;
    }
    Ok(())
}

#[test]
fn an_input_is_refused_and_its_output_is_empty(rt: HostRuntime) -> Result<(), Fail> {
    let rows: [(&[File], u8, &str); 4] = [
        (&[TOO_GREAT], 4, "query 1: 4 field left 2 v\n"),
        (&[EMPTY], 4, "query 1: 4 field left 2 v\n"),
        (&[NAMELESS], 4, "query 1: 4 header left\n"),
        (&[], 3, "query 1: 3 input left\n"),
    ];
    for (files, status, report) in rows {
        check_sums(&rt, &[], files, status, report, Some(""))?;
    }
    Ok(())
}

#[test]
fn what_is_refused_before_its_inputs_has_no_output(rt: HostRuntime) -> Result<(), Fail> {
    let rows = [
        (("blocks = 64\n", ""), 2, "2 plan MissingKey blocks\n"),
        (("writers = 0", "writers = 9"), 2, "2 plan Limit writers\n"),
        (
            ("quota = 700", "quota = 2001"),
            2,
            "2 plan QuotaSum query\n",
        ),
        (("[[query]]", "x ="), 2, "2 plan Syntax\n"),
        (
            ("limit = 16384", "limit = 5119"),
            6,
            "query 1: 6 reservation query 5120 5119\n",
        ),
    ];
    for (edit, status, report) in rows {
        check_sums(&rt, &[edit], &[ONE], status, report, None)?;
    }
    Ok(())
}

// A call that fails: the first write of the output, its creation, its end, or the second write of the report.
pub(crate) const WRITE: Fails = Fails {
    writes: &[0],
    ..NOWHERE
};

pub(crate) const CREATE: Fails = Fails {
    create: true,
    ..NOWHERE
};

pub(crate) const DONE: Fails = Fails {
    done: true,
    ..NOWHERE
};

const REPORT: Fails = Fails {
    report: &[1],
    ..NOWHERE
};

#[test]
fn a_fault_is_the_cause_of_its_query(rt: HostRuntime) -> Result<(), Fail> {
    const ANSWER: &[u8] = b"k,count,sum(v)\na,1,1\n";
    let rows: [(File, Fails, u8, &str, Option<&[u8]>); 5] = [
        (BROKEN, NOWHERE, 3, "query 1: 3 input left\n", Some(b"")),
        (ONE, WRITE, 9, "query 1: 9 output\n", Some(b"")),
        (ONE, CREATE, 9, "query 1: 9 output\n", None),
        (ONE, DONE, 9, "query 1: 9 output\n", Some(ANSWER)),
        (ONE, REPORT, 9, "query 1", Some(ANSWER)),
    ];
    for (file, fails, status, report, output) in rows {
        let ended = run_plan(&rt, SUMS, &[], &[file], fails)?;
        check(&rt, &ended, status, report.as_bytes());
        let whole = !fails.report.is_empty();
        check_output(&rt, &ended, "out.csv", output, whole);
    }
    Ok(())
}

#[test]
fn a_query_whose_reservation_is_refused_has_no_output(rt: HostRuntime) -> Result<(), Fail> {
    const FILE: File = ("in.csv", b"k\na\nb\na\nd\nc\n", &[]);
    let ended = run_plan(&rt, TWO, &[], &[FILE], NOWHERE)?;
    let report = b"query 1: 0 lines 4\nquery 2: 6 reservation root 1280 768\n";
    check(&rt, &ended, 6, report);
    let one = b"k,count\nb,1\nd,1\nc,1\na,2\n";
    check_output(&rt, &ended, "one.csv", Some(one), true);
    check_output(&rt, &ended, "two.csv", None, false);
    Ok(())
}
