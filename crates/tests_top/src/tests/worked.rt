//! Worked rows of one plan: sums beyond 64 bits, an input that is cut after each of its bytes, calls for the output that fail, and a
//! quota that is too small; and one check of many rows.

use crate::tests::checks::checked;
use crate::tests::plans::{CREATE, DONE, SUMS, WRITE};
use crate::tests::runs::{Fails, NOWHERE, check, check_output, run_plan};
use std::alloc::{AllocError, Global};
use std::process::Abort;
use std::sync::Wait;
use std::test::Fail;
use std::thread::Threads;
use std::time::Clock;

// An input, the calls that fail, and the status, the report and the output that come of them. An output is whole where the status
// is 0.
#[derive(Clone, Copy)]
struct Row<'a> {
    shows: &'a str,
    input: &'a [u8],
    fails: Fails,
    status: u8,
    report: &'a [u8],
    output: Option<&'a [u8]>,
}

// Two times the greatest number that a field may be.
const GREATEST: &[u8] = b"k,v\na,9223372036854775807\na,9223372036854775807\n";

const DOUBLED: &[u8] = b"k,count,sum(v)\na,2,18446744073709551614\n";

// An answer without a line.
const NAMES: &[u8] = b"k,count,sum(v)\n";

const ONE_LINE: &[u8] = b"k,count,sum(v)\na,1,1\n";

const TWO_LINES: &[u8] = b"k,count,sum(v)\nb,1,2\na,1,1\n";

const ROWS: [Row; 19] = [
    Row {
        shows: "a sum beyond a word of 64 bits",
        input: GREATEST,
        fails: NOWHERE,
        status: 0,
        report: b"query 1: 0 lines 1\n",
        output: Some(DOUBLED),
    },
    Row {
        shows: "a field beyond a word of 64 bits",
        input: b"k,v\na,9223372036854775807\na,9223372036854775808\n",
        fails: NOWHERE,
        status: 4,
        report: b"query 1: 4 field left 2 v\n",
        output: Some(b""),
    },
    Row {
        shows: "an empty field after the greatest",
        input: b"k,v\na,9223372036854775807\na,\n",
        fails: NOWHERE,
        status: 4,
        report: b"query 1: 4 field left 2 v\n",
        output: Some(b""),
    },
    Row {
        shows: "an output that is not created",
        input: GREATEST,
        fails: CREATE,
        status: 9,
        report: b"query 1: 9 output\n",
        output: None,
    },
    Row {
        shows: "an output whose first write fails",
        input: GREATEST,
        fails: WRITE,
        status: 9,
        report: b"query 1: 9 output\n",
        output: Some(b""),
    },
    Row {
        shows: "an output that is not said to be whole",
        input: GREATEST,
        fails: DONE,
        status: 9,
        report: b"query 1: 9 output\n",
        output: Some(DOUBLED),
    },
    Row {
        shows: "no byte",
        input: b"",
        fails: NOWHERE,
        status: 4,
        report: b"query 1: 4 header left\n",
        output: Some(b""),
    },
    Row {
        shows: "one of two names",
        input: b"k",
        fails: NOWHERE,
        status: 4,
        report: b"query 1: 4 header left\n",
        output: Some(b""),
    },
    Row {
        shows: "an empty second name",
        input: b"k,",
        fails: NOWHERE,
        status: 4,
        report: b"query 1: 4 header left\n",
        output: Some(b""),
    },
    Row {
        shows: "a header without its newline",
        input: b"k,v",
        fails: NOWHERE,
        status: 0,
        report: b"query 1: 0 lines 0\n",
        output: Some(NAMES),
    },
    Row {
        shows: "a header alone",
        input: b"k,v\n",
        fails: NOWHERE,
        status: 0,
        report: b"query 1: 0 lines 0\n",
        output: Some(NAMES),
    },
    Row {
        shows: "a first record of one field",
        input: b"k,v\na",
        fails: NOWHERE,
        status: 4,
        report: b"query 1: 4 csv left 1\n",
        output: Some(b""),
    },
    Row {
        shows: "a first record whose number is empty",
        input: b"k,v\na,",
        fails: NOWHERE,
        status: 4,
        report: b"query 1: 4 field left 1 v\n",
        output: Some(b""),
    },
    Row {
        shows: "a first record without its newline",
        input: b"k,v\na,1",
        fails: NOWHERE,
        status: 0,
        report: b"query 1: 0 lines 1\n",
        output: Some(ONE_LINE),
    },
    Row {
        shows: "one record",
        input: b"k,v\na,1\n",
        fails: NOWHERE,
        status: 0,
        report: b"query 1: 0 lines 1\n",
        output: Some(ONE_LINE),
    },
    Row {
        shows: "a second record of one field",
        input: b"k,v\na,1\nb",
        fails: NOWHERE,
        status: 4,
        report: b"query 1: 4 csv left 2\n",
        output: Some(b""),
    },
    Row {
        shows: "a second record whose number is empty",
        input: b"k,v\na,1\nb,",
        fails: NOWHERE,
        status: 4,
        report: b"query 1: 4 field left 2 v\n",
        output: Some(b""),
    },
    Row {
        shows: "a second record without its newline",
        input: b"k,v\na,1\nb,2",
        fails: NOWHERE,
        status: 0,
        report: b"query 1: 0 lines 2\n",
        output: Some(TWO_LINES),
    },
    Row {
        shows: "two records",
        input: b"k,v\na,1\nb,2\n",
        fails: NOWHERE,
        status: 0,
        report: b"query 1: 0 lines 2\n",
        output: Some(TWO_LINES),
    },
];

// Runs the sums over the input of a row, where the plan has these texts written anew, and sees what becomes of it.
fn check_row<R: Abort + AllocGlobal + Wait + Threads + Clock + Sync>(
    rt: &R,
    edits: &[(&str, &str)],
    row: Row,
) -> Result<(), Fail> {
    let ended = run_plan(rt, SUMS, edits, &[("in.csv", row.input, &[])], row.fails)?;
    let shows = row.shows;
    assert_eq!(rt; ended.report.bytes(), row.report, "{shows}");
    assert_eq!(rt; ended.status, row.status, "{shows}");
    check_output(rt, &ended, "out.csv", row.output, row.status == 0);
    Ok(())
}

#[test]
fn each_row_of_a_plan_has_its_own_end(rt: HostRuntime) -> Result<(), Fail> {
    for row in ROWS {
        check_row(&rt, &[], row)?;
    }
    Ok(())
}

// A record for each of the keys `key00000` to `key00199`.
fn two_hundred(alloc: Global) -> Result<Vec<u8>, AllocError> {
    let mut text = Vec::from_slice(alloc, b"k,v\n")?;
    for number in 0..200u8 {
        let digit = |unit: u8| b'0' + number / unit % 10;
        text.extend_from_slice(b"key00")?;
        text.extend_from_slice(&[digit(100), digit(10), digit(1)])?;
        text.extend_from_slice(b",1\n")?;
    }
    Ok(text)
}

#[test]
fn groups_that_fit_neither_memory_nor_quota(rt: HostRuntime) -> Result<(), Fail> {
    let input = two_hundred(rt.alloc())?;
    let edits = [
        ("blocks = 64", "blocks = 20"),
        ("limit = 16384", "limit = 5120"),
        ("quota = 700", "quota = 1"),
    ];
    let row = Row {
        shows: "a quota of one slot",
        input: input.as_slice(),
        fails: NOWHERE,
        status: 7,
        report: b"query 1: 7 scratch 1 0\n",
        output: Some(b""),
    };
    check_row(&rt, &edits, row)
}

#[test]
fn a_hundred_thousand_rows_are_one_group(rt: HostRuntime) -> Result<(), Fail> {
    let words = ["selfcheck", "0", "100000", "1", "20"];
    let ended = checked(&rt, 1870, &words, &[])?;
    let report = b"rows 100000 groups 1 counted 100000 total 4999950000\n";
    check(&rt, &ended, 0, report);
    let answer = b"k,count,sum(v)\n0,100000,4999950000\n";
    check_output(&rt, &ended, "selfcheck.csv", Some(answer), true);
    Ok(())
}
