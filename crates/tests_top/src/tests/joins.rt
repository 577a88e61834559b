//! Whole runs of plans whose queries join.

use crate::tests::runs::{
    Ended, File, NOWHERE, check, check_output, run_at_gate, run_over_slots, run_plan, slots, stores,
};
use outside::{MeetGate, MemSlot, Point};
use std::alloc::{AllocError, Global};
use std::process::Abort;
use std::sync::Wait;
use std::test::Fail;
use std::thread::Threads;
use std::time::Clock;

const PAIRS: &str = "\
block_len = 64
blocks = 32
writers = 1
[[query]]
page_blocks = 1
limit = 2048
quota = 700
output = \"out.csv\"
on = [[\"k\", \"k\"]]
[query.left]
file = \"l.csv\"
columns = [\"k:int\", \"x:text\"]
[query.right]
file = \"r.csv\"
columns = [\"k:int\", \"y:text\"]
";

const HEADER: &str = "left.k,left.x,right.k,right.y\n";

const LEFT: &[u8] = b"k,x\n1,a\n2,b\n1,c\n";

const RIGHT: &[u8] = b"k,y\n1,p\n3,q\n1,p\n";

// Only the left rows from b on, and only the right rows of p.
const FROM_B: (&str, &str) = (
    "\"x:text\"]",
    "\"x:text\"]\nfilter = [{column = \"x\", op = \">=\", value = \"b\"}]",
);

const OF_P: (&str, &str) = (
    "\"y:text\"]",
    "\"y:text\"]\nfilter = [{column = \"y\", op = \"=\", value = \"p\"}]",
);

// How often a line of eight bytes stands in an answer, behind the names.
fn count(answer: &[u8], line: &str) -> usize {
    let lines = answer.get(HEADER.len()..).unwrap_or(b"");
    let mut times = 0usize;
    for piece in lines.chunks(8) {
        if piece == line.as_bytes() {
            times = times.saturating_add(1);
        }
    }
    times
}

// Lines of an answer, and how often each stands there.
type Lines<'a> = &'a [(&'a str, usize)];

// Runs the pairs over these files, where the plan has these texts written anew, and sees that the answer has these lines, in any
// order, and no others.
fn check_pairs<R: Abort + AllocGlobal + Wait + Threads + Clock + Sync>(
    rt: &R,
    edits: &[(&str, &str)],
    files: &[File],
    header: &str,
    report: &str,
    lines: Lines,
) -> Result<(), Fail> {
    let ended = run_plan(rt, PAIRS, edits, files, NOWHERE)?;
    check(rt, &ended, 0, report.as_bytes());
    check_lines(
        rt,
        ended.outputs.bytes("out.csv").unwrap_or(b""),
        header,
        lines,
    );
    Ok(())
}

// Sees that an answer has this header, these lines, and no others.
fn check_lines(rt: &impl Abort, answer: &[u8], header: &str, lines: Lines) {
    assert!(rt; answer.starts_with(header.as_bytes()));
    let mut len = header.len();
    for (line, times) in lines {
        assert_eq!(rt; count(answer, line), *times, "{line}");
        len = len.saturating_add(times.saturating_mul(8));
    }
    assert_eq!(rt; answer.len(), len);
}

#[test]
fn pairs_of_equal_keys_are_written_each_as_often(rt: HostRuntime) -> Result<(), Fail> {
    const OTHERS: &[u8] = b"z,y,k\n0,r,2\n0,s,2\n";
    const MIXED: &[u8] = b"k,y\n1,p\n2,q\n1,r\n";
    let all: Lines = &[("1,a,1,p\n", 2), ("1,c,1,p\n", 2)];
    let other: Lines = &[("2,b,2,r\n", 1), ("2,b,2,s\n", 1)];
    let rows: [(&[(&str, &str)], &[u8], &[u8], &str, Lines); 5] = [
        (&[], LEFT, RIGHT, "query 1: 0 lines 4\n", all),
        (
            &[FROM_B],
            LEFT,
            RIGHT,
            "query 1: 0 lines 2\n",
            &[("1,c,1,p\n", 2)],
        ),
        (&[], b"k,x\n", RIGHT, "query 1: 0 lines 0\n", &[]),
        (&[], LEFT, OTHERS, "query 1: 0 lines 2\n", other),
        (
            &[FROM_B, OF_P],
            LEFT,
            MIXED,
            "query 1: 0 lines 1\n",
            &[("1,c,1,p\n", 1)],
        ),
    ];
    for (edits, left, right, report, lines) in rows {
        let files: [File; 2] = [("l.csv", left, &[]), ("r.csv", right, &[])];
        check_pairs(&rt, edits, &files, HEADER, report, lines)?;
    }
    Ok(())
}

#[test]
fn both_sides_may_read_one_file(rt: HostRuntime) -> Result<(), Fail> {
    let edits = [("r.csv", "l.csv"), ("y:text", "x:text"), FROM_B];
    let files: [File; 1] = [("l.csv", LEFT, &[])];
    let header = "left.k,left.x,right.k,right.x\n";
    let lines: Lines = &[("1,c,1,c\n", 1), ("2,b,2,b\n", 1)];
    check_pairs(&rt, &edits, &files, header, "query 1: 0 lines 2\n", lines)
}

#[test]
fn a_side_that_is_at_fault_is_named(rt: HostRuntime) -> Result<(), Fail> {
    // Both inputs are opened before one is read, and of two that are refused the left one counts.
    const L: File = ("l.csv", LEFT, &[]);
    const NAMELESS_L: File = ("l.csv", b"z\n", &[]);
    const NAMELESS_R: File = ("r.csv", b"z\n", &[]);
    const BROKEN_R: File = ("r.csv", RIGHT, &[1]);
    const TEXT_R: File = ("r.csv", b"k,y\n1,p\nx,p\n", &[]);
    let rows: [(&[File], u8, &[u8]); 5] = [
        (&[], 3, b"query 1: 3 input left\n"),
        (&[NAMELESS_L], 3, b"query 1: 3 input right\n"),
        (&[L, BROKEN_R], 3, b"query 1: 3 input right\n"),
        (&[L, TEXT_R], 4, b"query 1: 4 field right 2 k\n"),
        (&[NAMELESS_L, NAMELESS_R], 4, b"query 1: 4 header left\n"),
    ];
    for (files, status, report) in rows {
        let ended = run_plan(&rt, PAIRS, &[], files, NOWHERE)?;
        check(&rt, &ended, status, report);
        check_output(&rt, &ended, "out.csv", Some(b""), false);
    }
    Ok(())
}

// A header, and 300 records of one key, the other field from 0 on.
fn one_key(alloc: Global, header: &[u8]) -> Result<Vec<u8>, AllocError> {
    let mut file = Vec::from_slice(alloc, header)?;
    for number in 0..300u32 {
        file.extend_from_slice(b"5,")?;
        file.extend_from_slice(number.to_string(alloc)?.as_bytes())?;
        file.extend_from_slice(b"\n")?;
    }
    Ok(file)
}

// How often each line `5,I,5,J` stands in an answer, at the place I * 300 + J.
fn tally(alloc: Global, answer: &[u8]) -> Result<Vec<u32>, AllocError> {
    let mut times = vec![in alloc; 0u32; 90000]?;
    let mut fields = [0usize; 4];
    let mut at = 0usize;
    for byte in answer.get(HEADER.len()..).unwrap_or(b"") {
        if *byte == b',' {
            at = at.saturating_add(1);
        } else if *byte == b'\n' {
            let place = fields[1].wrapping_mul(300).wrapping_add(fields[3]);
            if let Some(count) = times.as_mut_slice().get_mut(place) {
                *count = count.saturating_add(1);
            }
            fields = [0; 4];
            at = 0;
        } else if let Some(field) = fields.get_mut(at) {
            *field = field
                .wrapping_mul(10)
                .wrapping_add(usize::from(byte.wrapping_sub(b'0')));
        }
    }
    Ok(times)
}

// Joins two files of one key, whose fields behind it are numbers, over these slots.
fn joined<R: Abort + AllocGlobal + Wait + Threads + Clock + Sync>(
    rt: &R,
    slots: &mut Vec<MemSlot>,
) -> Result<Ended, Fail> {
    let left = one_key(rt.alloc(), b"k,x\n")?;
    let right = one_key(rt.alloc(), b"k,y\n")?;
    let files: [File; 2] = [
        ("l.csv", left.as_slice(), &[]),
        ("r.csv", right.as_slice(), &[]),
    ];
    let edits = [
        ("blocks = 32", "blocks = 64"),
        ("x:text", "x:int"),
        ("y:text", "y:int"),
        ("2048", "1280"),
        ("700", "975"),
    ];
    run_over_slots(rt, PAIRS, &edits, &files, NOWHERE, slots)
}

#[test]
fn a_key_that_fits_no_table_is_joined_too(rt: HostRuntime) -> Result<(), Fail> {
    let mut slots = slots(rt.alloc(), 975)?;
    let ended = joined(&rt, &mut slots)?;
    check(&rt, &ended, 0, b"query 1: 0 lines 90000\n");
    let answer = ended.outputs.bytes("out.csv").unwrap_or(b"");
    let times = tally(rt.alloc(), answer)?;
    assert!(rt; times.as_slice().iter().all(|count| *count == 1));
    // Its 600 rows of 20 bytes don't fit in 1280 bytes, and a block has 64.
    assert!(rt; stores(slots.as_slice()) >= 168);
    Ok(())
}

#[test]
fn a_query_reads_on_while_a_writer_is_held(rt: HostRuntime) -> Result<(), Fail> {
    // The writer stands before it stores a page of the query until the query has read its inputs.
    let held = (1000, Point::BeforeStore);
    let until = (0, Point::QueryRead);
    let Ok(gate) = MeetGate::new(held, until, 10_000_000) else {
        panic!(rt; "a gate takes no memory");
    };
    let mut slots = slots(rt.alloc(), 700)?;
    let files: [File; 2] = [
        (
            "l.csv",
            b"k,x\n1,a\n1,a\n1,a\n1,a\n1,a\n1,a\n1,a\n1,a\n1,a\n1,a\n",
            &[],
        ),
        ("r.csv", b"k,y\n1,p\n", &[]),
    ];
    let ended = run_at_gate(&rt, &gate, PAIRS, &[], &files, NOWHERE, &mut slots)?;
    assert!(rt; gate.came());
    assert!(rt; !gate.missed());
    check(&rt, &ended, 0, b"query 1: 0 lines 10\n");
    Ok(())
}
