//! Runs of plans over pools that are too small for their groups, and over slots that fail or are too few.

use crate::tests::runs::{
    Ended, File, NOWHERE, check, check_output, run_at_gate, run_over_slots, slots, slots_but,
    stores,
};
use outside::{MeetGate, MemSlot, Point};
use std::alloc::{AllocError, Global};
use std::process::Abort;
use std::sync::Wait;
use std::test::Fail;
use std::thread::Threads;
use std::time::Clock;

// A query whose pool has the memory for twenty of its pages.
const ONE: &str = "\
block_len = 64
blocks = 20
writers = 0
[[query]]
page_blocks = 1
limit = 5120
quota = 400
output = \"out.csv\"
group = [\"k\"]
agg = [{op = \"count\"}, {op = \"sum\", column = \"v\"}]
left = {file = \"in.csv\", columns = [\"k:text\", \"v:int\"]}
";

// A second one over the same file, and the memory for both.
const TWO: [(&str, &str); 2] = [
    ("blocks = 20", "blocks = 40"),
    (
        "\"v:int\"]}\n",
        "\"v:int\"]}
[[query]]
page_blocks = 1
limit = 5120
quota = 400
output = \"two.csv\"
group = [\"k\"]
agg = [{op = \"count\"}]
left = {file = \"in.csv\", columns = [\"k:text\"]}
",
    ),
];

// The numbers of the keys `key000` to `key199`, in the order of their paths.
const ORDER: [u8; 200] = [
    82, 129, 165, 103, 110, 37, 95, 51, 198, 136, 172, 68, 24, 70, 144, 157, 193, 179, 16, 1, 63,
    89, 180, 122, 45, 108, 22, 84, 163, 105, 48, 116, 31, 93, 57, 149, 130, 174, 111, 36, 94, 50,
    199, 137, 173, 69, 25, 83, 128, 164, 102, 194, 11, 6, 64, 28, 187, 125, 169, 42, 77, 99, 143,
    150, 162, 104, 49, 117, 30, 92, 148, 56, 131, 175, 23, 85, 134, 170, 8, 26, 80, 189, 167, 101,
    112, 79, 35, 97, 53, 29, 186, 124, 168, 43, 76, 98, 142, 151, 195, 10, 7, 65, 147, 59, 154,
    190, 15, 2, 60, 183, 121, 46, 73, 118, 27, 81, 188, 166, 100, 113, 78, 34, 96, 52, 135, 171, 9,
    40, 75, 39, 141, 152, 196, 138, 13, 4, 66, 185, 127, 14, 3, 61, 182, 120, 47, 119, 72, 146, 58,
    155, 191, 107, 114, 33, 91, 55, 158, 132, 176, 19, 20, 86, 161, 153, 197, 139, 12, 5, 67, 184,
    126, 41, 74, 38, 140, 181, 123, 44, 109, 71, 145, 156, 192, 17, 178, 0, 62, 88, 159, 133, 177,
    18, 21, 87, 160, 106, 115, 32, 90, 54,
];

fn push_key(text: &mut Vec<u8>, number: u8) -> Result<(), AllocError> {
    let digit = |unit: u8| b'0' + number / unit % 10;
    text.extend_from_slice(&[b'k', b'e', b'y', digit(100), digit(10), digit(1)])
}

// A line for each of two hundred keys, in the order of the answer.
fn lines(alloc: Global, header: &[u8], end: &[u8]) -> Result<Vec<u8>, AllocError> {
    let mut text = Vec::from_slice(alloc, header)?;
    for number in ORDER {
        push_key(&mut text, number)?;
        text.extend_from_slice(end)?;
    }
    Ok(text)
}

// Runs it over a row for each of these keys.
fn ran<R: Abort + AllocGlobal + Wait + Threads + Clock + Sync>(
    rt: &R,
    edits: &[(&str, &str)],
    slots: &mut Vec<MemSlot>,
) -> Result<Ended, Fail> {
    let rows = lines(rt.alloc(), b"k,v\n", b",1\n")?;
    let file: File = ("in.csv", rows.as_slice(), &[]);
    run_over_slots(rt, ONE, edits, &[file], NOWHERE, slots)
}

// Sees that the output has a line for each of the keys.
fn check_lines<R: Abort + AllocGlobal + Wait + Threads + Clock + Sync>(
    rt: &R,
    ended: &Ended,
    name: &str,
    header: &[u8],
    end: &[u8],
) -> Result<(), AllocError> {
    let lines = lines(rt.alloc(), header, end)?;
    check_output(rt, ended, name, Some(lines.as_slice()), true);
    Ok(())
}

// Runs both with so many writers.
fn both_answer<R: Abort + AllocGlobal + Wait + Threads + Clock + Sync>(
    rt: &R,
    writers: (&str, &str),
) -> Result<(), Fail> {
    let mut slots = slots(rt.alloc(), 800)?;
    let edits = [TWO[0], TWO[1], writers];
    let ended = ran(rt, &edits, &mut slots)?;
    let report = b"query 1: 0 lines 200\nquery 2: 0 lines 200\n";
    check(rt, &ended, 0, report);
    check_lines(rt, &ended, "out.csv", b"k,count,sum(v)\n", b",1,1\n")?;
    check_lines(rt, &ended, "two.csv", b"k,count\n", b",1\n")?;
    Ok(())
}

#[test]
fn writers_change_no_answer(rt: HostRuntime) -> Result<(), Fail> {
    both_answer(&rt, ("writers = 0", "writers = 1"))?;
    both_answer(&rt, ("writers = 0", "writers = 8"))
}

#[test]
fn two_queries_spill_over_the_same_slots(rt: HostRuntime) -> Result<(), Fail> {
    let mut slots = slots(rt.alloc(), 800)?;
    let ended = ran(&rt, &TWO, &mut slots)?;
    check(
        &rt,
        &ended,
        0,
        b"query 1: 0 lines 200\nquery 2: 0 lines 200\n",
    );
    check_lines(&rt, &ended, "out.csv", b"k,count,sum(v)\n", b",1,1\n")?;
    check_lines(&rt, &ended, "two.csv", b"k,count\n", b",1\n")?;
    // Two groups of one query stand on a page, so each has a hundred pages, of which twenty fit its memory.
    assert!(rt; stores(slots.as_slice()) > 160);
    Ok(())
}

// Holds the first query at this point until the second one has its whole answer.
fn second_answers_first<R: Abort + AllocGlobal + Wait + Threads + Clock + Sync>(
    rt: &R,
    point: Point,
) -> Result<(), Fail> {
    let until = (1, Point::QueryWrote);
    let Ok(gate) = MeetGate::new((0, point), until, 10_000_000) else {
        panic!(rt; "a gate takes no memory");
    };
    let mut slots = slots(rt.alloc(), 2000)?;
    let rows = lines(rt.alloc(), b"k,v\n", b",1\n")?;
    let file: File = ("in.csv", rows.as_slice(), &[]);
    let ended = run_at_gate(rt, &gate, ONE, &TWO, &[file], NOWHERE, &mut slots)?;
    assert!(rt; gate.came());
    assert!(rt; !gate.missed());
    let report = b"query 1: 0 lines 200\nquery 2: 0 lines 200\n";
    check(rt, &ended, 0, report);
    check_lines(rt, &ended, "out.csv", b"k,count,sum(v)\n", b",1,1\n")?;
    check_lines(rt, &ended, "two.csv", b"k,count\n", b",1\n")?;
    Ok(())
}

#[test]
fn a_query_has_its_answer_while_another_is_held(rt: HostRuntime) -> Result<(), Fail> {
    // Where its input ends, where it stores its first page, and where it loads one again.
    second_answers_first(&rt, Point::QueryRead)?;
    second_answers_first(&rt, Point::BeforeStore)?;
    second_answers_first(&rt, Point::AfterLoad)
}

#[test]
fn a_quota_that_does_not_suffice_is_told(rt: HostRuntime) -> Result<(), Fail> {
    let mut slots = slots(rt.alloc(), 800)?;
    let ended = ran(&rt, &[("quota = 400", "quota = 1")], &mut slots)?;
    check(&rt, &ended, 7, b"query 1: 7 scratch 1 0\n");
    check_output(&rt, &ended, "out.csv", Some(b""), false);
    Ok(())
}

// Whether the run was stopped by a write, or by a read, of a slot that fails at one of its calls. If it was, the next one answers.
fn stopped<R: Abort + AllocGlobal + Wait + Threads + Clock + Sync>(
    rt: &R,
    slot: u32,
    call: u64,
) -> Result<[bool; 2], Fail> {
    let mut slots = slots_but(rt.alloc(), 800, slot, &[call])?;
    let ended = ran(rt, &[], &mut slots)?;
    let told = [
        ended.report.bytes().starts_with(b"query 1: 8 write "),
        ended.report.bytes().starts_with(b"query 1: 8 read "),
    ];
    if ended.status == 8 {
        let again = ran(rt, &[], &mut slots)?;
        check(rt, &again, 0, b"query 1: 0 lines 200\n");
    }
    Ok(told)
}

#[test]
fn a_slot_that_fails_once_is_told_and_the_next_run_answers(rt: HostRuntime) -> Result<(), Fail> {
    // The first call of a slot stores a block, and the second one loads it.
    let mut told = [false; 2];
    for slot in [40, 80, 120] {
        for call in [0, 1] {
            let [wrote, read] = stopped(&rt, slot, call)?;
            told = [told[0] | wrote, told[1] | read];
        }
    }
    assert_eq!(rt; told, [true, true]);
    Ok(())
}
