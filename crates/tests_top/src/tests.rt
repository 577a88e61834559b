//! Words and counts; the other tests run plans and checks.

mod checks;
mod joins;
mod plans;
mod pools;
mod runs;
mod worked;

use outside::{MemInputs, MemOutputs, MemSink};
use runs::{call, check, slots};
use std::alloc::{AllocError, Global};
use std::process::Abort;
use std::sync::Wait;
use std::test::Fail;
use std::thread::Threads;
use std::time::Clock;

// A call over the file `in.csv`, if it is there, in chunks of 5 bytes with these reads failing, a report with these writes
// failing, and so many slots.
#[derive(Clone, Copy)]
struct Call<'a> {
    words: &'a [&'a str],
    file: Option<&'a [u8]>,
    reads: &'a [u64],
    writes: &'a [u64],
    slots: u32,
}

fn count(file: &[u8]) -> Call<'_> {
    Call {
        words: &["count", "in.csv", "k"],
        file: Some(file),
        reads: &[],
        writes: &[],
        slots: 64,
    }
}

fn inputs(alloc: Global, it: Call) -> Result<MemInputs, Fail> {
    let mut inputs = MemInputs::new(alloc)?;
    if let Some(bytes) = it.file {
        inputs.put("in.csv", bytes, 5, it.reads)?;
    }
    Ok(inputs)
}

// Makes the call, and sees its status and its report.
fn check_call<R: Abort + AllocGlobal + Wait + Threads + Clock + Sync>(
    rt: &R,
    it: Call,
    status: u8,
    report: &[u8],
) -> Result<(), Fail> {
    let mut inputs = inputs(rt.alloc(), it)?;
    let outputs = MemOutputs::new(rt.alloc())?;
    let sink = MemSink::new(rt.alloc(), usize::MAX, it.writes)?;
    let mut slots = slots(rt.alloc(), it.slots)?;
    let ended = call(rt, it.words, &mut inputs, outputs, sink, &mut slots)?;
    check(rt, &ended, status, report);
    Ok(())
}

#[test]
fn a_count_answers_in_the_order_of_paths(rt: HostRuntime) -> Result<(), Fail> {
    let rows: [(&[u8], &[u8]); 4] = [
        (b"k\na\nb\na\nd\nc\n", b"k,count\nb,1\nd,1\nc,1\na,2\n"),
        (b"k\n", b"k,count\n"),
        (b"\xef\xbb\xbfz,k\r\n1,a\r\n2,a\r\n", b"k,count\na,2\n"),
        (
            b"k\n\"a,b\"\n\"q\"\"q\"\n\"x\ny\"\n\"\"\n",
            b"k,count\n\"x\ny\",1\n,1\n\"a,b\",1\n\"q\"\"q\",1\n",
        ),
    ];
    for (file, report) in rows {
        check_call(&rt, count(file), 0, report)?;
    }
    Ok(())
}

// So many bytes `x` between others.
fn long(alloc: Global, front: &[u8], len: usize, end: &[u8]) -> Result<Vec<u8>, AllocError> {
    let mut text = Vec::from_slice(alloc, front)?;
    text.resize(front.len().saturating_add(len), b'x')?;
    text.extend_from_slice(end)?;
    Ok(text)
}

#[test]
fn a_row_weighs_at_most_a_page(rt: HostRuntime) -> Result<(), Fail> {
    let answer = long(rt.alloc(), b"k,count\n", 8168, b",1\n")?;
    let rows: [(usize, u8, &[u8]); 2] = [
        (8168, 0, answer.as_slice()),
        (8169, 5, b"5 row left 1 8193\n"),
    ];
    for (len, status, report) in rows {
        let file = long(rt.alloc(), b"k\n", len, b"\n")?;
        check_call(&rt, count(&file), status, report)?;
    }
    Ok(())
}

#[test]
fn words_that_are_no_command_are_refused(rt: HostRuntime) -> Result<(), Fail> {
    let rows: [&[&str]; 12] = [
        &[],
        &["frob"],
        &["help"],
        &["run", "-h"],
        &["count", "in.csv"],
        &["count", "-x", "k"],
        &["count", "in.csv", ""],
        &["count", "in.csv", "k", "k"],
        &["selfcheck", "1", "2", "0", "4"],
        &["selfcheck", "1", "2", "3", "262145"],
        &["selfcheck", "2147483648", "2", "3", "4"],
        &["selfcheck", "01", "2", "3", "4"],
    ];
    for words in rows {
        let it = Call {
            words,
            ..count(b"k\na\n")
        };
        check_call(&rt, it, 1, b"1 words\n")?;
    }
    Ok(())
}

#[test]
fn a_refusal_says_its_cause(rt: HostRuntime) -> Result<(), Fail> {
    const SOME: &[u8] = b"k\na\nb\na\n";
    let rows: [(Option<&[u8]>, &[u64], &[u64], u32, u8, &[u8]); 8] = [
        (Some(b""), &[], &[], 64, 4, b"4 header left\n"),
        (Some(b"x\na\n"), &[], &[], 64, 4, b"4 header left\n"),
        (Some(b"k,k\na,b\n"), &[], &[], 64, 4, b"4 header left\n"),
        (Some(b"k,v\na,1\nb\n"), &[], &[], 64, 4, b"4 csv left 2\n"),
        (Some(SOME), &[1], &[], 64, 3, b"3 input left\n"),
        (None, &[], &[], 64, 3, b"3 input left\n"),
        (Some(SOME), &[], &[0], 64, 9, b""),
        (Some(SOME), &[], &[], 0, 7, b"7 scratch 1 0\n"),
    ];
    for (file, reads, writes, slots, status, report) in rows {
        let it = Call {
            file,
            reads,
            writes,
            slots,
            ..count(b"")
        };
        check_call(&rt, it, status, report)?;
    }
    Ok(())
}

#[test]
fn a_plan_that_is_not_there_is_a_fault(rt: HostRuntime) -> Result<(), Fail> {
    let it = Call {
        words: &["run", "plan.toml"],
        ..count(b"k\n")
    };
    check_call(&rt, it, 3, b"3 input plan\n")
}
