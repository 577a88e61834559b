//! Checks of the program over generated rows.

use crate::tests::runs::{Ended, call, check, check_output, slots};
use outside::{MemInputs, MemOutputs, MemSink};
use std::process::Abort;
use std::sync::Wait;
use std::test::Fail;
use std::thread::Threads;
use std::time::Clock;

// The answer of ten rows from 3 on in five groups, in the order of their paths.
const ANSWER: &[u8] = b"k,count,sum(v)\n4,2,11\n2,2,9\n3,2,5\n0,2,7\n1,2,13\n";

// What stands behind a check with so many slots whose output fails at these writes.
pub(crate) fn checked<R: Abort + AllocGlobal + Wait + Threads + Clock + Sync>(
    rt: &R,
    count: u32,
    words: &[&str],
    writes: &[u64],
) -> Result<Ended, Fail> {
    let mut outputs = MemOutputs::new(rt.alloc())?;
    outputs.fail("selfcheck.csv", writes)?;
    let report = MemSink::new(rt.alloc(), 7, &[])?;
    let mut inputs = MemInputs::new(rt.alloc())?;
    let mut slots = slots(rt.alloc(), count)?;
    call(rt, words, &mut inputs, outputs, report, &mut slots)
}

#[test]
fn a_check_tells_the_numbers_of_its_answer(rt: HostRuntime) -> Result<(), Fail> {
    let rows: [(&str, &str, &[u64], u8, &[u8], Option<&[u8]>); 4] = [
        (
            "10",
            "19",
            &[],
            6,
            b"6 reservation query 163840 155648\n",
            None,
        ),
        (
            "0",
            "20",
            &[],
            0,
            b"rows 0 groups 0 counted 0 total 0\n",
            Some(b"k,count,sum(v)\n"),
        ),
        (
            "10",
            "20",
            &[],
            0,
            b"rows 10 groups 5 counted 10 total 45\n",
            Some(ANSWER),
        ),
        ("10", "20", &[0], 9, b"9 output\n", Some(b"")),
    ];
    for (count, blocks, writes, status, report, output) in rows {
        let ended = checked(&rt, 64, &["selfcheck", "3", count, "5", blocks], writes)?;
        check(&rt, &ended, status, report);
        check_output(&rt, &ended, "selfcheck.csv", output, status == 0);
    }
    Ok(())
}
