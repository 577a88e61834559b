//! The top call over files and slots in memory.

use outside::{Gate, MemInputs, MemOutputs, MemSink, MemSlot, OpenGate};
use spill_top::spill_top;
use std::alloc::{AllocError, Global};
use std::process::Abort;
use std::sync::Wait;
use std::test::Fail;
use std::thread::Threads;
use std::time::Clock;

// A file that is there: its name, its bytes, which come in chunks of 5, and the reads that fail.
pub(crate) type File<'a> = (&'a str, &'a [u8], &'a [u64]);

// Where calls for `out.csv` and writes of the report fail.
#[derive(Clone, Copy)]
pub(crate) struct Fails {
    pub(crate) writes: &'static [u64],
    pub(crate) create: bool,
    pub(crate) done: bool,
    pub(crate) report: &'static [u64],
}

pub(crate) const NOWHERE: Fails = Fails {
    writes: &[],
    create: false,
    done: false,
    report: &[],
};

// What stands behind a call.
#[derive(Drop)]
pub(crate) struct Ended {
    pub(crate) status: u8,
    pub(crate) report: MemSink,
    pub(crate) outputs: MemOutputs,
}

fn owned(alloc: Global, words: &[&str]) -> Result<Vec<String>, AllocError> {
    let mut all = Vec::new(alloc);
    for word in words {
        all.push(String::from_str(alloc, word)?)?;
    }
    Ok(all)
}

// Makes the top call, which keeps as many slots as there were.
pub(crate) fn call<R: Abort + AllocGlobal + Wait + Threads + Clock + Sync>(
    rt: &R,
    words: &[&str],
    inputs: &mut MemInputs,
    outputs: MemOutputs,
    report: MemSink,
    slots: &mut Vec<MemSlot>,
) -> Result<Ended, Fail> {
    call_at(rt, &OpenGate, words, inputs, outputs, report, slots)
}

// The same, with a gate that queries pass.
fn call_at<R: Abort + AllocGlobal + Wait + Threads + Clock + Sync>(
    rt: &R,
    gate: &impl Gate,
    words: &[&str],
    inputs: &mut MemInputs,
    mut outputs: MemOutputs,
    mut report: MemSink,
    slots: &mut Vec<MemSlot>,
) -> Result<Ended, Fail> {
    let words = owned(rt.alloc(), words)?;
    let count = slots.len();
    assert!(rt; count <= 2000);
    let status = spill_top(
        rt,
        rt.alloc(),
        words.as_slice(),
        inputs,
        &mut outputs,
        &mut report,
        slots,
        gate,
    );
    assert_eq!(rt; slots.len(), count);
    Ok(Ended {
        status,
        report,
        outputs,
    })
}

// So many slots, of which the one of this number fails at the stores and loads that are listed.
pub(crate) fn slots_but(
    alloc: Global,
    count: u32,
    at: u32,
    fails: &[u64],
) -> Result<Vec<MemSlot>, Fail> {
    let mut slots = Vec::new(alloc);
    for number in 0..count {
        let fails = if number == at { fails } else { &[] };
        slots.push(MemSlot::new(alloc, fails)?)?;
    }
    Ok(slots)
}

pub(crate) fn slots(alloc: Global, count: u32) -> Result<Vec<MemSlot>, Fail> {
    slots_but(alloc, count, 0, &[])
}

pub(crate) fn stores(slots: &[MemSlot]) -> u64 {
    slots
        .iter()
        .fold(0, |sum, slot| u64::saturating_add(sum, slot.stores()))
}

// The plan, in which some texts are written anew, one after the other, and these files.
fn inputs_of(
    alloc: Global,
    text: &str,
    edits: &[(&str, &str)],
    files: &[File],
) -> Result<MemInputs, Fail> {
    let mut text = String::from_str(alloc, text)?;
    for (part, anew) in edits {
        text = text.as_str().replace(alloc, part, anew)?;
    }
    let mut inputs = MemInputs::new(alloc)?;
    inputs.put("plan.toml", text.as_bytes(), 100, &[])?;
    for (name, bytes, failing) in files {
        inputs.put(name, bytes, 5, failing)?;
    }
    Ok(inputs)
}

fn outputs_of(alloc: Global, fails: Fails) -> Result<MemOutputs, Fail> {
    let mut outputs = MemOutputs::new(alloc)?;
    outputs.fail("out.csv", fails.writes)?;
    outputs.refuse("out.csv", fails.create, fails.done)?;
    Ok(outputs)
}

// Runs such a plan over these slots.
pub(crate) fn run_over_slots<R: Abort + AllocGlobal + Wait + Threads + Clock + Sync>(
    rt: &R,
    text: &str,
    edits: &[(&str, &str)],
    files: &[File],
    fails: Fails,
    slots: &mut Vec<MemSlot>,
) -> Result<Ended, Fail> {
    run_at_gate(rt, &OpenGate, text, edits, files, fails, slots)
}

// The same, with a gate that its queries pass.
pub(crate) fn run_at_gate<R: Abort + AllocGlobal + Wait + Threads + Clock + Sync>(
    rt: &R,
    gate: &impl Gate,
    text: &str,
    edits: &[(&str, &str)],
    files: &[File],
    fails: Fails,
    slots: &mut Vec<MemSlot>,
) -> Result<Ended, Fail> {
    let mut inputs = inputs_of(rt.alloc(), text, edits, files)?;
    let outputs = outputs_of(rt.alloc(), fails)?;
    let report = MemSink::new(rt.alloc(), 7, fails.report)?;
    let words = ["run", "plan.toml"];
    call_at(rt, gate, &words, &mut inputs, outputs, report, slots)
}

// The same over 2000 slots that never fail.
pub(crate) fn run_plan<R: Abort + AllocGlobal + Wait + Threads + Clock + Sync>(
    rt: &R,
    text: &str,
    edits: &[(&str, &str)],
    files: &[File],
    fails: Fails,
) -> Result<Ended, Fail> {
    let mut slots = slots(rt.alloc(), 2000)?;
    run_over_slots(rt, text, edits, files, fails, &mut slots)
}

// Sees how a call ended: its status and its report.
pub(crate) fn check(rt: &impl Abort, ended: &Ended, status: u8, report: &[u8]) {
    assert_eq!(rt; ended.report.bytes(), report);
    assert_eq!(rt; ended.status, status, "{report:?}");
}

// Sees what an output holds, if it was created, and whether that is said to be whole.
pub(crate) fn check_output(
    rt: &impl Abort,
    ended: &Ended,
    name: &str,
    bytes: Option<&[u8]>,
    whole: bool,
) {
    assert_eq!(rt; ended.outputs.bytes(name), bytes, "{name}");
    assert_eq!(rt; ended.outputs.is_whole(name), whole, "{name}");
}
