// What a person is told on standard error: sentences that say what went wrong and what to do.

use crate::mistake::tell_mistake;
use crate::plan_words::tell_no_plan;
use crate::quota::quotas;
use crate::sentences::{OUT_OF_MEMORY, Ran, tell_lines};
use query_plan::{Plan, read_plan};
use std::rt::Files;
use std::{fs, io};

// The most bytes that a plan has.
const PLAN_BYTES: u64 = 1048576;

/// Tells what a status means, for the words that led to it and what the report says.
///
/// The words are those behind the program's name. The status is that of the top call, from 0 to 10. Status 0 needs no
/// sentence; whoever gave no words is told how to call the program, and of no mistake. A file that was at fault is told
/// where the fault came. A plan and the files of a query that was refused are read once more through `files`, for names and
/// numbers; where they can't be read the sentence has none. An error is one of standard error, or out of memory.
pub fn advise<F: Files + AllocGlobal>(
    files: &F,
    rt: &impl Eprint,
    status: u8,
    words: &[String],
    report: &str,
) -> io::Result<()> {
    match (status, words) {
        (0, _) => Ok(()),
        (1, words) => tell_mistake(rt, words),
        (2, [_, plan]) => tell_no_plan(rt, plan.as_str(), report),
        (_, [_, plan]) => tell_plan(files, rt, plan.as_str(), report),
        (status, [_, file, column]) => {
            let file = file.as_str();
            let column = column.as_str();
            tell_count(files, rt, status, report, Ran::Count { file, column })
        }
        (10, _) => eprintln!(rt; "spill: {OUT_OF_MEMORY}"),
        (_, [_, _, _, _, _]) => tell_lines(rt, files, report, Ran::Check),
        (status, _) => eprintln!(rt; "spill: ended with status {status}"),
    }
}

// A count that stopped while it wrote its answer has no line, and its status alone says why.
fn tell_count<F: Files + AllocGlobal>(
    files: &F,
    rt: &impl Eprint,
    status: u8,
    report: &str,
    ran: Ran<'_>,
) -> io::Result<()> {
    let cut = "the answer is incomplete";
    match (status, is_line_of(status, report)) {
        (7, false) => eprintln!(rt;
            "spill: {cut}: there are more values than scratch holds: a plan with longer pages may do"
        ),
        (8, false) => eprintln!(rt;
            "spill: {cut}: a page could not be written to the scratch file, or read from it: see the reason above"
        ),
        (10, false) => eprintln!(rt; "spill: {cut}: {OUT_OF_MEMORY}"),
        (9, _) => Ok(()),
        _ => tell_lines(rt, files, report, ran),
    }
}

// Whether a report is the line of a refusal with this status.
fn is_line_of(status: u8, report: &str) -> bool {
    let (word, _) = report.split_once(' ').unwrap_or((report, ""));
    word.parse::<u8>().ok() == Some(status)
}

/// Tells why standard output failed. A reader that has read enough goes away, and knows it, so of a broken pipe nothing is
/// told. An error is one of standard error.
pub fn tell_output(rt: &impl Eprint, why: &io::Error) -> io::Result<()> {
    if why.kind() == io::ErrorKind::BrokenPipe {
        return Ok(());
    }
    eprintln!(rt; "spill: writing to standard output failed, so the answer is incomplete: {why}")
}

fn tell_plan<F: Files + AllocGlobal>(
    files: &F,
    rt: &impl Eprint,
    name: &str,
    report: &str,
) -> io::Result<()> {
    match &plan_of(files, name) {
        Some(plan) => {
            let quotas = quotas(files, plan)?;
            let quotas = quotas.as_slice();
            tell_lines(rt, files, report, Ran::Plan { name, plan, quotas })
        }
        None => tell_lines(rt, files, report, Ran::Unread { name }),
    }
}

// The plan once more, for the names of its files.
fn plan_of<F: Files + AllocGlobal>(files: &F, name: &str) -> Option<Plan> {
    let data = fs::metadata(files, name).ok()?;
    if !data.is_file() || data.len() > PLAN_BYTES {
        return None;
    }
    let text = fs::read_to_string(files, name).ok()?;
    read_plan(files.alloc(), text.as_str().as_bytes(), u32::MAX).ok()
}
