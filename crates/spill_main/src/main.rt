//! The program `spill`: the words of its command line go to the top call, with files as inputs and
//! outputs, a scratch file for its slots, and standard output as the report.
//!
//! Only `help` and `--version` are answered here. Every command goes to the top call, which answers
//! the status. The crate `host` has what is handed to it, and the words for people.
#![tactic(auto)]

use host::{FileInputs, FileOutputs, InUse, Report, SLOTS, Scratch, about, advise, tell_output};
use outside::OpenGate;
use spill_top::spill_top;
use std::alloc::AllocError;
use std::fs::File;
use std::io::{IsTerminal, Write};
use std::process::ExitCode;
use std::rt::{Env, Files};
use std::{env, io};

// The status where standard output failed under a text of the program's own.
const OUTPUT_FAULT: u8 = 9;

// The status where there was no memory for the words.
const NO_MEMORY: u8 = 10;

// The runtime itself, and not a bound on it, stands behind what the top call sends to threads.
fn main(rt: HostRuntime) -> ExitCode {
    let shows_progress = rt.stderr().is_terminal();
    let Ok(words) = words(&rt) else {
        return ExitCode::from(NO_MEMORY);
    };
    let words = words.as_slice();
    if let Some(text) = about(words) {
        return ExitCode::from(status_of(&rt, rt.print(text)));
    }
    let scratch = Scratch::new(&rt);
    let Ok(mut slots) = scratch.slots(rt.alloc(), SLOTS) else {
        return ExitCode::from(NO_MEMORY);
    };
    let in_use = InUse::new(rt.alloc());
    let mut report = Report::new(rt.alloc(), io::writer(&rt));
    let status = spill_top(
        &rt,
        rt.alloc(),
        words,
        &mut FileInputs::new(&rt, &in_use, shows_progress, plan_in(words)),
        &mut FileOutputs::new(&rt, &in_use, shows_progress),
        &mut report,
        &mut slots,
        &OpenGate,
    );
    tell(&rt, status, words, &report);
    ExitCode::from(status)
}

fn status_of(rt: &impl Eprint, printed: io::Result<()>) -> u8 {
    match printed {
        Ok(()) => 0,
        Err(why) => {
            let _ = tell_output(rt, &why);
            OUTPUT_FAULT
        }
    }
}

// The plan of these words. The command `run` alone has one operand.
fn plan_in(words: &[String]) -> Option<&str> {
    match words {
        [_, plan] => Some(plan.as_str()),
        _ => None,
    }
}

// Tells a person how a command ended. Who can't be told loses nothing: the status stands.
fn tell<R: Files<File = File> + Eprint + AllocGlobal, W: Write>(
    rt: &R,
    status: u8,
    words: &[String],
    report: &Report<W>,
) {
    let _ = advise(rt, rt, status, words, report.text());
    if let Some(why) = report.failed() {
        let _ = tell_output(rt, why);
    }
}

// The words behind the program's name. Where one of them is no text, a person is told, and there are
// none: that is no command either.
fn words<R: Env + Eprint + AllocGlobal>(rt: &R) -> Result<Vec<String>, AllocError> {
    let mut words = Vec::new(rt.alloc());
    match env::args(rt) {
        Ok(args) => {
            for word in args.skip(1) {
                words.push(word)?;
            }
        }
        Err(e) if e.kind() == io::ErrorKind::OutOfMemory => return Err(AllocError),
        Err(_) => {
            let _ = eprintln!(rt;
                "spill: an argument is not valid UTF-8: rename the file, or read it from /dev/stdin"
            );
        }
    }
    Ok(words)
}
