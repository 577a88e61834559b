// Why a header was refused, as its file tells when it is read again.

use crate::again::header_of;
use crate::sentences::{Asked, Front, Input};
use crate::shown::{Shown, ShownBytes, ShownField};
use csv::ByteRecord;
use std::fmt::{Display, Formatter};
use std::rt::Files;
use std::{fmt, io};

// Of a header so many columns are named.
const MOST_NAMES: usize = 12;

// What is wrong with a header.
#[derive(Clone, Copy)]
enum Fault<'a> {
    Nothing,
    Lacks(&'a [u8]),
    Repeats(&'a [u8], usize),
}

pub(crate) fn tell_header<F: Files + AllocGlobal>(
    rt: &impl Eprint,
    files: &F,
    front: Front<'_>,
    input: Option<Input<'_>>,
) -> io::Result<()> {
    match input {
        Some(Input { file, asked }) => match header_of(files, file) {
            Some(header) => tell_fault(rt, front, Shown(file), asked, &header),
            None => tell_rule(rt, front, Shown(file)),
        },
        None => tell_rule(rt, front, Shown("an input")),
    }
}

fn tell_rule(rt: &impl Eprint, front: Front<'_>, file: Shown<'_>) -> io::Result<()> {
    eprintln!(rt;
        "{front}the header of {file}, split at commas, must have each column that is asked for exactly once"
    )
}

// Where the file has changed since, nothing may be wrong with it any more.
fn tell_fault(
    rt: &impl Eprint,
    front: Front<'_>,
    file: Shown<'_>,
    asked: Asked<'_>,
    header: &ByteRecord,
) -> io::Result<()> {
    match fault_of(header, asked) {
        Some(Fault::Nothing) => eprintln!(rt;
            "{front}{file} has no header: it is empty, or has only blank lines"
        ),
        Some(Fault::Lacks(column)) => eprintln!(rt;
            "{front}{file} has no column \"{}\": its header{}",
            ShownBytes(column),
            Names(header)
        ),
        Some(Fault::Repeats(column, 2)) => eprintln!(rt;
            "{front}{file} has the column \"{}\" twice: rename one of the two",
            ShownBytes(column)
        ),
        Some(Fault::Repeats(column, times)) => eprintln!(rt;
            "{front}{file} has the column \"{}\" {times} times: rename all but one of them",
            ShownBytes(column)
        ),
        None => tell_rule(rt, front, file),
    }
}

// The first column that the header doesn't have exactly once.
fn fault_of<'a>(header: &ByteRecord, asked: Asked<'a>) -> Option<Fault<'a>> {
    if header.is_empty() {
        return Some(Fault::Nothing);
    }
    match asked {
        Asked::One(name) => fault_in(header, name.as_bytes()),
        Asked::All(columns) => {
            for column in columns {
                if let Some(fault) = fault_in(header, column.name.as_slice()) {
                    return Some(fault);
                }
            }
            None
        }
    }
}

fn fault_in<'a>(header: &ByteRecord, name: &'a [u8]) -> Option<Fault<'a>> {
    match header.iter().filter(|field| *field == name).count() {
        0 => Some(Fault::Lacks(name)),
        1 => None,
        times => Some(Fault::Repeats(name, times)),
    }
}

// What columns a header has.
#[derive(Clone, Copy)]
struct Names<'a>(&'a ByteRecord);

impl Display for Names<'_> {
    fn fmt<W: fmt::Write>(&self, f: &mut Formatter<W>) -> fmt::Result {
        // A header that is split by another character is easily seen so.
        f.write_str(if self.0.len() == 1 {
            ", split at commas, has only "
        } else {
            " has "
        })?;
        for (at, name) in self.0.iter().enumerate().take(MOST_NAMES) {
            if at > 0 {
                f.write_str(", ")?;
            }
            if is_plain(name) {
                write!(f, "{}", ShownField(name))?;
            } else {
                write!(f, "\"{}\"", ShownField(name))?;
            }
        }
        match self.0.len().saturating_sub(MOST_NAMES) {
            0 => Ok(()),
            more => write!(f, " and {more} more"),
        }
    }
}

// Whether it is seen where a name begins and ends.
fn is_plain(name: &[u8]) -> bool {
    match name {
        [] | [b' ', ..] | [.., b' '] => false,
        _ => !name.contains(&b','),
    }
}
