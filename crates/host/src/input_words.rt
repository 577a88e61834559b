// Why an input was refused: its header, or one of its records. Records are numbered from 0, the header.

use crate::again::{Found, record_of};
use crate::header_words::tell_header;
use crate::row_words::tell_row;
use crate::sentences::{Front, Input, Ran, Refused};
use crate::shown::{Shown, ShownField};
use csv::ByteRecord;
use std::fmt::{Display, Formatter};
use std::rt::Files;
use std::{fmt, io};

pub(crate) fn tell_input<F: Files + AllocGlobal>(
    rt: &impl Eprint,
    files: &F,
    line: &Refused<'_>,
    ran: Ran<'_>,
) -> io::Result<()> {
    let (side, behind) = line.numbers.split_once(' ').unwrap_or((line.numbers, ""));
    let (number, last) = behind.split_once(' ').unwrap_or((behind, ""));
    let front = ran.front(line.query);
    let input = ran.input(line.query, side);
    let file = match input {
        Some(input) => input.file,
        None => "an input",
    };
    let place = Place { number, file };
    match line.cause {
        "header" => tell_header(rt, files, front, input),
        "csv" => tell_width(rt, front, place, found(files, input, number).as_ref()),
        "field" => tell_field(rt, front, place, last, found(files, input, number).as_ref()),
        "row" => {
            let weight = last.parse::<u64>().unwrap_or(u64::MAX);
            tell_row(rt, front, place, weight, ran, ran.page(line.query))
        }
        _ => eprintln!(rt;
            "{front}{} is too large: it has more than 2147483648 records or 1099511627776 bytes: split it",
            Shown(file)
        ),
    }
}

// A record of a file.
#[derive(Clone, Copy)]
pub(crate) struct Place<'a> {
    number: &'a str,
    file: &'a str,
}

impl Display for Place<'_> {
    fn fmt<W: fmt::Write>(&self, f: &mut Formatter<W>) -> fmt::Result {
        write!(
            f,
            "record {} of {} (the header is 0)",
            self.number,
            Shown(self.file)
        )
    }
}

fn found<F: Files + AllocGlobal>(
    files: &F,
    input: Option<Input<'_>>,
    number: &str,
) -> Option<Found> {
    record_of(files, input?.file, number.parse::<u64>().ok()?)
}

// A file may have changed since, so the numbers are told only where they differ.
fn tell_width(
    rt: &impl Eprint,
    front: Front<'_>,
    place: Place<'_>,
    found: Option<&Found>,
) -> io::Result<()> {
    let (has, header) = match found {
        Some(found) => (found.record.len(), found.header.len()),
        None => (0, 0),
    };
    if has == header {
        return eprintln!(rt; "{front}{place} must have as many fields as the header");
    }
    let advice = match has > header {
        true => "a value with a comma needs quotes around it",
        false => "each record needs as many",
    };
    eprintln!(rt;
        "{front}{place} has {}, and the header has {header}: {advice}",
        Fields(has)
    )
}

// So many fields.
#[derive(Clone, Copy)]
struct Fields(usize);

impl Display for Fields {
    fn fmt<W: fmt::Write>(&self, f: &mut Formatter<W>) -> fmt::Result {
        match self.0 {
            1 => f.write_str("1 field"),
            count => write!(f, "{count} fields"),
        }
    }
}

fn tell_field(
    rt: &impl Eprint,
    front: Front<'_>,
    place: Place<'_>,
    column: &str,
    found: Option<&Found>,
) -> io::Result<()> {
    let column = Shown(column);
    match found.and_then(|found| value_of(found, column.0)) {
        Some(value) => eprintln!(rt;
            "{front}{place} has \"{}\" in the column \"{column}\", which must be a whole number of 64 bits: correct it, or read the column as text",
            ShownField(value)
        ),
        None => eprintln!(rt;
            "{front}{place} must have a whole number of 64 bits in the column \"{column}\": correct it, or read the column as text"
        ),
    }
}

// The value of the record in the first column of this name.
fn value_of<'a>(found: &'a Found, column: &str) -> Option<&'a [u8]> {
    let at = place_of(&found.header, column)?;
    found.record.get(at)
}

fn place_of(header: &ByteRecord, column: &str) -> Option<usize> {
    for (at, name) in header.iter().enumerate() {
        if name == column.as_bytes() {
            return Some(at);
        }
    }
    None
}
