// A line of a report as a sentence for a person: which query, which file, which record, and what would do.

use crate::input_words::tell_input;
use crate::memory_words::{tell_reservation, tell_scratch};
use crate::row_words::Page;
use crate::shown::Shown;
use query_plan::{Plan, Query, SidePlan};
use row_codec::Column;
use std::fmt::{Display, Formatter};
use std::rt::Files;
use std::{fmt, io};

pub(crate) const OUT_OF_MEMORY: &str =
    "out of memory: end other programs, or raise the limit of memory";

// A line without an answer, in parts: the query's number, its status, and what stands behind it.
#[derive(Clone, Copy)]
pub(crate) struct Refused<'a> {
    pub(crate) query: Option<usize>,
    status: &'a str,
    pub(crate) cause: &'a str,
    pub(crate) numbers: &'a str,
}

impl<'a> Refused<'a> {
    fn of(line: &'a str) -> Option<Refused<'a>> {
        let (query, outcome) = match line.strip_prefix("query ") {
            Some(behind) => {
                let (number, outcome) = behind.split_once(": ")?;
                (Some(number.parse::<usize>().ok()?), outcome)
            }
            None => (None, line),
        };
        let (status, behind) = outcome.split_once(' ')?;
        let (cause, numbers) = behind.split_once(' ').unwrap_or((behind, ""));
        Some(Refused {
            query,
            status,
            cause,
            numbers,
        })
    }
}

// What ran: the queries of a plan, which may not be read again, or the count of a column, or a check, which reads no file.
#[derive(Clone, Copy)]
pub(crate) enum Ran<'a> {
    Plan {
        name: &'a str,
        plan: &'a Plan,
        // For each query the slots that are sure to suffice, if that is known.
        quotas: &'a [Option<u64>],
    },
    Unread {
        name: &'a str,
    },
    Count {
        file: &'a str,
        column: &'a str,
    },
    Check,
}

impl<'a> Ran<'a> {
    // How each sentence of a line begins.
    pub(crate) fn front(self, query: Option<usize>) -> Front<'a> {
        let plan = match self {
            Ran::Plan { name, .. } => Some(name),
            Ran::Unread { name } => Some(name),
            Ran::Count { .. } | Ran::Check => None,
        };
        Front { plan, query }
    }

    pub(crate) fn query(self, number: Option<usize>) -> Option<&'a Query> {
        match self {
            Ran::Plan { plan, .. } => plan.queries.as_slice().get(number?.checked_sub(1)?),
            Ran::Unread { .. } | Ran::Count { .. } | Ran::Check => None,
        }
    }

    // The pages of a query.
    pub(crate) fn page(self, number: Option<usize>) -> Option<Page> {
        match self {
            Ran::Plan { plan, .. } => Some(Page {
                blocks: u64::from(self.query(number)?.page_blocks),
                block_len: u64::from(plan.block_len),
            }),
            Ran::Unread { .. } | Ran::Count { .. } | Ran::Check => None,
        }
    }

    // The slots that are sure to suffice for a query, if that is known.
    pub(crate) fn enough(self, number: Option<usize>) -> Option<u64> {
        match self {
            Ran::Plan { quotas, .. } => *quotas.get(number?.checked_sub(1)?)?,
            Ran::Unread { .. } | Ran::Count { .. } | Ran::Check => None,
        }
    }

    // The input on a side, as the line names it.
    pub(crate) fn input(self, number: Option<usize>, side: &str) -> Option<Input<'a>> {
        if let Ran::Count { file, column } = self {
            let asked = Asked::One(column);
            return Some(Input { file, asked });
        }
        let query = self.query(number)?;
        match (side, &query.right) {
            ("right", Some(right)) => Some(Input::of(right)),
            _ => Some(Input::of(&query.left)),
        }
    }
}

// A file, and the columns that are asked of it.
#[derive(Clone, Copy)]
pub(crate) struct Input<'a> {
    pub(crate) file: &'a str,
    pub(crate) asked: Asked<'a>,
}

impl<'a> Input<'a> {
    fn of(side: &'a SidePlan) -> Input<'a> {
        Input {
            file: side.file.as_str(),
            asked: Asked::All(side.columns.as_slice()),
        }
    }
}

#[derive(Clone, Copy)]
pub(crate) enum Asked<'a> {
    One(&'a str),
    All(&'a [Column]),
}

// The program's name, and of a run the query.
#[derive(Clone, Copy)]
pub(crate) struct Front<'a> {
    plan: Option<&'a str>,
    query: Option<usize>,
}

impl Display for Front<'_> {
    fn fmt<W: fmt::Write>(&self, f: &mut Formatter<W>) -> fmt::Result {
        match (self.plan, self.query) {
            (Some(name), Some(number)) => write!(f, "spill: query {number} of {}: ", Shown(name)),
            _ => f.write_str("spill: "),
        }
    }
}

// Tells each line that has no answer, but for those of files, which were told where the fault came.
pub(crate) fn tell_lines<F: Files + AllocGlobal>(
    rt: &impl Eprint,
    files: &F,
    report: &str,
    ran: Ran<'_>,
) -> io::Result<()> {
    for line in report.lines() {
        if let Some(refused) = Refused::of(line) {
            tell(rt, files, &refused, ran)?;
        }
    }
    Ok(())
}

fn tell<F: Files + AllocGlobal>(
    rt: &impl Eprint,
    files: &F,
    line: &Refused<'_>,
    ran: Ran<'_>,
) -> io::Result<()> {
    let front = ran.front(line.query);
    match (line.status, line.cause) {
        ("4" | "5", _) => tell_input(rt, files, line, ran),
        ("6", _) => tell_reservation(rt, line, ran),
        ("7", "scratch") => tell_scratch(rt, line, ran),
        ("7", _) => eprintln!(rt;
            "{front}the input is too large: all numbers of pages were used up: split the input"
        ),
        ("8", "write") => eprintln!(rt;
            "{front}a page could not be written to the scratch file (event {} of the pool, from 0): see the reason above",
            Shown(line.numbers)
        ),
        ("8", _) => eprintln!(rt;
            "{front}a page could not be read from the scratch file (event {} of the pool, from 0): see the reason above",
            Shown(line.numbers)
        ),
        ("9", _) => tell_unwritten(rt, front, ran, line.query),
        ("10", _) => eprintln!(rt; "{front}{OUT_OF_MEMORY}"),
        _ => Ok(()),
    }
}

// Why it was not was told where the fault came.
fn tell_unwritten(
    rt: &impl Eprint,
    front: Front<'_>,
    ran: Ran<'_>,
    number: Option<usize>,
) -> io::Result<()> {
    let output = match (ran, ran.query(number)) {
        (Ran::Check, _) => "selfcheck.csv",
        (_, Some(query)) => query.output.as_str(),
        _ => "its output",
    };
    eprintln!(rt;
        "{front}the answer was not written to {}: see the reason above",
        Shown(output)
    )
}
