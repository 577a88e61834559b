//! The line of an outcome.

ghost use Rattle.std.specs.Prelude.{◌≡◌, ◌++◌, IfOk, OnOk};
ghost use Rattle.run_report.specs.Report.{joined, outcome_text, outcome_words, spaced, sum_words};

use crate::line::Line;
use crate::outcome::Outcome;
use crate::words::write_cause;
use row_codec::Memory;
use std::alloc::Global;

// The sums of what was counted and totalled in all groups.
fn write_sums(line: &mut Line, counted: i128, total: i128) -> Result<(), Memory>
    ensures { OnOk result (line.new ≡ line.old ++ spaced (sum_words counted total)) }
{
    line.counted(b"counted", counted)?;
    line.counted(b"total", total)
}

fn write_outcome(line: &mut Line, outcome: &Outcome) -> Result<(), Memory>
    ensures { OnOk result (line.new ≡ line.old ++ joined (outcome_words outcome.now)) }
{
    match outcome {
        Outcome::Lines(lines) => {
            line.put(b"0")?;
            line.counted(b"lines", *lines)
        }
        Outcome::Summary {
            rows,
            groups,
            counted,
            total,
        } => {
            line.put(b"rows")?;
            line.number(*rows)?;
            line.counted(b"groups", *groups)?;
            write_sums(line, *counted, *total)
        }
        Outcome::Refused { status, cause } => {
            line.put_number(*status)?;
            write_cause(line, cause)
        }
    }
}

/// The line of an outcome, with a newline at its end.
///
/// `query` is the number of the query whose outcome it is, as the line names it: the first query
/// of a plan has number 1. Without a query the line begins with the outcome. Numbers are decimal
/// without leading zeros. Names of columns and keys of plans go out byte for byte, a newline in
/// them too.
///
/// # Errors
///
/// `Memory` where there is not enough; there is no other.
pub fn outcome_line(alloc: Global, query: Option<u32>, outcome: &Outcome) -> Result<Vec<u8>, Memory>
    ensures line { IfOk result (λ text. text.items ≡ outcome_text query outcome.now) }
{
    let mut line = Line::new(alloc)?;
    if let Some(number) = query {
        line.put(b"query ")?;
        line.put_number(number)?;
        line.put(b": ")?;
    }
    write_outcome(&mut line, outcome)?;
    line.end()
}
