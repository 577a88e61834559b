// The words of a cause, written into a line.

ghost use Rattle.std.specs.Prelude.{◌≡◌, ◌++◌, ◌∷◌, [], codes, decimal, OnOk};
ghost use Rattle.run_report.specs.Report.{cause_words, mark_words, plan_words, side_word, spaced, tracker_word};

use crate::cause::Cause;
use crate::line::Line;
use query_plan::{PlanErr, Side};
use reservation_tree::Mark;
use row_codec::{Bytes, Memory};

fn word_of_side(side: Side) -> &'static [u8]
    ensures { result.now ≡ side_word side }
{
    match side {
        Side::Left => b"left",
        Side::Right => b"right",
    }
}

fn word_of_tracker(root: bool) -> &'static [u8]
    ensures { result.now ≡ tracker_word root }
{
    if root { b"root" } else { b"query" }
}

// What is said of an input.
fn write_side(line: &mut Line, what: &[u8], side: Side) -> Result<(), Memory>
    ensures { OnOk result (line.new ≡ line.old ++ spaced (what.now ∷ side_word side ∷ [])) }
{
    line.word(what)?;
    line.word(word_of_side(side))
}

// What is said of a record of an input.
fn write_record(line: &mut Line, what: &[u8], side: Side, number: u64) -> Result<(), Memory>
    ensures { OnOk result (line.new ≡ line.old ++ spaced (what.now ∷ side_word side ∷ decimal number ∷ [])) }
{
    write_side(line, what, side)?;
    line.number(number)
}

// What is wrong with the value at a key.
fn write_key(line: &mut Line, what: &[u8], key: &Bytes) -> Result<(), Memory>
    ensures { OnOk result (line.new ≡ line.old ++ spaced (codes "plan" ∷ what.now ∷ key.now ∷ [])) }
{
    line.word(b"plan")?;
    line.word(what)?;
    line.word(key.as_slice())
}

fn write_plan(line: &mut Line, error: &PlanErr) -> Result<(), Memory>
    ensures { OnOk result (line.new ≡ line.old ++ spaced (plan_words error.now)) }
{
    match error {
        PlanErr::Syntax => line.word(b"plan Syntax"),
        PlanErr::MissingKey { key } => write_key(line, b"MissingKey", key),
        PlanErr::WrongKind { key } => write_key(line, b"WrongKind", key),
        PlanErr::UnknownKey { key } => write_key(line, b"UnknownKey", key),
        PlanErr::UnknownColumn { key } => write_key(line, b"UnknownColumn", key),
        PlanErr::KindClash { key } => write_key(line, b"KindClash", key),
        PlanErr::Limit { key } => write_key(line, b"Limit", key),
        PlanErr::Repeated { key } => write_key(line, b"Repeated", key),
        PlanErr::SameOutput { key } => write_key(line, b"SameOutput", key),
        PlanErr::QuotaSum { key } => write_key(line, b"QuotaSum", key),
        PlanErr::Memory => line.word(b"memory"),
    }
}

// A word and two numbers.
fn write_two(line: &mut Line, what: &[u8], first: u64, second: u64) -> Result<(), Memory>
    ensures { OnOk result (line.new ≡ line.old ++ spaced (what.now ∷ decimal first ∷ decimal second ∷ [])) }
{
    line.counted(what, first)?;
    line.number(second)
}

// Which block it is.
fn write_mark(line: &mut Line, mark: Mark) -> Result<(), Memory>
    ensures { OnOk result (line.new ≡ line.old ++ spaced (mark_words mark)) }
{
    line.number(mark.name)?;
    line.number(mark.version)?;
    line.number(mark.block)
}

/// Adds the words of a cause, each with a space before it.
pub fn write_cause(line: &mut Line, cause: &Cause) -> Result<(), Memory>
    ensures { OnOk result (line.new ≡ line.old ++ spaced (cause_words cause.now)) }
{
    match cause {
        Cause::Words => line.word(b"words"),
        Cause::Plan { error } => write_plan(line, error),
        Cause::PlanInput => line.word(b"input plan"),
        Cause::Input { side } => write_side(line, b"input", *side),
        Cause::Header { side } => write_side(line, b"header", *side),
        Cause::Csv { side, number } => write_record(line, b"csv", *side, *number),
        Cause::Field { side, number, name } => {
            write_record(line, b"field", *side, *number)?;
            line.word(name.as_slice())
        }
        Cause::Large { side } => write_side(line, b"large", *side),
        Cause::Row {
            side,
            number,
            weight,
        } => {
            write_record(line, b"row", *side, *number)?;
            line.number(*weight)
        }
        Cause::Reservation { root, wanted, room } => {
            line.word(b"reservation")?;
            write_two(line, word_of_tracker(*root), *wanted, *room)
        }
        Cause::Scratch { need, free } => {
            write_two(line, b"scratch", u64::from(*need), u64::from(*free))
        }
        Cause::Names => line.word(b"names"),
        Cause::Write { entry } => line.counted(b"write", *entry),
        Cause::Read { entry } => line.counted(b"read", *entry),
        Cause::Stale { wanted, found } => {
            line.word(b"stale")?;
            write_mark(line, *wanted)?;
            write_mark(line, *found)
        }
        Cause::Output => line.word(b"output"),
        Cause::Memory => line.word(b"memory"),
    }
}
