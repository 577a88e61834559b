//! The lines of a trace.
ghost use Rattle.std.specs.Prelude.{◌≡◌, ◌++◌, IfOk, OnOk, decimal, drop, if◌then◌else◌, is_ok};
ghost use Rattle.trace_check.specs.Lines.{last_line, letter_of, line_of, opening_line, spaced};

use crate::name::Name;
use crate::numbers::Numbers;
use itoa::Buffer;
use pool_model::Skeleton;
use reservation_tree::Memory;
use std::alloc::Global;
use trace_follow::Opened;

/// The line of an entry, with its newline.
///
/// # Errors
///
/// `Memory`: there was no memory for the line.
#[tactic(auto, unfolding(crate::specs::Lines::line_of))]
pub fn entry_line(alloc: Global, e: &Skeleton) -> Result<Vec<u8>, Memory>
    ensures { IfOk result (λ line. line.items ≡ line_of e.now) }
{
    let mut line = Vec::new(alloc);
    line.extend_from_slice(if e.writer { b"w" } else { b"s" })?;
    put_number(&mut line, u64::from(e.maker))?;
    line.extend_from_slice(b" ")?;
    line.extend_from_slice(Name::of(&e.event).spelled())?;
    put_numbers(&mut line, Numbers::of(&e.event).as_slice())?;
    line.extend_from_slice(b"\n")?;
    Ok(line)
}

/// The line of the opening data, with its newline.
///
/// # Errors
///
/// `Memory`: there was no memory for the line.
#[tactic(auto, unfolding(crate::specs::Lines::opening_line))]
pub fn opening_line(alloc: Global, opened: &Opened) -> Result<Vec<u8>, Memory>
    ensures { IfOk result (λ line. line.items ≡ opening_line opened.now) }
{
    let numbers = [
        u64::from(opened.blocks),
        u64::from(opened.block_len),
        opened.first_name,
    ];
    let mut line = Vec::new(alloc);
    line.extend_from_slice(b"pool")?;
    put_numbers(&mut line, &numbers)?;
    line.extend_from_slice(b"\n")?;
    Ok(line)
}

/// The last line, with its newline: `whole` says that no entry is missing.
pub fn last_line(whole: bool) -> &'static [u8]
    ensures { result.now ≡ last_line whole }
{
    if whole { b"end\n" } else { b"cut\n" }
}

// Adds each number with a space before it.
fn put_numbers(line: &mut Vec<u8>, numbers: &[u64]) -> Result<(), Memory>
    ensures { OnOk result (line.new.items ≡ line.old.items ++ spaced numbers.now) }
{
    for number in numbers {
        line.extend_from_slice(b" ")?;
        put_number(line, *number)?;
    }
    Ok(())
}

fn put_number(line: &mut Vec<u8>, number: u64) -> Result<(), Memory>
    ensures { OnOk result (line.new.items ≡ line.old.items ++ decimal number) }
{
    let mut digits = Buffer::new();
    line.extend_from_slice(digits.format(number).as_bytes())?;
    Ok(())
}
