//! Whether a text is that of a legal trace.
ghost use Rattle.std.specs.Prelude.{◌≡◌, ◌<◌, ◌≤◌, length, IfOk, IfErr, IsOkUnless, Err, None, Bool, List};
ghost use Rattle.pool_model.specs.declared.skeleton.Skeleton.{Skeleton};
ghost use Rattle.pool_model.specs.State.{Opening};
ghost use Rattle.pool_model.specs.Traces.{IsLegalTrace};
ghost use Rattle.trace_check.specs.Lines.{IsTraceText};
ghost use Rattle.trace_check.specs.Verdicts.{IsAccepted, IsCause};
ghost use Rattle.trace_check.specs.Underway.{IsUnderway, IsVerdict};
ghost use Rattle.trace_check.specs.Reading.{skeleton_at};

use crate::reading::{last_at, opening_at, skeleton_at};
use crate::trace_err::TraceErr;
use std::alloc::Global;
use trace_follow::Follower;

/// The most bytes that a trace may have.
pub const MAX_BYTES: usize = 1 << 28;

/// What is known of the text of a legal trace: how many entries it has, and whether its last line is `end`.
#[derive(Clone, Copy, Debug, PartialEq, Eq)]
pub struct Checked {
    pub entries: u64,
    pub whole: bool,
}

/// Whether a text is that of a legal trace: opening data, entries that may follow one another, and a last line. Then the
/// pool fits its trackers, its clients and its memory after each entry.
///
/// # Errors
///
/// `Large`: the text has more than `MAX_BYTES` bytes. `Syntax`: the first line that is no line of a trace, from 1; of
/// text behind the last line, it is the last line. `Illegal`: the first entry, from 0, that can't follow. Whichever
/// stands earlier is told. `Memory`: there was no memory for what is live.
pub fn check_trace(alloc: Global, bytes: &[u8]) -> Result<Checked, TraceErr>
    ensures ok { IfOk result (IsAccepted bytes.now) }
    ensures cause { IfErr result (IsCause bytes.now) }

    // A text that is too large is refused as such, and the text of a legal trace is accepted.
    ensures large { 268435456 < length bytes.now → result ≡ Err TraceErr.Large }
    ensures accepts { (o : Opening) (trace : List Skeleton) (whole : Bool) → length bytes.now ≤ 268435456 → IsTraceText bytes.now o trace whole → IsLegalTrace o trace → IsOkUnless result TraceErr.Memory }
{
    if bytes.len() > MAX_BYTES {
        return Err(TraceErr::Large);
    }
    check_text(alloc, bytes)
}

// The same of a text that isn't too large.
fn check_text(alloc: Global, bytes: &[u8]) -> Result<Checked, TraceErr>
    requires { length bytes.now ≤ 268435456 }
    ensures { IsVerdict bytes.now result }
{
    match opening_at(bytes) {
        None => Err(TraceErr::Syntax { line: 1 }),
        Some((opened, rest)) => match Follower::open(alloc, &opened) {
            Ok(follower) => check_lines(bytes, follower, rest),
            Err(_) => Err(TraceErr::Memory),
        },
    }
}

// The lines behind that of the opening data. The whole text is there for the contract alone.
fn check_lines(_bytes: &[u8], mut follower: Follower, lines: &[u8]) -> Result<Checked, TraceErr>
    requires { IsUnderway _bytes.now follower 0 lines.now }
    ensures { IsVerdict _bytes.now result }
{
    let mut entries = 0u64;
    let mut rest = lines;
    'lines: loop {
        match skeleton_at(rest) {
            None => return check_last(_bytes, &follower, entries, rest),
            Some((k, behind)) => {
                let may = match follower.follow(&k) {
                    Ok(may) => may,
                    Err(_) => return Err(TraceErr::Memory),
                };
                if !may {
                    return Err(TraceErr::Illegal { entry: entries });
                }
                entries += 1;
                rest = behind;
            }
        }
    }
}

// What no entry's line begins is the last line, or out of form.
fn check_last(
    _bytes: &[u8],
    _follower: &Follower,
    entries: u64,
    rest: &[u8],
) -> Result<Checked, TraceErr>
    requires underway { IsUnderway _bytes.now _follower.now entries rest.now }
    requires none { skeleton_at rest.now ≡ None }
    ensures { IsVerdict _bytes.now result }
{
    match last_at(rest) {
        Some(whole) => Ok(Checked { entries, whole }),
        None => Err(TraceErr::Syntax { line: entries + 2 }),
    }
}
