// The file of a plan.

ghost use Rattle.std.specs.Prelude.{◌≤◌, IfOk, IsErrOf};
ghost use Rattle.outside.specs.Counts.{NoneFell, Rose};
ghost use Rattle.outside.specs.Names.{AllStay};
ghost use Rattle.spill_top.specs.PlanFile.{IsEnough};

use outside::{Inputs, Source};
use query_plan::PlanErr;
use std::alloc::Global;

// No document of more bytes is a plan, so no more are read than show that.
const MOST_BYTES: usize = 1048576;

// So many bytes are asked of the source in one read.
const READ_LEN: usize = 4096;

// Why the bytes of a plan are not there.
#[derive(Clone, Copy)]
pub(crate) enum Unread {
    Fault,
    Memory,
}

// The bytes of a plan's file, or as many as show that there are too many. The source is given back in any case.
pub(crate) fn read_file<I: Inputs>(
    alloc: Global,
    file: &str,
    inputs: &mut I,
) -> Result<Vec<u8>, Unread>
    ensures text { IfOk result (λ text. IsEnough (I.bytes_at inputs.old file.now) text.items) }
    ensures fault { IsErrOf result Unread.Fault → Rose (I.faults_at inputs.old file.now) (I.faults_at inputs.new file.now) }
    ensures inputs { AllStay (I.bytes_at inputs.old) (I.bytes_at inputs.new) }
    ensures never_falls { NoneFell (I.faults_at inputs.old) (I.faults_at inputs.new) }
{
    let Ok(mut source) = inputs.open(file) else {
        return Err(Unread::Fault);
    };
    let text = read_all(alloc, &mut source);
    inputs.close(file, source);
    text
}

fn read_all<S: Source>(alloc: Global, source: &mut S) -> Result<Vec<u8>, Unread>
    ensures text { IfOk result (λ text. IsEnough (S.remaining source.old) text.items) }
    ensures fault { IsErrOf result Unread.Fault → Rose (S.faults source.old) (S.faults source.new) }
    ensures never_falls { S.faults source.old ≤ S.faults source.new }
{
    let mut text = Vec::new(alloc);
    let mut buf = [0u8; READ_LEN];
    while text.len() <= MOST_BYTES {
        let Ok(count) = source.read(&mut buf) else {
            return Err(Unread::Fault);
        };
        if count == 0 {
            return Ok(text);
        }
        if text.extend_from_slice(&buf[..count]).is_err() {
            return Err(Unread::Memory);
        }
    }
    Ok(text)
}
