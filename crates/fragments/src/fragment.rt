//! A fragment: it takes items out of a queue until nothing more comes.
ghost use Rattle.std.specs.Prelude.{◌≡◌, []};
ghost use Rattle.crossbeam_queue.specs.Passes.{IsPassOf, IsSamePass, view};
ghost use Rattle.fragments.specs.Balance.{tally};
ghost use Rattle.fragments.specs.Running.{HasRun, MayRun};

use crate::at_gate::Took;
use crate::feeding::Feeder;
use crate::moves::take;
use crate::rule::{Admits, Queue, Tally};
use crossbeam_queue::Pass;
use std::sync::Wait;
use std::sync::atomic::{AtomicBool, Ordering};
use std::thread;

/// Takes items until the putting has ended and none is there, or the feeder is stopped.
pub(crate) fn take_all<T, J: Admits<T>, C, E, F: Feeder<T, C, E>, R: Wait, G: Took>(
    rt: &R,
    queue: &Queue<T, J>,
    ended: &AtomicBool,
    gate: &G,
    who: u32,
    pass: &mut Pass<T, Tally<T>>,
    op: &mut F,
    beside: &mut C,
) -> Result<(), E>
    requires pass { IsPassOf queue.now pass.old × (view pass.old ≡ tally 1 [] []) }
    requires may { MayRun J.admits F.ready F.admits op.old beside.old }
    requires none { F.took op.old beside.old op.old beside.old [] }
    requires here { F.went op.old beside.old op.old beside.old }
    ensures pass { IsSamePass pass.old pass.new }
    ensures put { view pass.new ≡ tally 1 [] (view pass.new).taken }
    ensures run { HasRun F.took F.went F.stops op.old beside.old op.new beside.new (view pass.new).taken result }
{
    for _ in rt.forever() {
        let done = ended.load(Ordering::SeqCst);
        match take(rt, queue, pass) {
            Some(item) => {
                gate.took(who);
                op.take(beside, item)?;
            }
            None => {
                if done {
                    return Ok(());
                }
                thread::yield_now();
            }
        }
    }
    unreachable!()
}
