//! The reading half: it puts what it is given into a queue, and takes out of it where it is full.
ghost use Rattle.std.specs.Prelude.{◌≡◌, ◌<◌, ◌++◌, ◌∷◌, [], IfErr, OnOk};
ghost use Rattle.crossbeam_queue.specs.Passes.{IsPassOf, IsSamePass, view};
ghost use Rattle.fragments.specs.Balance.{IsEven};
ghost use Rattle.fragments.specs.Dealing.{DidRead};
ghost use Rattle.fragments.specs.Running.{EndsAt, TakesOn, GivesOn, Goes, GoesOn, MayRun, ReadsOn, StopsAt, StopsSo};

use crate::feeding::{Feeder, Giver};
use crate::moves::{put, take};
use crate::rule::{Admits, Queue, Tally};
use crossbeam_queue::Pass;
use std::sync::Wait;
use std::sync::atomic::{AtomicBool, Ordering};

/// What stopped the reading half: what it reads, or its own feeder.
#[derive(Clone, Copy, Debug, PartialEq, Eq)]
pub enum Stop<Q, E> {
    Reading(Q),
    Feeding(E),
}

// Puts an item. Where the queue is full, the feeder takes one first.
fn give<T: Drop, J: Admits<T>, C, E, F: Feeder<T, C, E>, R: Wait>(
    rt: &R,
    queue: &Queue<T, J>,
    pass: &mut Pass<T, Tally<T>>,
    item: T,
    op: &mut F,
    beside: &mut C,
) -> Result<(), E>
    requires pass { IsPassOf queue.now pass.old × (0 < (view pass.old).parts) }
    requires item { J.admits item }
    requires may { MayRun J.admits F.ready F.admits op.old beside.old }
    ensures pass { IsSamePass pass.old pass.new }
    ensures parts { (view pass.new).parts ≡ (view pass.old).parts }
    ensures put { OnOk result ((view pass.new).put ≡ (view pass.old).put ++ item ∷ []) }
    ensures may { MayRun J.admits F.ready F.admits op.new beside.new }
    ensures fed { OnOk result (GoesOn F.took op.old beside.old op.new beside.new (view pass.old) (view pass.new)) }
    ensures left { Goes F.went op.old beside.old op.new beside.new }
    ensures cause { IfErr result (StopsSo F.went F.stops op.old beside.old beside.new) }
{
    let mut item = item;
    for _ in rt.forever() {
        match put(rt, queue, pass, item) {
            Ok(()) => return Ok(()),
            Err(back) => item = back,
        }
        if let Some(other) = take(rt, queue, pass) {
            op.take(beside, other)?;
        }
    }
    unreachable!()
}

// Puts all that is given, until it ends, or something stops it.
fn put_all<T: Drop, J: Admits<T>, C, E, F: Feeder<T, C, E>, Q, S: Giver<T, Q>, R: Wait>(
    rt: &R,
    queue: &Queue<T, J>,
    pass: &mut Pass<T, Tally<T>>,
    giver: &mut S,
    op: &mut F,
    beside: &mut C,
) -> Result<(), Stop<Q, E>>
    requires pass { IsPassOf queue.now pass.old × (0 < (view pass.old).parts) }
    requires giver { S.ready giver.old }
    requires gives { (x : T) → S.gives giver.old x → J.admits x }
    requires may { MayRun J.admits F.ready F.admits op.old beside.old }
    ensures pass { IsSamePass pass.old pass.new }
    ensures parts { (view pass.new).parts ≡ (view pass.old).parts }
    ensures read { OnOk result (ReadsOn S.gave S.ended giver.old giver.new (view pass.old).put (view pass.new).put) }
    ensures may { MayRun J.admits F.ready F.admits op.new beside.new }
    ensures fed { OnOk result (GoesOn F.took op.old beside.old op.new beside.new (view pass.old) (view pass.new)) }
    ensures left { Goes F.went op.old beside.old op.new beside.new }
    ensures giver { EndsAt S.went giver.old giver.new }
    ensures cause { IfErr result (StopsAt S.went S.stops giver.old giver.new (StopsSo F.went F.stops op.old beside.old beside.new)) }
{
    for _ in rt.forever() {
        let given = match giver.next() {
            Ok(given) => given,
            Err(why) => return Err(Stop::Reading(why)),
        };
        let Some(item) = given else {
            return Ok(());
        };
        if let Err(why) = give(rt, queue, pass, item, op, beside) {
            return Err(Stop::Feeding(why));
        }
    }
    unreachable!()
}

/// Puts all that is given, and says that the putting has ended, whatever stopped it.
pub(crate) fn read_all<T: Drop, J: Admits<T>, C, E, F: Feeder<T, C, E>, Q, S: Giver<T, Q>, R: Wait>(
    rt: &R,
    queue: &Queue<T, J>,
    ended: &AtomicBool,
    pass: &mut Pass<T, Tally<T>>,
    giver: &mut S,
    op: &mut F,
    beside: &mut C,
) -> Result<(), Stop<Q, E>>
    requires pass { IsPassOf queue.now pass.old × (0 < (view pass.old).parts) }
    requires giver { S.ready giver.old }
    requires gives { (x : T) → S.gives giver.old x → J.admits x }
    requires may { MayRun J.admits F.ready F.admits op.old beside.old }
    ensures { DidRead J.admits F.ready F.admits F.took F.went F.stops S.gave S.ended S.went S.stops pass.old giver.old op.old beside.old
        pass.new giver.new op.new beside.new result }
{
    let done = put_all(rt, queue, pass, giver, op, beside);
    ended.store(true, Ordering::SeqCst);
    done
}

/// Takes what is left in a queue that no other thread has a pass of.
#[tactic(auto, using(crate::proofs::Taking::takes_none, crate::proofs::Taking::takes_more))]
pub(crate) fn take_rest<T, J: Admits<T>, C, E, F: Feeder<T, C, E>, R: Wait>(
    rt: &R,
    queue: &Queue<T, J>,
    pass: &mut Pass<T, Tally<T>>,
    op: &mut F,
    beside: &mut C,
) -> Result<(), E>
    requires pass { IsPassOf queue.now pass.old × ((view pass.old).parts ≡ 1024) }
    requires may { MayRun J.admits F.ready F.admits op.old beside.old }
    ensures pass { IsSamePass pass.old pass.new }
    ensures put { (view pass.new).put ≡ (view pass.old).put }
    ensures even { OnOk result (IsEven (view pass.new)) }
    ensures took { OnOk result (TakesOn F.took op.old beside.old op.new beside.new (view pass.old).taken (view pass.new).taken) }
    ensures left { Goes F.went op.old beside.old op.new beside.new }
    ensures cause { IfErr result (StopsSo F.went F.stops op.old beside.old beside.new) }
{
    for _ in rt.forever() {
        let Some(item) = take(rt, queue, pass) else {
            return Ok(());
        };
        op.take(beside, item)?;
    }
    unreachable!()
}
