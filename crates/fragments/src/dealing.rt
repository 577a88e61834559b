//! Items go from one giver to several feeders.
ghost use Rattle.std.specs.Prelude.{◌≡◌, IfErr, OnOk};
ghost use Rattle.fragments.specs.Dealing.{IsDealt};
ghost use Rattle.fragments.specs.Causes.{HasLeft, IsCause, MayBeginAll, MayGive, failed_by};

use crate::at_gate::AtGate;
use crate::feeding::{Feeder, Giver};
use crate::moves::open;
use crate::place::Runner;
use crate::places::{begin, gather};
use crate::reading::{Stop, take_rest};
use crate::rule::Admits;
use lanes::read_beside;
use outside::Gate;
use std::alloc::Global;
use std::sync::Wait;
use std::sync::atomic::AtomicBool;
use std::thread::Threads;

// How many items stand in a queue at most.
const ROOM: usize = 16;

// The number of the first fragment. The others follow it.
const FIRST: u32 = 2000;

/// Why not all was dealt.
#[derive(Clone, Copy, Debug, PartialEq, Eq)]
pub enum Failure<Q, E> {
    /// There was no memory for the queue and the places of the fragments.
    Memory,
    /// The giver was stopped so.
    Reading(Q),
    /// A feeder was stopped so.
    Feeding(E),
}

/// Deals all that is given to up to nine feeders, each beside its own thing. The first one is the caller's, and works in the caller's
/// thread where the queue is full; each other one works in a thread of its own where one can be made.
///
/// # Errors
///
/// `Memory`: there was too little for the queue and the places of the fragments. `Reading`: the giver was stopped so. `Feeding`: of the
/// feeders that were stopped, the one with the least number was stopped so. Where a feeder other than the caller's was stopped too, the
/// giver is told first; no clause says so.
pub fn deal<
    T: Drop + Send,
    J: Admits<T> + Sync,
    C: Send,
    E: Drop + Send,
    F: Feeder<T, C, E> + Send,
    Q: Drop + Send,
    S: Giver<T, Q> + Send,
    R: Threads + Wait + Sync,
    G: Gate,
>(
    rt: &R,
    alloc: Global,
    gate: &G,
    giver: &mut S,
    ops: &mut [F],
    besides: &mut [C],
) -> Result<(), Failure<Q, E>>
    requires giver { MayGive J.admits S.ready S.gives S.gave S.went giver.old }
    requires feeders { MayBeginAll J.admits F.ready F.admits F.took F.went ops.old besides.old }

    // Each item went to one of the feeders, as often as it was given.
    ensures ok { OnOk result (IsDealt F.took S.ended giver.old ops.old besides.old giver.new ops.new besides.new) }

    // Any other answer is that of the giver, or of the first of the feeders that were stopped.
    ensures cause { IfErr result (IsCause F.took F.stops S.stops giver.old ops.old besides.old giver.new ops.new besides.new) }

    // What each feeder and the giver left, whatever the answer is.
    ensures left { HasLeft F.went S.went giver.old ops.old besides.old giver.new ops.new besides.new }
{
    let Ok((queue, mut pass)) = open::<T, J>(alloc, ROOM) else {
        return Err(Failure::Memory);
    };
    let Ok(mut places) = begin::<T, J, E>(alloc, &queue, &mut pass, FIRST, ops.len() - 1) else {
        return Err(Failure::Memory);
    };
    let ended = AtomicBool::new(false);
    let at_gate = AtGate { gate };
    let runner = Runner {
        rt,
        queue: &queue,
        ended: &ended,
        gate: &at_gate,
    };
    let (first, others) = ops.split_at_mut(1);
    let (first_beside, others_beside) = besides.split_at_mut(1);
    let op = &mut first[0];
    let beside = &mut first_beside[0];
    let read = read_beside(
        rt,
        &runner,
        &mut pass,
        giver,
        op,
        beside,
        &runner,
        places.as_mut_slice(),
        others,
        others_beside,
    );
    let refused = gather(&queue, &mut pass, places);
    if let Err(stop) = read {
        return Err(failure_of(stop));
    }
    if let Some(e) = refused {
        return Err(Failure::Feeding(e));
    }
    match take_rest(rt, &queue, &mut pass, op, beside) {
        Ok(()) => Ok(()),
        Err(e) => Err(Failure::Feeding(e)),
    }
}

// What stopped the reading half stopped the deal.
fn failure_of<Q, E>(stop: Stop<Q, E>) -> Failure<Q, E>
    ensures { result ≡ failed_by stop }
{
    match stop {
        Stop::Reading(q) => Failure::Reading(q),
        Stop::Feeding(e) => Failure::Feeding(e),
    }
}
