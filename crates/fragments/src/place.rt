//! A fragment at its place.
ghost use Rattle.fragments.specs.Fragments.{DidAt, MayAt};

use crate::at_gate::Took;
use crate::feeding::Feeder;
use crate::fragment::take_all;
use crate::rule::{Admits, Queue, Tally};
use crossbeam_queue::Pass;
use lanes::Works;
use std::sync::Wait;
use std::sync::atomic::AtomicBool;

/// Where a fragment stands: its pass, and how it ended.
#[derive(Drop)]
pub struct Place<T, E> {
    pub who: u32,
    pub pass: Pass<T, Tally<T>>,
    pub outcome: Result<(), E>,
}

// What the threads share.
#[derive(Drop)]
pub(crate) struct Runner<'a, T, J: Admits<T>, R, G> {
    pub(crate) rt: &'a R,
    pub(crate) queue: &'a Queue<T, J>,
    pub(crate) ended: &'a AtomicBool,
    pub(crate) gate: &'a G,
}

impl<'a, T: Drop, J: Admits<T>, C, E: Drop, F: Feeder<T, C, E>, R: Wait, G: Took> Works<
    Place<T, E>,
    F,
    C,
> for Runner<'a, T, J, R, G> {
    ghost may = { λ w. MayAt w.queue.now J.admits F.ready F.admits F.took F.went };

    ghost does = { λ w. DidAt F.took F.went F.stops };

    fn work(&self, place: &mut Place<T, E>, op: &mut F, beside: &mut C) {
        place.outcome = take_all(
            self.rt,
            self.queue,
            self.ended,
            self.gate,
            place.who,
            &mut place.pass,
            op,
            beside,
        );
    }
}
