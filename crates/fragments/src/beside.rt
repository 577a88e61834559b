//! The reading half as a work.
ghost use Rattle.std.specs.Prelude.{◌<◌};
ghost use Rattle.crossbeam_queue.specs.Passes.{IsPassOf, view};
ghost use Rattle.fragments.specs.Dealing.{DidRead, MayRead};

use crate::feeding::{Feeder, Giver};
use crate::place::Runner;
use crate::reading::{Stop, read_all};
use crate::rule::{Admits, Tally};
use crossbeam_queue::Pass;
use lanes::Reads;
use std::sync::Wait;

impl<'a, T: Drop, J: Admits<T>, C, E, F: Feeder<T, C, E>, Q, S: Giver<T, Q>, R: Wait, G> Reads<
    Pass<T, Tally<T>>,
    S,
    F,
    C,
    Result<(), Stop<Q, E>>,
> for Runner<'a, T, J, R, G> {
    ghost may = { λ w. MayRead w.queue.now J.admits F.ready F.admits S.ready S.gives };

    ghost does = { λ w. DidRead J.admits F.ready F.admits F.took F.went F.stops S.gave S.ended S.went S.stops };

    fn read(
        &self,
        pass: &mut Pass<T, Tally<T>>,
        giver: &mut S,
        op: &mut F,
        beside: &mut C,
    ) -> Result<(), Stop<Q, E>> {
        read_all(self.rt, self.queue, self.ended, pass, giver, op, beside)
    }
}
