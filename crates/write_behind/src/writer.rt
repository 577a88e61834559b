//! A writer.
ghost use Rattle.std.specs.Prelude.{◌≡◌, ◌<◌};
ghost use Rattle.pool_model.specs.Makers.{IsWriter};
ghost use Rattle.turn_table.specs.Lists.{times};
ghost use Rattle.pool.specs.Passing.{writers_out};
ghost use Rattle.pool.specs.Writers.{Lends, TakesBack};
ghost use Rattle.write_behind.specs.Trying.{Runs, Tries};

use crate::rest::Rest;
use crate::tried::Tried;
use outside::{Gate, Slot};
use pin_core::Wrote;
use pool::{Opened, Pass, Pool, WriterSeat, WriterTurn};
use std::marker::Brand;
use std::sync::Wait;
use std::time::Clock;

/// A writer of a pool. It has the runtime that lets it wait for its turn.
///
/// It can't be let go: it ends by `end`.
pub struct Writer<'a, D: Slot, R: Wait, T: Opened = Brand> {
    rt: &'a R,
    pool: &'a Pool<D, T>,
    pub(crate) seat: WriterSeat<D, T>,
    ghost table: { seat.spot.table ≡ pool.now },
}

impl<'a, D: Slot + Drop, R: Wait, T: Opened> Writer<'a, D, R, T> {
    /// A writer of this pool, with the number `who`, 1000 to 1007, which no other writer has that hasn't ended.
    pub fn begin(
        rt: &'a R,
        pool: &'a Pool<D, T>,
        pass: &mut Pass<D, T>,
        who: u32,
    ) -> Writer<'a, D, R, T>
        requires table { pass.old.table ≡ pool.now }
        requires who { IsWriter who }
        requires has { 0 < times who pass.old.knows.rights }
        ensures { Lends who pass.old pass.new result.seat }
    {
        let seat = pool.writer_seat(pass, who);
        Writer { rt, pool, seat }
    }

    /// Stores a dirty page, if there is one. It passes the gate before and after the store, while others have turns.
    pub fn one<G: Gate>(&mut self, gate: &G) -> Tried
        ensures { Tries D.Slot T.opening T.outset.told T.first self.old.seat self.new.seat result }
    {
        match self.pool.writer_turn(self.rt, &mut self.seat) {
            WriterTurn::Stopped => Tried::Closed,
            WriterTurn::Nothing => Tried::Nothing,
            WriterTurn::Write(mut job) => {
                let who = self.seat.who();
                job.run(gate, who);
                match self.pool.writer_back(self.rt, &mut self.seat, job) {
                    Wrote::Done(page) => Tried::Done(page),
                    Wrote::Failed(page) => Tried::Failed(page),
                }
            }
        }
    }

    /// Ends the writer. The pass has its number again.
    pub fn end(self, pass: &mut Pass<D, T>)
        requires table { pass.old.table ≡ self.seat.spot.table }
        requires some { 0 < writers_out pass.old }
        ensures { TakesBack self.entry.seat pass.old pass.new }
    {
        let Writer { rt: _, pool, seat } = self;
        pool.writer_done(pass, seat);
    }
}

impl<'a, D: Slot + Drop, R: Wait + Clock, T: Opened> Writer<'a, D, R, T> {
    /// Stores dirty pages until it finds that writers have to end. Where none is dirty, or a store failed, it rests
    /// before it looks again, each time longer, up to a millisecond.
    pub fn run<G: Gate>(&mut self, gate: &G)
        ensures { Runs self.old.seat self.new.seat }
    {
        let mut rest = Rest::new();
        for _ in self.rt.forever() {
            match self.one(gate) {
                Tried::Closed => return,
                Tried::Done(_) => rest.reset(),
                Tried::Failed(_) | Tried::Nothing => rest.rest(self.rt),
            }
        }
    }
}
