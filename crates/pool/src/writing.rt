//! What writers do at a pool: they take dirty pages out, one at a time, and bring them back.
ghost use Rattle.std.specs.Prelude.{◌≡◌, ◌<◌};
ghost use Rattle.pool_model.specs.Makers.{IsWriter};
ghost use Rattle.pin_core.specs.calls.Returning.{wrote};
ghost use Rattle.turn_table.specs.Lists.{times};
ghost use Rattle.turn_table.specs.Knowledge.{HasTurn};
ghost use Rattle.session_calls.specs.Flying.{IsBack};
ghost use Rattle.session_calls.specs.Ready.{StandsWhole};
ghost use Rattle.pool.specs.Items.{is_stopped, sight_in};
ghost use Rattle.pool.specs.Passing.{writers_out};
ghost use Rattle.pool.specs.Writers.{BringsBack, IsFound, Lends, TakesBack, TakesTurn};

use crate::among::Among;
use crate::holding::{give_hand, take_hand};
use crate::pass::Pass;
use crate::place::Place;
use crate::pool::Pool;
use crate::writer::{WriterSeat, WriterTurn};
use outside::Slot;
use pin_core::{WriteJob, Wrote};
use session_calls::{Hand, Opened};
use std::sync::Wait;

impl<D: Slot + Drop, T: Opened> Pool<D, T> {
    /// Hands the number `who`, 1000 to 1007, to a new writer. The pass has it: no other writer that hasn't ended does.
    pub fn writer_seat(&self, pass: &mut Pass<D, T>, who: u32) -> WriterSeat<D, T>
        requires table { pass.old.table ≡ self.now }
        requires who { IsWriter who }
        requires has { 0 < times who pass.old.knows.rights }
        ensures { Lends who pass.old pass.new result }
    {
        let seat = self.turns.split(&mut pass.seat, Some(who));
        WriterSeat {
            number: who,
            place: Place {
                seat,
                stopped: false,
            },
        }
    }

    /// Ends a writer of this pool. The pass has its number again.
    pub fn writer_done(&self, pass: &mut Pass<D, T>, seat: WriterSeat<D, T>)
        requires table { (pass.old.table ≡ self.now) × (seat.spot.table ≡ self.now) }
        requires some { 0 < writers_out pass.old }
        ensures { TakesBack seat pass.old pass.new }
    {
        let WriterSeat { number: _, place } = seat;
        let Place {
            seat: left,
            stopped: _,
        } = place;
        self.turns.join(&mut pass.seat, left);
    }

    /// One turn of a writer: it finds that writers have to end, or nothing to write, or takes a page out.
    pub fn writer_turn<R: Wait>(&self, rt: &R, seat: &mut WriterSeat<D, T>) -> WriterTurn<D>
        requires table { seat.old.spot.table ≡ self.now }
        ensures { TakesTurn D.Slot T.opening T.outset.told T.first seat.old seat.new result }
    {
        let number = seat.number;
        let place = &mut seat.place;
        let mut hand = take_hand(rt, &self.turns, place, number);
        let turn = find(place, &mut hand);
        give_hand(&self.turns, place, hand);
        turn
    }

    /// Brings a page back that the writer's last turn took out, and that was run since.
    pub fn writer_back<R: Wait>(
        &self,
        rt: &R,
        seat: &mut WriterSeat<D, T>,
        job: WriteJob<D>,
    ) -> Wrote
        requires table { seat.old.spot.table ≡ self.now }
        requires back { IsBack D.Slot T.opening T.outset.told seat.old.number (sight_in T.first seat.old.spot.knows.seen) job }
        ensures wrote { result ≡ wrote job.failed job.id.name }
        ensures brings { BringsBack D.Slot T.opening T.outset.told T.first job seat.old seat.new }
    {
        let number = seat.number;
        let place = &mut seat.place;
        let mut hand = take_hand(rt, &self.turns, place, number);
        let wrote = hand.take_page::<Among<T>>(job);
        give_hand(&self.turns, place, hand);
        wrote
    }
}

// What there is to do for a writer that has the value in hand.
fn find<D: Slot + Drop, T: Opened>(place: &Place<D, T>, hand: &mut Hand<D>) -> WriterTurn<D>
    requires turn { HasTurn place.now.knows }
    requires writer { IsWriter hand.old.session }
    requires whole { StandsWhole D.Slot T.opening T.outset.told hand.old.trail hand.old.counts hand.old.state }
    ensures { IsFound D.Slot T.opening T.outset.told (is_stopped place.now.knows.seen) hand.old hand.new result }
{
    if place.stopped {
        return WriterTurn::Stopped;
    }
    match hand.send_page::<Among<T>>() {
        None => WriterTurn::Nothing,
        Some(job) => WriterTurn::Write(job),
    }
}
