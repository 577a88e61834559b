//! A session's way to the pool's value: its turn.
use crate::at_gate::Points;
use crate::holding::{give_hand, take_hand};
use crate::place::Place;
use crate::shared::Shared;
use outside::{Point, Slot};
use session_calls::{Access, Hand, Opened};
use std::sync::Wait;
use turn_table::Turns;

// The turn lock, the runtime that lets a session wait for its turn, and what it passes in a job.
#[derive(Clone, Copy)]
pub(crate) struct Lock<'a, D: Slot, R: Wait, P: Points, T: Opened> {
    pub(crate) rt: &'a R,
    pub(crate) turns: &'a Turns<Shared<D, T>>,
    pub(crate) at: &'a P,
}

impl<'a, D: Slot + Drop, R: Wait, P: Points, T: Opened> Access<D> for Lock<'a, D, R, P, T> {
    ghost use Rattle.std.specs.Prelude.{◌≡◌, false, true};
    ghost use Rattle.session_calls.specs.Having.{MayGive, Taken, sight_of};
    ghost use Rattle.session_calls.specs.declared.hand.Hand.{Hand};
    ghost use Rattle.pool.specs.Items.{sight_in};
    ghost use Rattle.pool.specs.Locking.{RestsThere, TurnsThere, never_alone};

    type Place = Place<D, T>;

    ghost alone = { false };

    ghost seen = { λ spot. sight_in T.first spot.knows.seen };

    // Others may have it.
    ghost kept = { λ spot hand. Unit {0} };

    ghost rests = { λ o u lock spot m. RestsThere T.opening T.outset.told o u lock.turns.now spot m };

    ghost turns = { λ o u lock spot m. TurnsThere T.opening T.outset.told o u lock.turns.now spot m };

    ghost sole = { λ o u lock spot m turns never. never_alone never };

    fn take<O: Opened>(&self, place: &mut Place<D, T>, session: u32) -> Hand<D>
        requires { RestsThere T.opening T.outset.told O.opening O.outset self.now.turns.now place.old session }
        ensures turns { TurnsThere T.opening T.outset.told O.opening O.outset self.now.turns.now place.new session }
        ensures taken { Taken D.Slot O.opening O.outset.told session (sight_in T.first place.old.knows.seen) (sight_in T.first place.new.knows.seen) result }
        ensures kept { false ≡ true → (hand : Hand D) → Unit {0} → result ≡ hand }
    {
        take_hand(self.rt, self.turns, place, session)
    }

    fn give<O: Opened>(&self, place: &mut Place<D, T>, hand: Hand<D>)
        requires turns { TurnsThere T.opening T.outset.told O.opening O.outset self.now.turns.now place.old hand.session }
        requires may { MayGive D.Slot O.opening O.outset.told (sight_in T.first place.old.knows.seen) hand }
        ensures rests { RestsThere T.opening T.outset.told O.opening O.outset self.now.turns.now place.new hand.session }
        ensures seen { sight_in T.first place.new.knows.seen ≡ sight_of hand }
        ensures kept { false ≡ true → Unit {0} }
    {
        give_hand(self.turns, place, hand);
    }

    fn pass(&self, point: Point) {
        self.at.pass(point);
    }

    // No run takes so many turns that none is left; one that did would stay here.
    fn again(&self, left: u64) -> u64 {
        if left == 0 {
            for _ in self.rt.forever() {}
            unreachable!()
        }
        left - 1
    }
}
