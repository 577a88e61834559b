//! Who stands at the turn lock takes the pool's value in hand, and gives it back.
ghost use Rattle.std.specs.Prelude.{◌≡◌};
ghost use Rattle.turn_table.specs.Knowledge.{HasTurn, IsIdle};
ghost use Rattle.turn_table.specs.Steps.{grown};
ghost use Rattle.session_calls.specs.Having.{sight_of};
ghost use Rattle.pool.specs.Items.{is_stopped};
ghost use Rattle.pool.specs.Taking.{Gives, Takes, made_since};

use crate::item::Item;
use crate::place::Place;
use crate::shared::Shared;
use outside::Slot;
use session_calls::{Hand, Opened};
use std::marker::{Brand, PhantomData};
use std::sync::Wait;
use turn_table::{Adds, TurnSeat, Turns};

// Waits for its turn, and takes the value for the session or the writer of this number.
pub(crate) fn take_hand<D: Slot + Drop, T: Opened, R: Wait>(
    rt: &R,
    turns: &Turns<Shared<D, T>>,
    place: &mut Place<D, T>,
    number: u32,
) -> Hand<D>
    requires table { place.old.table ≡ turns.now }
    requires idle { IsIdle place.old.knows }
    ensures table { place.new.table ≡ turns.now }
    ensures takes { Takes D.Slot T.opening T.outset.told T.first number place.old place.new result }
{
    let Shared {
        state,
        trail,
        counts,
        gone,
        stopped,
        first: _,
    } = turns.enter(rt, &mut place.seat);
    place.stopped = stopped;
    Hand {
        state,
        trail,
        counts,
        session: number,
        gone,
    }
}

// Ends the turn, with what was entered in it.
pub(crate) fn give_hand<D: Slot + Drop, T: Opened>(
    turns: &Turns<Shared<D, T>>,
    place: &mut Place<D, T>,
    hand: Hand<D>,
)
    requires table { place.old.table ≡ turns.now }
    requires turn { HasTurn place.old.knows }
    requires gives { Gives D.Slot T.opening T.outset.told T.first place.old hand }
    ensures table { place.new.table ≡ turns.now }
    ensures grown { place.new.knows ≡ grown (made_since hand.session place.old.knows.seen (sight_of hand)) place.old.knows }
{
    let Hand {
        state,
        trail,
        counts,
        session,
        gone,
    } = hand;
    let shared = Shared {
        state,
        trail,
        counts,
        gone,
        stopped: place.stopped,
        first: PhantomData,
    };
    leave_made::<Brand, D, T>(turns, &mut place.seat, shared, session);
}

// `N` names what came behind that which the seat has seen.
fn leave_made<N: Adds<Item>, D: Slot + Drop, T: Opened>(
    turns: &Turns<Shared<D, T>>,
    seat: &mut TurnSeat<Shared<D, T>>,
    shared: Shared<D, T>,
    _session: u32,
)
    requires named { N.entries ≡ made_since _session seat.old.knows.seen (record { trail = shared.trail; counts = shared.counts }) }
    requires table { seat.old.table ≡ turns.now }
    requires turn { HasTurn seat.old.knows }
    requires stop { shared.stopped ≡ is_stopped seat.old.knows.seen }
    requires gives { Gives D.Slot T.opening T.outset.told T.first seat.old (record { state = shared.state; trail = shared.trail; counts = shared.counts; session = _session; gone = shared.gone }) }
    ensures table { seat.new.table ≡ turns.now }
    ensures grown { seat.new.knows ≡ grown (made_since _session seat.old.knows.seen (record { trail = shared.trail; counts = shared.counts })) seat.old.knows }
{
    // The pool's laws tell how many slots are spare.
    shared.state.parts();
    turns.leave::<N>(seat, shared);
}
