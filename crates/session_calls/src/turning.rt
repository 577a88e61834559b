//! One turn of a call that wants room of a client.
ghost use Rattle.std.specs.Prelude.{◌≡◌, ◌≤◌, ◌++◌, ◌∷◌, [], true};
ghost use Rattle.pool_model.specs.declared.event.Event.TheVariants as event;
ghost use Rattle.pin_core.specs.calls.Turns.{amount_of};
ghost use Rattle.store_api.specs.Holdings.{unused_of};
ghost use Rattle.store_api.specs.Conditions.{IsLiveClient};
ghost use Rattle.session_calls.specs.Acting.{held_by};
ghost use Rattle.session_calls.specs.Having.{IsAtWork};
ghost use Rattle.session_calls.specs.Jobs.{DoesIn};
ghost use Rattle.session_calls.specs.Needing.{EntersNeeded};
ghost use Rattle.session_calls.specs.Turning.{GoesFurther, TurnIs};

use crate::access::Access;
use crate::count::count_write;
use crate::entering::enter;
use crate::hand::Hand;
use crate::jobs::write_out;
use crate::log::Log;
use crate::opened::Opened;
use outside::Slot;
use pin_core::{RoomTurn, Want, WriteJob};
use pool_model::Event;
use std::thread::yield_now;
use store_api::Client;

/// What became of one turn.
#[derive(Clone, Copy, Debug, PartialEq, Eq)]
pub enum Turn {
    /// There is room.
    Ready,
    /// A write or a read of a page of the client failed since the call began. The number is that of its entry.
    Refused { entry: u64 },
    /// A page was written, or a store of it failed.
    Wrote,
    /// A page of the client is in flight, and the value was given back and taken again.
    Waited,
}

// The first that applies: there is room; a failure refuses the call; the client's newest dirty page is written; one of
// its pages that is in flight is waited for.
pub(crate) fn room_turn<O: Opened, A: Access<D>, D: Slot + Drop>(
    access: &A,
    place: &mut A::Place,
    mut hand: Hand<D>,
    c: &Client,
    want: Want,
) -> (Hand<D>, Turn)
    requires turns { A.turns O.opening O.outset access.now place.old hand.session }
    requires at_work { IsAtWork D.Slot O.opening O.outset (A.seen place.old) hand }
    requires client { IsLiveClient c.now (held_by O.opening O.outset hand) }
    requires unused { amount_of want ≤ unused_of c.now.tracker (held_by O.opening O.outset hand) }
    ensures turns { A.turns O.opening O.outset access.now place.new result.0.session }
    ensures at_work { IsAtWork D.Slot O.opening O.outset (A.seen place.new) result.0 }
    ensures turn { TurnIs O.opening O.outset c.now.tracker (amount_of want) result.1 hand result.0 }
    ensures needed { EntersNeeded c.now.tracker (amount_of want) hand result.0 }
    ensures further { A.alone ≡ true → GoesFurther c.now.tracker result.1 hand result.0 }
{
    match hand.state.room_turn(hand.session, 0, c, want) {
        RoomTurn::Ready => (hand, Turn::Ready),
        RoomTurn::Refused { entry } => (hand, Turn::Refused { entry }),
        RoomTurn::Write(job) => {
            enter_started(&mut hand.trail, hand.session, &job);
            count_write(&mut hand.counts, &job);
            (write_out::<O, A, D>(access, place, hand, job), Turn::Wrote)
        }
        RoomTurn::Wait => (wait::<O, A, D>(access, place, hand), Turn::Waited),
    }
}

// The value is given back, and taken again.
pub(crate) fn wait<O: Opened, A: Access<D>, D: Slot + Drop>(
    access: &A,
    place: &mut A::Place,
    hand: Hand<D>,
) -> Hand<D>
    requires turns { A.turns O.opening O.outset access.now place.old hand.session }
    requires at_work { IsAtWork D.Slot O.opening O.outset (A.seen place.old) hand }
    ensures turns { A.turns O.opening O.outset access.now place.new result.session }
    ensures at_work { IsAtWork D.Slot O.opening O.outset (A.seen place.new) result }
    ensures waited { DoesIn (λ events. events ≡ []) hand result }
    ensures same { A.alone ≡ true → result ≡ hand }
{
    let session = hand.session;
    access.give::<O>(place, hand);
    yield_now();
    access.take::<O>(place, session)
}

// The session began to write the page of this job.
#[inline]
pub(crate) fn enter_started<D>(trail: &mut Log, session: u32, job: &WriteJob<D>)
    ensures { trail.new ≡ trail.old ++ record { maker = session; event = event.StartWrite job.now.id.name } ∷ [] }
{
    let page = job.id.name;
    enter(trail, session, Event::StartWrite { page });
}
