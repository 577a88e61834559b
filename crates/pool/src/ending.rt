//! A session goes.
ghost use Rattle.std.specs.Prelude.{◌≡◌, ◌<◌, ◌+◌};
ghost use Rattle.reservation_tree.specs.Tracker.{HasNoChild};
ghost use Rattle.pin_core.specs.StateOf.{state_of};
ghost use Rattle.pin_core.specs.calls.Sessions.{IsSeat, query_of};
ghost use Rattle.turn_table.specs.Lists.{times};
ghost use Rattle.turn_table.specs.Knowledge.{HasTurn};
ghost use Rattle.turn_table.specs.Steps.{grown};
ghost use Rattle.pool.specs.Items.{door, is_stopped};
ghost use Rattle.pool.specs.Seats.{taken_in};
ghost use Rattle.pool.specs.Standing.{StandsAs};
ghost use Rattle.pool.specs.Sitting.{held_by};
ghost use Rattle.pool.specs.Seating.{Ends, ending_items};

use crate::item::Item;
use crate::pass::Pass;
use crate::place::Place;
use crate::seat::SessionSeat;
use crate::shared::Shared;
use outside::Slot;
use pool_model::Event;
use session_calls::{Opened, enter};
use std::marker::Brand;
use std::sync::Wait;
use turn_table::{Adds, TurnSeat, Turns};

// The session's seat is joined to the pass's, which then has both rights that the end needs; and one turn ends it.
pub(crate) fn unseat_session<D: Slot + Drop, T: Opened, R: Wait>(
    rt: &R,
    turns: &Turns<Shared<D, T>>,
    pass: &mut Pass<D, T>,
    seat: SessionSeat<D, T>,
)
    requires table { (pass.old.table ≡ turns.now) × (seat.spot.table ≡ turns.now) }
    requires no_client { (held_by T.opening T.outset.told seat).live_clients ≡ 0 }
    ensures { Ends T.opening seat pass.old pass.new }
{
    let SessionSeat {
        number,
        block_len: _,
        ledger: _,
        spot,
    } = seat;
    let Place {
        seat: left,
        stopped: _,
    } = spot;
    turns.join(&mut pass.seat, left);
    let shared = turns.enter(rt, &mut pass.seat);
    pass.spare = leave_ended::<Brand, D, T>(turns, &mut pass.seat, shared, number);
}

// The session ends, and so does the turn, with its last items, which `N` names. It tells how many slots are spare then.
fn leave_ended<N: Adds<Item>, D: Slot + Drop, T: Opened>(
    turns: &Turns<Shared<D, T>>,
    seat: &mut TurnSeat<Shared<D, T>>,
    mut shared: Shared<D, T>,
    number: u32,
) -> u32
    requires named { N.entries ≡ ending_items (state_of shared.state) number }
    requires table { seat.old.table ≡ turns.now }
    requires turn { HasTurn seat.old.knows }
    requires stands { StandsAs D.Slot T.opening T.outset.told T.first seat.old.knows.seen (record { trail = shared.trail; counts = shared.counts }) shared.state }
    requires stop { shared.stopped ≡ is_stopped seat.old.knows.seen }
    requires live { IsSeat (state_of shared.state) number }
    requires no_client { HasNoChild (state_of shared.state).trackers (query_of (state_of shared.state) number) }
    requires rights { (0 < times door seat.old.knows.rights) × (0 < times number seat.old.knows.rights) }
    ensures table { seat.new.table ≡ turns.now }
    ensures grown { seat.new.knows ≡ grown (ending_items (state_of shared.state) number) seat.old.knows }
    ensures spare { result + taken_in seat.new.knows.seen ≡ T.opening.slots }
{
    let tracker = shared.state.tracker(number);
    let bytes = shared.state.reservation(tracker);
    shared.state.end_session(number);
    enter(
        &mut shared.trail,
        number,
        Event::Decrease { tracker, bytes },
    );
    enter(&mut shared.trail, number, Event::CloseTracker { tracker });
    let spare = shared.state.spare();
    turns.leave::<N>(seat, shared);
    spare
}
