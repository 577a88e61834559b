//! Sessions come together, each as its ask wants it, in one turn of the pass.
ghost use Rattle.std.specs.Prelude.{◌≡◌, ◌≤◌, ◌<◌, ◌++◌, [], ◌∷◌, None, List, length, map, vec_capacity};
ghost use Rattle.pin_core.specs.StateOf.{state_of};
ghost use Rattle.pin_core.specs.calls.Sessions.{query_of};
ghost use Rattle.pin_core.specs.calls.Opening.{opening_entries, spare_of};
ghost use Rattle.turn_table.specs.Knowledge.{HasTurn, NeedsOnly};
ghost use Rattle.turn_table.specs.Steps.{grown};
ghost use Rattle.pool.specs.Items.{is_stopped, needs_of};
ghost use Rattle.pool.specs.Standing.{StandsAs};
ghost use Rattle.pool.specs.Seating.{MustTurnAway};
ghost use Rattle.pool.specs.Remaining.{first_refusal, left_in, quotas_of};
ghost use Rattle.pool.specs.Admitting.{AdmittedAll, AdmittedBy, AreSlates, HasItems, Opens, items_since, numbered};

use crate::ask::Ask;
use crate::item::Item;
use crate::left::{left_of, refusal_of};
use crate::shared::Shared;
use outside::Slot;
use pool_model::Event;
use reservation_tree::{PoolErr, TrackerId};
use session_calls::{Opened, enter};
use turn_table::{Adds, TurnSeat, Turns};

// A session comes that nothing is against. It tells its number.
pub(crate) fn admit<D: Slot + Drop, T: Opened>(
    shared: &mut Shared<D, T>,
    limit: u64,
    quota: u32,
    least: u64,
) -> u32
    requires granted { MustTurnAway (state_of shared.old.state) limit least → ⊥ }
    requires spare { quota ≤ spare_of shared.old.state }
    ensures counts { (shared.new.counts ≡ shared.old.counts) × (shared.new.stopped ≡ shared.old.stopped) }
    ensures opens { Opens D.Slot limit quota least result shared.old.state shared.new.state }
    ensures trail { shared.new.trail ≡ shared.old.trail ++ opening_entries result (query_of (state_of shared.new.state) result) limit quota least }
{
    let number = shared.state.open_session(limit, quota, least).unwrap();
    let tracker = shared.state.tracker(number);
    let came = Event::AddTracker {
        tracker,
        parent: TrackerId::of(0),
        limit,
        quota: Some(quota),
    };
    enter(&mut shared.trail, number, came);
    let got = Event::Increase {
        tracker,
        bytes: least,
    };
    enter(&mut shared.trail, number, got);
    number
}

// All sessions of an ask come. It tells their numbers, for which there is room.
fn admit_ask<D: Slot + Drop, T: Opened>(
    shared: &mut Shared<D, T>,
    ask: &Ask,
    mut numbers: Vec<u32>,
) -> Vec<u32>
    requires stands { HasItems D.Slot T.opening T.outset.told T.first (record { trail = shared.old.trail; counts = shared.old.counts }) shared.old.state }
    requires granted { first_refusal ask.now.count ask.now (left_in (state_of shared.old.state)) ≡ None }
    requires spare { quotas_of (ask.now ∷ []) ≤ spare_of shared.old.state }
    requires none { numbers.items ≡ [] }
    requires room { ask.now.count ≤ vec_capacity numbers }
    ensures stop { shared.new.stopped ≡ shared.old.stopped }
    ensures admits { (before : List Item) → StandsAs D.Slot T.opening T.outset.told T.first before (record { trail = shared.old.trail; counts = shared.old.counts }) shared.old.state → AdmittedBy D.Slot T.opening T.outset.told T.first ask.now before result.items shared.old.state (record { trail = shared.new.trail; counts = shared.new.counts }) shared.new.state }
{
    for _i in 0..ask.count {
        let number = admit(shared, ask.limit, ask.quota, ask.least);
        numbers.push_reserved(number);
    }
    numbers
}

// Each ask is answered after those before it, with the numbers of its sessions or with why not.
pub(crate) fn admit_all<D: Slot + Drop, T: Opened>(
    shared: &mut Shared<D, T>,
    asks: &[Ask],
    mut slates: Vec<Vec<u32>>,
    mut answers: Vec<Result<Vec<u32>, PoolErr>>,
) -> Vec<Result<Vec<u32>, PoolErr>>
    requires stands { HasItems D.Slot T.opening T.outset.told T.first (record { trail = shared.old.trail; counts = shared.old.counts }) shared.old.state }
    requires spare { quotas_of asks.now ≤ spare_of shared.old.state }
    requires slates { AreSlates asks.now slates.items }
    requires none { answers.items ≡ [] }
    requires room { length asks.now ≤ vec_capacity answers }
    ensures stop { shared.new.stopped ≡ shared.old.stopped }
    ensures admits { (before : List Item) → StandsAs D.Slot T.opening T.outset.told T.first before (record { trail = shared.old.trail; counts = shared.old.counts }) shared.old.state → AdmittedAll D.Slot T.opening T.outset.told T.first asks.now before (map numbered result.items) shared.old.state (record { trail = shared.new.trail; counts = shared.new.counts }) shared.new.state }
{
    for ask in asks {
        let slate = slates.pop().unwrap();
        let answer = match refusal_of(ask, left_of(&shared.state)) {
            Some(refusal) => Err(refusal),
            None => Ok(admit_ask(shared, ask, slate)),
        };
        answers.push_reserved(answer);
    }
    answers
}

// The turn ends with the first items of the sessions that came, which `N` names.
pub(crate) fn leave_admitted<N: Adds<Item>, D: Slot + Drop, T: Opened>(
    turns: &Turns<Shared<D, T>>,
    seat: &mut TurnSeat<Shared<D, T>>,
    shared: Shared<D, T>,
)
    requires named { N.entries ≡ items_since seat.old.knows.seen shared.trail }
    requires table { seat.old.table ≡ turns.now }
    requires turn { HasTurn seat.old.knows }
    requires stands { StandsAs D.Slot T.opening T.outset.told T.first (seat.old.knows.seen ++ items_since seat.old.knows.seen shared.trail) (record { trail = shared.trail; counts = shared.counts }) shared.state }
    requires stop { shared.stopped ≡ is_stopped seat.old.knows.seen }
    requires rights { NeedsOnly needs_of seat.old.knows.rights (items_since seat.old.knows.seen shared.trail) }
    ensures table { seat.new.table ≡ turns.now }
    ensures grown { seat.new.knows ≡ grown (items_since seat.old.knows.seen shared.trail) seat.old.knows }
{
    turns.leave::<N>(seat, shared);
}
