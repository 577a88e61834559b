//! The atomic steps of a turn, and the two plain ones on the slot.
//!
//! `draw` and `await_turn` wait; the others are one step each. `recall` comes after a join: the seat
//! loads `serving` once more. The load changes nothing, but by the rule it tells that one of the two
//! lists begins the other, and that nothing in between needs a right of the seat with the shorter list.

ghost use Rattle.std.specs.Prelude.{◌≡◌, [], ◌∷◌, ◌++◌, None, Some};
ghost use Rattle.turn_table.specs.Face.{IsAt};
ghost use Rattle.turn_table.specs.Knowledge.{IsIdle, HasTurn, NeedsOnly};
ghost use Rattle.turn_table.specs.Steps.{waiting, Took, Served, Recalled};

use crate::logged::{Adds, Logged};
use crate::rule::{Draw, Look, Recall, Serve, TurnRule};
use crate::view::{Stage, View};
use atomic_table::{Seat, Table};
use std::alloc::Global;
use std::sync::Wait;
use std::thread::yield_now;

// The next number to draw, and the number whose turn it is.
const TICKET: usize = 0;

const SERVING: usize = 1;

// The one slot.
const HOME: usize = 0;

pub(crate) type Board<V> = Table<Option<V>, View<<V as Logged>::Entry>, (), TurnRule, Global>;

pub(crate) type Place<V> = Seat<Option<V>, View<<V as Logged>::Entry>>;

// Draws a ticket, and says which. Where none is left it waits forever.
pub(crate) fn draw<V: Logged, R: Wait>(rt: &R, board: &Board<V>, place: &mut Place<V>) -> u64
    requires table { IsAt place.old.table_id board.now.shared.table_id }
    requires idle { IsIdle place.old.me.0 }
    ensures place { (place.new.table_id ≡ place.old.table_id) × (place.new.id ≡ place.old.id) }
    ensures drawn { place.new.me ≡ (waiting result place.old.me.0, place.old.me.1) }
{
    let mut next = board.shared.peek(TICKET);
    for _ in rt.forever() {
        if next == u64::MAX {
            yield_now();
            continue;
        }
        let found = board
            .shared
            .compare_exchange::<Draw>(place, TICKET, next, next + 1);
        if found == next {
            return next;
        }
        next = found;
    }
    unreachable!()
}

// Looks until the ticket is served, and takes the slot.
pub(crate) fn await_turn<V: Logged, R: Wait>(
    rt: &R,
    board: &Board<V>,
    place: &mut Place<V>,
    ticket: u64,
)
    requires table { IsAt place.old.table_id board.now.shared.table_id }
    requires waits { place.old.me.0.stage ≡ Stage.Waiting ticket }
    requires empty { place.old.me.1 ≡ [] }
    ensures place { (place.new.table_id ≡ place.old.table_id) × (place.new.id ≡ place.old.id) }
    ensures took { Took V.stands V.needs ticket place.old.me place.new.me }
{
    for _ in rt.forever() {
        if board.shared.load::<Look>(place, SERVING) == ticket {
            return;
        }
        yield_now();
    }
    unreachable!()
}

// Moves the value out of the slot, which stays with the seat.
pub(crate) fn take_out<V: Logged>(board: &Board<V>, place: &mut Place<V>) -> V
    requires table { IsAt place.old.table_id board.now.shared.table_id }
    requires held { (value : V) × (place.old.me.1 ≡ (0, Some value) ∷ []) }
    ensures place { (place.new.table_id ≡ place.old.table_id) × (place.new.id ≡ place.old.id) }
    ensures value { place.old.me.1 ≡ (0, Some result) ∷ [] }
    ensures left { place.new.me ≡ (place.old.me.0, (0, None) ∷ []) }
{
    match board.shared.exchange(place, HOME, None) {
        Some(value) => value,
        None => unreachable!(),
    }
}

// Moves the value into the slot.
pub(crate) fn put_in<V: Logged>(board: &Board<V>, place: &mut Place<V>, value: V)
    requires table { IsAt place.old.table_id board.now.shared.table_id }
    requires empty { place.old.me.1 ≡ (0, None) ∷ [] }
    ensures place { (place.new.table_id ≡ place.old.table_id) × (place.new.id ≡ place.old.id) }
    ensures held { place.new.me ≡ (place.old.me.0, (0, Some value) ∷ []) }
{
    let before = board.shared.exchange(place, HOME, Some(value));
    let None = before else { unreachable!() };
}

// Serves the next number and gives the slot back, with entries that this seat adds.
pub(crate) fn serve<V: Logged, N: Adds<V::Entry>>(board: &Board<V>, place: &mut Place<V>)
    requires table { IsAt place.old.table_id board.now.shared.table_id }
    requires turn { HasTurn place.old.me.0 }
    requires value { (value : V) × (place.old.me.1 ≡ (0, Some value) ∷ []) × V.stands value (place.old.me.0.seen ++ N.entries) }
    requires rights { NeedsOnly V.needs place.old.me.0.rights N.entries }
    ensures place { (place.new.table_id ≡ place.old.table_id) × (place.new.id ≡ place.old.id) }
    ensures served { Served N.entries place.old.me place.new.me }
{
    board.shared.fetch_add::<Serve<N>>(place, SERVING, 1);
}

// Loads `serving`, for what the rule then tells of the two lists that met in the last join.
pub(crate) fn recall<V: Logged>(board: &Board<V>, place: &mut Place<V>)
    requires table { IsAt place.old.table_id board.now.shared.table_id }
    requires idle { IsIdle place.old.me.0 }
    ensures place { (place.new.table_id ≡ place.old.table_id) × (place.new.id ≡ place.old.id) }
    ensures recalled { Recalled V.needs place.old.me place.new.me }
{
    board.shared.load::<Recall>(place, SERVING);
}
