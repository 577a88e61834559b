//! The lock itself: seats enter and leave, one after the other.

ghost use Rattle.std.specs.Prelude.{◌≡◌, ℕ, ◌≤◌, List, [], ◌++◌, IfOk, IfErr, IsSome, Some};
ghost use Rattle.atomic_table.specs.Seated.{TableId};
ghost use Rattle.turn_table.specs.Lists.{times, IsAmong};
ghost use Rattle.turn_table.specs.Knowledge.{IsIdle, HasTurn, IsFirst, IsAlone, MadeWithin, NeedsOnly, GrewBeside};
ghost use Rattle.turn_table.specs.Steps.{opened, taking, grown, parted, newcomer, joined};

use crate::logged::{Adds, Hands, Logged};
use crate::memory::Memory;
use crate::rule::{Meet, Part};
use crate::seat::TurnSeat;
use crate::steps::{Board, await_turn, draw, put_in, recall, serve, take_out};
use atomic_table::{Refused, Table};
use std::alloc::{AllocFailed, Global};
use std::marker::{Brand, Model};
use std::sync::Wait;

/// One value that is handed to one seat at a time, in the order of tickets.
///
/// Contracts see which table it is. It can't be let go: it ends by `close`.
pub struct Turns<V: Logged> {
    board: Board<V>,
}

impl<V: Logged> Model for Turns<V> {
    ghost Value = { TableId };

    ghost view = { λ t. t.board.shared.table_id };

    ghost invariant = { λ t. (t.board.shared.table_id.words ≡ 2) × (t.board.shared.table_id.slots ≡ 1) };
}

impl<V: Logged> Turns<V> {
    /// A lock with the value at home, and its first seat. The value comes back where no memory is left.
    pub fn with(alloc: Global, value: V) -> Result<(Turns<V>, TurnSeat<V>), (V, Memory)>
        requires stands { V.stands value [] }
        requires rights { (r : ℕ) → times r V.rights ≤ 1 }
        ensures ok { IfOk result (λ t. (t.1.table ≡ t.0) × (t.1.knows ≡ opened V.rights)) }
        ensures err { IfErr result (λ e. e.0 ≡ value) }
    {
        let mut slots = Vec::new(alloc);
        if let Err(AllocFailed { value }) = slots.push(Some(value)) {
            slots.destroy_empty();
            return Err((given(value), Memory));
        }
        match Table::new(alloc, &[0, 0], slots, &()) {
            Ok((board, place)) => Ok((Turns { board }, TurnSeat { place })),
            Err(Refused { mut slots }) => {
                let value = slots.pop();
                slots.destroy_empty();
                Err((given(given(value)), Memory))
            }
        }
    }

    /// Waits for the seat's turn, and takes the value.
    pub fn enter<R: Wait>(&self, rt: &R, seat: &mut TurnSeat<V>) -> V
        requires table { seat.old.table ≡ self.now }
        requires idle { IsIdle seat.old.knows }
        ensures table { seat.new.table ≡ self.now }
        ensures turn { HasTurn seat.new.knows }
        ensures kept { (t : ℕ) × (seat.new.knows ≡ taking t seat.new.knows.seen seat.old.knows) }

        // The value stands for one list, which begins with all that the seat had seen.
        ensures stands { V.stands result seat.new.knows.seen }
        ensures seen { GrewBeside V.needs seat.old.knows.rights seat.old.knows.seen seat.new.knows.seen }
        ensures made { MadeWithin seat.new.knows.made seat.new.knows.seen }
    {
        let board = &self.board;
        let place = &mut seat.place;
        let ticket = draw(rt, board, place);
        await_turn(rt, board, place, ticket);
        take_out(board, place)
    }

    /// Gives the value back and ends the turn. The value stands for what the seat has seen, with new entries behind.
    ///
    /// `N` names the new entries, for contracts alone.
    pub fn leave<N: Adds<V::Entry>>(&self, seat: &mut TurnSeat<V>, value: V)
        requires table { seat.old.table ≡ self.now }
        requires turn { HasTurn seat.old.knows }
        requires stands { V.stands value (seat.old.knows.seen ++ N.entries) }
        requires rights { NeedsOnly V.needs seat.old.knows.rights N.entries }
        ensures table { seat.new.table ≡ self.now }
        ensures grown { seat.new.knows ≡ grown N.entries seat.old.knows }
        ensures made { MadeWithin seat.new.knows.made seat.new.knows.seen }
    {
        let board = &self.board;
        let place = &mut seat.place;
        put_in(board, place, value);
        serve::<V, N>(board, place);
    }

    /// Splits a seat off the first one, and hands it a right of that one's, if any.
    pub fn split(&self, seat: &mut TurnSeat<V>, right: Option<u32>) -> TurnSeat<V>
        requires table { seat.old.table ≡ self.now }
        requires idle { IsIdle seat.old.knows }
        requires first { IsFirst seat.old.knows }
        requires among { IsAmong right seat.old.knows.rights }
        ensures table { (seat.new.table ≡ self.now) × (result.table ≡ self.now) }
        ensures parted { seat.new.knows ≡ parted right seat.old.knows }
        ensures newcomer { result.knows ≡ newcomer right seat.old.knows }
    {
        self.split_by::<Brand>(seat, right)
    }

    fn split_by<H: Hands>(&self, seat: &mut TurnSeat<V>, _right: Option<u32>) -> TurnSeat<V>
        requires named { H.right ≡ _right }
        requires table { seat.old.table ≡ self.now }
        requires idle { IsIdle seat.old.knows }
        requires first { IsFirst seat.old.knows }
        requires among { IsAmong _right seat.old.knows.rights }
        ensures table { (seat.new.table ≡ self.now) × (result.table ≡ self.now) }
        ensures parted { seat.new.knows ≡ parted _right seat.old.knows }
        ensures newcomer { result.knows ≡ newcomer _right seat.old.knows }
    {
        let board = &self.board;
        let place = board.shared.split_seat::<Part<H>>(&mut seat.place);
        TurnSeat { place }
    }

    /// Joins a seat to the first one, which gets its rights and what it has seen.
    pub fn join(&self, seat: &mut TurnSeat<V>, other: TurnSeat<V>)
        requires table { (seat.old.table ≡ self.now) × (other.table ≡ self.now) }
        requires idle { IsIdle seat.old.knows × IsIdle other.knows }
        requires first { IsFirst seat.old.knows }
        ensures table { seat.new.table ≡ self.now }
        ensures joined { seat.new.knows ≡ joined seat.old.knows other.knows }

        // What either seat has seen begins what the first seat has seen now, and behind that stands nothing that needs a right which that seat had.
        ensures seen { GrewBeside V.needs seat.old.knows.rights seat.old.knows.seen seat.new.knows.seen }
        ensures other { GrewBeside V.needs other.knows.rights other.knows.seen seat.new.knows.seen }
    {
        let board = &self.board;
        let place = &mut seat.place;
        let TurnSeat { place: gone } = other;
        board.shared.join_seat::<Meet>(place, gone);
        recall(board, place);
    }

    /// Ends the lock with its last seat, and gives the value.
    pub fn close(self, seat: TurnSeat<V>) -> V
        requires table { seat.table ≡ self }
        requires idle { IsIdle seat.knows }
        requires alone { IsAlone seat.knows }
        ensures { (log : List V.Entry) × GrewBeside V.needs seat.knows.rights seat.knows.seen log × V.stands result log }
    {
        let Turns { board } = self;
        let TurnSeat { place } = seat;
        let mut closed = board.close_with(place);
        let value = closed.take(0);
        closed.free();
        given(value)
    }
}

// What is known to be there.
fn given<T>(value: Option<T>) -> T
    requires { IsSome value }
    ensures { value ≡ Some result }
{
    match value {
        Some(value) => value,
        None => unreachable!(),
    }
}
