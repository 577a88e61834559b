//! Each session that came gets its seat.
ghost use Rattle.std.specs.Prelude.{◌≡◌, ◌<◌, ◌≤◌, [], Some, length, map, vec_capacity};
ghost use Rattle.std.specs.List.{All};
ghost use Rattle.std.specs.Option.{ForSome};
ghost use Rattle.block_arena.specs.Blocks.{IsBlockLen};
ghost use Rattle.turn_table.specs.Lists.{times};
ghost use Rattle.turn_table.specs.Knowledge.{IsFirst, IsIdle};
ghost use Rattle.turn_table.specs.Steps.{parted};
ghost use Rattle.pool.specs.Asking.{all_numbers, answer_of};
ghost use Rattle.pool.specs.Admitting.{numbered};
ghost use Rattle.pool.specs.Rooms.{IsRoom};
ghost use Rattle.pool.specs.Parting.{AreComing, AreSeats, CanHand, IsComing, IsSeatOf, SeatsOf, handed_out};

use crate::accounts::ClientAccounts;
use crate::ask::Ask;
use crate::at_gate::AtGate;
use crate::ledger::Ledger;
use crate::named::Named;
use crate::place::Place;
use crate::rooms::{Room, close_room};
use crate::seat::SessionSeat;
use crate::session::Session;
use crate::shared::Shared;
use outside::Slot;
use reservation_tree::PoolErr;
use session_calls::Opened;
use std::marker::PhantomData;
use std::sync::Wait;
use turn_table::{TurnSeat, Turns};

// The session of this number gets its seat, and the number's right.
fn part_one<'a, D: Slot + Drop, R: Wait, T: Opened, N: Opened>(
    rt: &'a R,
    turns: &'a Turns<Shared<D, T>>,
    seat: &mut TurnSeat<Shared<D, T>>,
    block_len: u32,
    ask: &Ask,
    number: u32,
    accounts: ClientAccounts,
) -> Session<'a, D, R, T, N>
    requires power { IsBlockLen block_len × (block_len ≡ T.opening.block_len) }
    requires none { accounts ≡ [] }
    requires named { ForSome N.table (λ table. turns.now ≡ table) }
    requires table { seat.old.table ≡ turns.now }
    requires first { IsIdle seat.old.knows × IsFirst seat.old.knows }
    requires right { 0 < times number seat.old.knows.rights }
    requires coming { IsComing T.opening T.outset.told seat.old.knows.seen ask.now number }
    ensures table { seat.new.table ≡ turns.now }
    ensures parted { seat.new.knows ≡ parted (Some number) seat.old.knows }
    ensures seat { IsSeatOf turns.now seat.old.knows.seen number result.seat }
{
    let left = turns.split(seat, Some(number));
    let spot = Place {
        seat: left,
        stopped: false,
    };
    let ledger = Ledger {
        room: ask.least,
        accounts,
    };
    let seat = SessionSeat {
        number,
        block_len,
        ledger,
        spot,
    };
    seat.law_whole();
    Session {
        rt,
        turns,
        at: AtGate::open(),
        seat,
        named: Named { names: PhantomData },
    }
}

// Each session of an ask gets its seat.
fn part_ask<'a, D: Slot + Drop, R: Wait, T: Opened, N: Opened>(
    rt: &'a R,
    turns: &'a Turns<Shared<D, T>>,
    seat: &mut TurnSeat<Shared<D, T>>,
    block_len: u32,
    ask: &Ask,
    numbers: &[u32],
    room: Room<Session<'a, D, R, T, N>>,
) -> Vec<Session<'a, D, R, T, N>>
    requires power { IsBlockLen block_len × (block_len ≡ T.opening.block_len) }
    requires named { ForSome N.table (λ table. turns.now ≡ table) }
    requires table { seat.old.table ≡ turns.now }
    requires first { IsIdle seat.old.knows × IsFirst seat.old.knows }
    requires hand { CanHand numbers.now seat.old.knows.rights }
    requires coming { All (IsComing T.opening T.outset.told seat.old.knows.seen ask.now) numbers.now }
    requires room { IsRoom (length numbers.now) room }
    ensures table { seat.new.table ≡ turns.now }
    ensures knows { seat.new.knows ≡ handed_out numbers.now seat.old.knows }
    ensures seats { SeatsOf turns.now seat.old.knows.seen numbers.now (map (λ s. s.seat) result.items) }
{
    let Room {
        mut accounts,
        mut sessions,
    } = room;
    for number in numbers {
        let accounts = accounts.pop().unwrap();
        let session = part_one(rt, turns, seat, block_len, ask, *number, accounts);
        sessions.push_reserved(session);
    }
    sessions
}

// The sessions of each ask get their seats.
pub(crate) fn part_all<'a, D: Slot + Drop, R: Wait, T: Opened, N: Opened>(
    rt: &'a R,
    turns: &'a Turns<Shared<D, T>>,
    seat: &mut TurnSeat<Shared<D, T>>,
    block_len: u32,
    asks: &[Ask],
    numbers: &[Result<Vec<u32>, PoolErr>],
    mut rooms: Vec<Room<Session<'a, D, R, T, N>>>,
    mut answers: Vec<Result<Vec<Session<'a, D, R, T, N>>, PoolErr>>,
) -> Vec<Result<Vec<Session<'a, D, R, T, N>>, PoolErr>>
    requires power { IsBlockLen block_len × (block_len ≡ T.opening.block_len) }
    requires named { ForSome N.table (λ table. turns.now ≡ table) }
    requires table { seat.old.table ≡ turns.now }
    requires first { IsIdle seat.old.knows × IsFirst seat.old.knows }
    requires hand { CanHand (all_numbers (map numbered numbers.now)) seat.old.knows.rights }
    requires coming { AreComing T.opening T.outset.told seat.old.knows.seen asks.now (map numbered numbers.now) rooms.items }
    requires none { answers.items ≡ [] }
    requires room { length asks.now ≤ vec_capacity answers }
    ensures table { seat.new.table ≡ turns.now }
    ensures knows { seat.new.knows ≡ handed_out (all_numbers (map numbered numbers.now)) seat.old.knows }
    ensures seats { AreSeats turns.now seat.old.knows.seen (map numbered numbers.now) (map (answer_of (λ v. v.items) (λ s. s.seat)) result.items) }
{
    for i in 0..asks.len() {
        let room = rooms.pop().unwrap();
        let answer = match &numbers[i] {
            Ok(numbers) => Ok(part_ask(rt, turns, seat, block_len, &asks[i], numbers, room)),
            Err(refusal) => {
                close_room(room);
                Err(*refusal)
            }
        };
        answers.push_reserved(answer);
    }
    rooms.destroy_empty();
    answers
}
