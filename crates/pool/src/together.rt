//! Sessions are let in together.
ghost use Rattle.std.specs.Prelude.{◌≡◌, ◌≤◌, ◌+◌, [], IfOk, length, map, vec_capacity};
ghost use Rattle.std.specs.List.{All};
ghost use Rattle.std.specs.Option.{ForSome};
ghost use Rattle.block_arena.specs.Blocks.{IsBlockLen};
ghost use Rattle.pool.specs.Seats.{live_in, taken_in};
ghost use Rattle.pool.specs.Remaining.{all_left, quotas_of, refusals};
ghost use Rattle.pool.specs.Asking.{Admits, answer_of, refusal_in};
ghost use Rattle.pool.specs.Admitting.{AreSlates};
ghost use Rattle.pool.specs.Rooms.{AreRooms};

use crate::admitting::{admit_all, leave_admitted};
use crate::ask::Ask;
use crate::parting::part_all;
use crate::pass::Pass;
use crate::rooms::Room;
use crate::session::Session;
use crate::shared::Shared;
use outside::Slot;
use reservation_tree::PoolErr;
use session_calls::Opened;
use std::marker::Brand;
use std::sync::Wait;
use turn_table::Turns;

// One turn of the pass: each ask is answered after those before it. Then each session that came gets its seat.
pub(crate) fn seat_sessions<'a, D: Slot + Drop, R: Wait, T: Opened, N: Opened>(
    rt: &'a R,
    turns: &'a Turns<Shared<D, T>>,
    pass: &mut Pass<D, T>,
    block_len: u32,
    asks: &[Ask],
    slates: Vec<Vec<u32>>,
    numbers: Vec<Result<Vec<u32>, PoolErr>>,
    rooms: Vec<Room<Session<'a, D, R, T, N>>>,
    answers: Vec<Result<Vec<Session<'a, D, R, T, N>>, PoolErr>>,
) -> Vec<Result<Vec<Session<'a, D, R, T, N>>, PoolErr>>
    requires power { IsBlockLen block_len × (block_len ≡ T.opening.block_len) }
    requires named { ForSome N.table (λ table. turns.now ≡ table) }
    requires table { pass.old.table ≡ turns.now }
    requires some { All (λ ask. 1 ≤ ask.count) asks.now }
    requires spare { quotas_of asks.now + taken_in pass.old.knows.seen ≤ T.opening.slots }
    requires slates { AreSlates asks.now slates.items }
    requires rooms { AreRooms asks.now rooms.items }
    requires none { (numbers.items ≡ []) × (answers.items ≡ []) }
    requires room { (length asks.now ≤ vec_capacity numbers) × (length asks.now ≤ vec_capacity answers) }
    ensures admits { Admits T.opening T.outset.told asks.now pass.old pass.new (map (answer_of (λ v. v.items) (λ s. s.seat)) result.items) }
    ensures fresh { live_in pass.old.knows.seen ≡ 0 → map refusal_in (map (answer_of (λ v. v.items) (λ s. s.seat)) result.items) ≡ refusals asks.now (all_left T.opening) }
{
    let mut shared = turns.enter(rt, &mut pass.seat);
    shared.state.parts();
    let numbers = admit_all(&mut shared, asks, slates, numbers);
    pass.spare = shared.state.spare();
    leave_admitted::<Brand, D, T>(turns, &mut pass.seat, shared);
    part_all(
        rt,
        turns,
        &mut pass.seat,
        block_len,
        asks,
        &numbers,
        rooms,
        answers,
    )
}
