//! Worked rows of the lock: one seat after the other, two threads, and one owner.

ghost use Rattle.std.specs.Prelude.{◌≡◌};
ghost use Rattle.turn_table.specs.Knowledge.{IsIdle};

mod ledger;

use crate::{Solo, TurnSeat, Turns};
use std::marker::Brand;
use std::sync::Wait;
use std::test::Fail;
use std::thread::join_mut;

#[test]
fn a_number_goes_from_seat_to_seat(rt: HostRuntime) -> Result<(), Fail> {
    let (turns, mut first) = Turns::with(rt.alloc(), 0u64).map_err(|(_, memory)| memory)?;
    let before = turns.enter(&rt, &mut first);
    turns.leave::<Brand>(&mut first, 5);
    let mut second = turns.split(&mut first, None);
    let found = turns.enter(&rt, &mut second);
    turns.leave::<Brand>(&mut second, found);
    turns.join(&mut first, second);
    let last = turns.close(first);
    assert_eq!(rt; (before, found, last), (0, 5, 5));
    Ok(())
}

#[test]
fn two_threads_add_a_thousand_each(rt: HostRuntime) -> Result<(), Fail> {
    let (turns, mut first) = Turns::with(rt.alloc(), 0u64).map_err(|(_, memory)| memory)?;
    let mut second = turns.split(&mut first, None);
    join_mut(
        &rt,
        &mut || add_a_thousand(&rt, &turns, &mut first),
        &mut || add_a_thousand(&rt, &turns, &mut second),
    );
    turns.join(&mut first, second);
    assert_eq!(rt; turns.close(first), 2000);
    Ok(())
}

// A thousand turns, each of which adds one.
fn add_a_thousand<R: Wait>(rt: &R, turns: &Turns<u64>, seat: &mut TurnSeat<u64>)
    requires table { seat.old.table ≡ turns.now }
    requires idle { IsIdle seat.old.knows }
    ensures table { seat.new.table ≡ turns.now }
    ensures idle { IsIdle seat.new.knows }
    ensures role { seat.new.knows.role ≡ seat.old.knows.role }
{
    for _ in 0..1000u32 {
        let number = turns.enter(rt, seat);
        turns.leave::<Brand>(seat, number.wrapping_add(1));
    }
}

#[test]
fn one_owner_ticks(rt: HostRuntime) -> Result<(), Fail> {
    let mut trail = Solo::<u64>::open(rt.alloc())?;
    trail.tick::<Brand>();
    trail.tick::<Brand>();
    Ok(())
}
