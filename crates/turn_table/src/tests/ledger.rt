//! A client with a trail of its own: a ledger under the turn lock, and holders who deposit.
//!
//! The ledger keeps a total alone. Each deposit is an entry that needs the right of who makes it,
//! so a holder's own deposits stand in what it has seen, whatever others do.

ghost use Rattle.std.specs.Prelude.{◌≡◌, ◌%◌, ◌^◌, ◌<◌, ◌==◌, [], ◌∷◌, ◌++◌, filter, sum_by, IfOk};
ghost use Rattle.turn_table.specs.Lists.{times};
ghost use Rattle.turn_table.specs.Knowledge.{IsIdle, HasTurn, IsFirst};
ghost use Rattle.turn_table.specs.Steps.{one_less, grown, opened};

use crate::{Adds, Logged, Memory, TurnSeat, Turns};
use std::alloc::Global;
use std::marker::Brand;
use std::sync::Wait;
use std::test::Fail;
use std::thread::join_mut;

#[derive(Drop)]
struct Ledger {
    total: u64,
}

/// An entry is who deposits, and how much.
impl Logged for Ledger {
    type Entry = (u32, u64);

    ghost stands = { λ ledger log. ledger.total ≡ sum_by (λ e. e.1) log % 2 ^ 64 };

    ghost rights = { 1 ∷ 2 ∷ [] };

    ghost needs = { λ e. e.0 ∷ [] };
}

/// Who deposits, with the handle that lets it wait and a seat that has its right.
struct Holder<'a, R: Wait> {
    rt: &'a R,
    turns: &'a Turns<Ledger>,
    seat: TurnSeat<Ledger>,
    who: u32,
    ghost table: { seat.table ≡ turns.now },
    ghost idle: { IsIdle seat.knows },
    ghost entitled: { 0 < times who seat.knows.rights },
}

impl<'a, R: Wait> Holder<'a, R> {
    fn new(rt: &'a R, turns: &'a Turns<Ledger>, seat: TurnSeat<Ledger>, who: u32) -> Holder<'a, R>
        requires table { seat.table ≡ turns.now }
        requires idle { IsIdle seat.knows }
        requires entitled { 0 < times who seat.knows.rights }
        ensures { result.turns.now ≡ turns.now }
    {
        Holder {
            rt,
            turns,
            seat,
            who,
        }
    }

    // No handle stands in the signature: the holder has it.
    fn deposit(&mut self, amount: u64)
        ensures who { self.new.who ≡ self.old.who }
        ensures turns { self.new.turns.now ≡ self.old.turns.now }
        ensures own { filter (λ e. e.0 == self.new.who) self.new.seat.knows.seen ≡ filter (λ e. e.0 == self.new.who) self.old.seat.knows.seen ++ (self.new.who, amount) ∷ [] }
    {
        deposit(self.rt, self.turns, &mut self.seat, self.who, amount);
    }

    // The seat goes back to the pass.
    fn end(self, turns: &Turns<Ledger>, pass: &mut TurnSeat<Ledger>)
        requires turns { self.turns.now ≡ turns.now }
        requires table { pass.old.table ≡ turns.now }
        requires idle { IsIdle pass.old.knows }
        requires first { IsFirst pass.old.knows }
        ensures table { pass.new.table ≡ turns.now }
        ensures idle { IsIdle pass.new.knows }
        ensures role { pass.new.knows.role ≡ one_less pass.old.knows.role }
    {
        let Holder {
            rt: _,
            turns: _,
            seat,
            who: _,
        } = self;
        turns.join(pass, seat);
    }
}

// Adds to the total. The seat's own deposits are the old ones and this one, whatever others do.
fn deposit<R: Wait>(
    rt: &R,
    turns: &Turns<Ledger>,
    seat: &mut TurnSeat<Ledger>,
    who: u32,
    amount: u64,
)
    requires table { seat.old.table ≡ turns.now }
    requires idle { IsIdle seat.old.knows }
    requires entitled { 0 < times who seat.old.knows.rights }
    ensures table { seat.new.table ≡ turns.now }
    ensures idle { IsIdle seat.new.knows }
    ensures role { seat.new.knows.role ≡ seat.old.knows.role }
    ensures rights { seat.new.knows.rights ≡ seat.old.knows.rights }
    ensures own { filter (λ e. e.0 == who) seat.new.knows.seen ≡ filter (λ e. e.0 == who) seat.old.knows.seen ++ (who, amount) ∷ [] }
{
    let mut ledger = turns.enter(rt, seat);
    ledger.total = ledger.total.wrapping_add(amount);
    put_back::<Brand>(turns, seat, ledger, who, amount);
}

// Leaves with one deposit.
fn put_back<N: Adds<(u32, u64)>>(
    turns: &Turns<Ledger>,
    seat: &mut TurnSeat<Ledger>,
    ledger: Ledger,
    by: u32,
    amount: u64,
)
    requires named { N.entries ≡ (by, amount) ∷ [] }
    requires table { seat.old.table ≡ turns.now }
    requires turn { HasTurn seat.old.knows }
    requires total { ledger.total ≡ sum_by (λ e. e.1) (seat.old.knows.seen ++ (by, amount) ∷ []) % 2 ^ 64 }
    requires right { 0 < times by seat.old.knows.rights }
    ensures table { seat.new.table ≡ turns.now }
    ensures grown { seat.new.knows ≡ grown ((by, amount) ∷ []) seat.old.knows }
{
    turns.leave::<N>(seat, ledger);
}

// A hundred deposits.
fn deposit_often<R: Wait>(
    rt: &R,
    turns: &Turns<Ledger>,
    seat: &mut TurnSeat<Ledger>,
    who: u32,
    amount: u64,
)
    requires table { seat.old.table ≡ turns.now }
    requires idle { IsIdle seat.old.knows }
    requires entitled { 0 < times who seat.old.knows.rights }
    ensures table { seat.new.table ≡ turns.now }
    ensures idle { IsIdle seat.new.knows }
    ensures role { seat.new.knows.role ≡ seat.old.knows.role }
    ensures rights { seat.new.knows.rights ≡ seat.old.knows.rights }
{
    for _ in 0..100u32 {
        deposit(rt, turns, seat, who, amount);
    }
}

// An empty ledger, and the pass that has both rights.
fn open(alloc: Global) -> Result<(Turns<Ledger>, TurnSeat<Ledger>), Memory>
    ensures { IfOk result (λ t. (t.1.table ≡ t.0) × (t.1.knows ≡ opened (1 ∷ 2 ∷ []))) }
{
    Turns::with(alloc, Ledger { total: 0 }).map_err(|(_, memory)| memory)
}

#[test]
fn holders_keep_their_own_trails(rt: HostRuntime) -> Result<(), Fail> {
    let (turns, mut pass) = open(rt.alloc())?;
    let one = turns.split(&mut pass, Some(1));
    let two = turns.split(&mut pass, Some(2));
    let mut one = Holder::new(&rt, &turns, one, 1);
    let mut two = Holder::new(&rt, &turns, two, 2);
    one.deposit(7);
    two.deposit(30);
    one.deposit(5);
    one.end(&turns, &mut pass);
    two.end(&turns, &mut pass);
    assert_eq!(rt; turns.close(pass).total, 42);
    Ok(())
}

#[test]
fn seats_deposit_in_two_threads(rt: HostRuntime) -> Result<(), Fail> {
    let (turns, mut one) = open(rt.alloc())?;
    let mut two = turns.split(&mut one, Some(2));
    join_mut(
        &rt,
        &mut || deposit_often(&rt, &turns, &mut one, 1, 7),
        &mut || deposit_often(&rt, &turns, &mut two, 2, 30),
    );
    turns.join(&mut one, two);
    assert_eq!(rt; turns.close(one).total, 3700);
    Ok(())
}
