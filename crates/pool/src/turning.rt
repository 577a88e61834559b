//! A session's turn begins, and ends.
ghost use Rattle.std.specs.Prelude.{◌≡◌};
ghost use Rattle.pool.specs.Sitting.{Sits};
ghost use Rattle.pool.specs.Turning.{IsInTurn, MayEndTurn, SitsAgain};

use crate::among::Among;
use crate::holding::{give_hand, take_hand};
use crate::ledger::Ledger;
use crate::place::Place;
use crate::shared::Shared;
use outside::Slot;
use session_calls::{Hand, Opened};
use std::sync::Wait;
use turn_table::Turns;

// Waits for the session's turn, and takes the value for it.
pub(crate) fn begin_turn<D: Slot + Drop, T: Opened, R: Wait>(
    rt: &R,
    turns: &Turns<Shared<D, T>>,
    spot: &mut Place<D, T>,
    number: u32,
) -> Hand<D>
    requires table { spot.old.table ≡ turns.now }
    requires sits { Sits T.opening T.outset.told (record { number = number; spot = spot.old }) }
    ensures table { spot.new.table ≡ turns.now }
    ensures begins { IsInTurn D.Slot T.opening T.outset.told T.first (record { number = number; spot = spot.old }) spot.new result }
{
    take_hand(rt, turns, spot, number)
}

// The ledger sees what the session holds, and the turn ends.
pub(crate) fn end_turn<D: Slot + Drop, T: Opened>(
    turns: &Turns<Shared<D, T>>,
    spot: &mut Place<D, T>,
    ledger: &mut Ledger,
    hand: Hand<D>,
)
    requires table { spot.old.table ≡ turns.now }
    requires may { MayEndTurn D.Slot T.opening T.outset.told T.first spot.old ledger.old hand }
    ensures table { spot.new.table ≡ turns.now }
    ensures ends { SitsAgain T.opening T.outset.told ledger.new hand (record { number = hand.session; spot = spot.new }) }
{
    ledger.see::<Among<T>, D>(&hand);
    hand.law_whole::<Among<T>>();
    give_hand(turns, spot, hand);
}
