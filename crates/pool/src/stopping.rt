//! Writers are told to end.
ghost use Rattle.std.specs.Prelude.{◌≡◌, ◌<◌, ◌∷◌, [], true};
ghost use Rattle.turn_table.specs.Knowledge.{HasTurn};
ghost use Rattle.turn_table.specs.Lists.{times};
ghost use Rattle.turn_table.specs.Steps.{grown};
ghost use Rattle.pool.specs.declared.item.Item.TheVariants.{Stop};
ghost use Rattle.pool.specs.Items.{door};
ghost use Rattle.pool.specs.Standing.{StandsAs};
ghost use Rattle.pool.specs.Writers.{Stops};

use crate::item::Item;
use crate::pass::Pass;
use crate::pool::Pool;
use crate::shared::Shared;
use outside::Slot;
use session_calls::Opened;
use std::marker::Brand;
use std::sync::Wait;
use turn_table::{Adds, TurnSeat, Turns};

impl<D: Slot + Drop, T: Opened> Pool<D, T> {
    /// Tells the pool's writers to end: each turn of a writer from now on finds that.
    pub fn stop<R: Wait>(&self, rt: &R, pass: &mut Pass<D, T>)
        requires table { pass.old.table ≡ self.now }
        ensures { Stops pass.old pass.new }
    {
        let mut shared = self.turns.enter(rt, &mut pass.seat);
        shared.stopped = true;
        leave_stopped::<Brand, D, T>(&self.turns, &mut pass.seat, shared);
    }
}

// The turn ends with the mark, which `N` names.
fn leave_stopped<N: Adds<Item>, D: Slot + Drop, T: Opened>(
    turns: &Turns<Shared<D, T>>,
    seat: &mut TurnSeat<Shared<D, T>>,
    shared: Shared<D, T>,
)
    requires named { N.entries ≡ Stop ∷ [] }
    requires table { seat.old.table ≡ turns.now }
    requires turn { HasTurn seat.old.knows }
    requires stands { StandsAs D.Slot T.opening T.outset.told T.first seat.old.knows.seen (record { trail = shared.trail; counts = shared.counts }) shared.state }
    requires stop { shared.stopped ≡ true }
    requires rights { 0 < times door seat.old.knows.rights }
    ensures table { seat.new.table ≡ turns.now }
    ensures grown { seat.new.knows ≡ grown (Stop ∷ []) seat.old.knows }
{
    turns.leave::<N>(seat, shared);
}
