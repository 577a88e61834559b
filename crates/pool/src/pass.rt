//! Who opened a pool, and lets sessions in and out.
ghost use Rattle.std.specs.Prelude.{◌≡◌, ◌+◌, ℕ};
ghost use Rattle.pool.specs.Passing.{IsPass};
ghost use Rattle.pool.specs.Seats.{taken_in};

use crate::shared::Shared;
use outside::Slot;
use session_calls::Opened;
use std::marker::{Brand, Model};
use turn_table::TurnSeat;

/// The pass of a pool. Sessions come and go through it alone.
///
/// Contracts see its seat: the lock that it is a seat of, and what it has seen. It can't be let go: it ends by
/// `Pool::close`.
pub struct Pass<D: Slot, T: Opened = Brand> {
    pub(crate) seat: TurnSeat<Shared<D, T>>,
    pub(crate) spare: u32,
}

impl<D: Slot, T: Opened> Model for Pass<D, T> {
    ghost use Rattle.turn_table.specs.Face.{Spot};
    ghost use Rattle.pool.specs.declared.item.Item.{Item};
    ghost use Rattle.pool.specs.Passing.{IsPass};

    ghost Value = { Spot Item };

    ghost view = { λ s. s.seat };

    ghost invariant = { λ s. IsPass T.opening.slots s.spare s.seat };
}

impl<D: Slot, T: Opened> Pass<D, T> {
    /// How many slots are in no quota.
    pub fn spare(&self) -> u32
        ensures { result + taken_in self.now.knows.seen ≡ T.opening.slots }
    {
        self.spare
    }

    /// The pass has the door, and the number of each session that isn't live.
    pub fn law_pass(&self)
        ensures { (free : ℕ) × IsPass T.opening.slots free self.now }
    {
        let _seat = &self.seat;
    }
}
