//! Where a session or a writer stands.
use crate::shared::Shared;
use outside::Slot;
use session_calls::Opened;
use std::marker::{Brand, Model};
use turn_table::TurnSeat;

/// A seat at the turn lock and, while it has its turn, whether writers have to end.
///
/// Contracts see the seat.
pub struct Place<D: Slot, T: Opened = Brand> {
    pub(crate) seat: TurnSeat<Shared<D, T>>,
    pub(crate) stopped: bool,
}

impl<D: Slot, T: Opened> Model for Place<D, T> {
    ghost use Rattle.std.specs.Prelude.{◌≡◌};
    ghost use Rattle.turn_table.specs.Face.{Spot};
    ghost use Rattle.turn_table.specs.Knowledge.{HasTurn};
    ghost use Rattle.pool.specs.declared.item.Item.{Item};
    ghost use Rattle.pool.specs.Items.{is_stopped};

    ghost Value = { Spot Item };

    ghost view = { λ p. p.seat };

    ghost invariant = { λ p. HasTurn p.seat.knows → p.stopped ≡ is_stopped p.seat.knows.seen };
}
