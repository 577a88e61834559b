//! A seat of a turn lock.

ghost use Rattle.std.specs.Prelude.{◌≡◌};
ghost use Rattle.turn_table.specs.Face.{Spot, in_hand};

use crate::logged::Logged;
use crate::steps::Place;
use std::marker::Model;

/// A seat. It has no bytes, and contracts see its table and what it knows.
///
/// It can't be let go: it ends by `Turns::join` or `Turns::close`.
pub struct TurnSeat<V: Logged> {
    pub(crate) place: Place<V>,
}

impl<V: Logged> Model for TurnSeat<V> {
    ghost Value = { Spot V.Entry };

    ghost view = { λ s. record { table = s.place.table_id; knows = s.place.me.0 } };

    ghost invariant = { λ s. s.place.me.1 ≡ in_hand s.place.me.0.stage };
}
