//! The seat of a writer.
ghost use Rattle.std.specs.Prelude.{◌≡◌};
ghost use Rattle.pool.specs.Writers.{IsAtRest};

use crate::place::Place;
use outside::Slot;
use pin_core::WriteJob;
use session_calls::Opened;
use std::marker::{Brand, Model};

/// A writer's seat at the turn lock, with the right of the writer's number.
///
/// Contracts see its number, and its seat with what it has seen. It can't be let go: it ends by `Pool::writer_done`.
pub struct WriterSeat<D: Slot, T: Opened = Brand> {
    pub(crate) number: u32,
    pub(crate) place: Place<D, T>,
}

impl<D: Slot, T: Opened> Model for WriterSeat<D, T> {
    ghost use Rattle.pool.specs.Sitting.{Sitting};
    ghost use Rattle.pool.specs.Writers.{IsAtRest};

    ghost Value = { Sitting };

    ghost view = { λ w. record { number = w.number; spot = w.place } };

    ghost invariant = { λ w. IsAtRest (record { number = w.number; spot = w.place }) };
}

impl<D: Slot + Drop, T: Opened> WriterSeat<D, T> {
    /// The number of the writer, 1000 to 1007.
    pub fn who(&self) -> u32
        ensures { result ≡ self.now.number }
    {
        self.number
    }

    /// The writer has the right of its number alone, and no ticket.
    pub fn law_rests(&self)
        ensures { IsAtRest self.now }
    {
        let _place = &self.place;
    }
}

/// What a writer's turn found.
pub enum WriterTurn<D> {
    /// Writers have to end.
    Stopped,
    /// No page is dirty.
    Nothing,
    /// A page, which goes out to be written. It has to come back by `Pool::writer_back`.
    Write(WriteJob<D>),
}
