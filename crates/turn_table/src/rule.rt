//! The rule of the table, and what its steps tell.

ghost use Rattle.turn_table.specs.Rule.{Turning};
ghost use Rattle.turn_table.specs.Steps.{opened, parted, newcomer, joined, spent, Drew, Looked, Served, Recalled};

use crate::logged::{Adds, Hands, Logged};
use crate::view::View;
use atomic_table::{Join, Play, Split, TableRule};
use std::marker::PhantomData;

// The rule of the turn lock.
pub(crate) struct TurnRule;

impl<V: Logged> TableRule<Option<V>, View<V::Entry>, ()> for TurnRule {
    ghost holds = { λ _. Turning V.stands V.needs };

    ghost first = { λ _. opened V.rights };
}

// Draws a ticket.
pub(crate) struct Draw;

impl<V: Logged> Play<Option<V>, View<V::Entry>> for Draw {
    ghost then = { Drew };
}

// Looks which number is served.
pub(crate) struct Look;

impl<V: Logged> Play<Option<V>, View<V::Entry>> for Look {
    ghost then = { λ _. Looked V.stands V.needs };
}

// Serves the next number.
pub(crate) struct Serve<N>(PhantomData<N>);

impl<V: Logged, N: Adds<V::Entry>> Play<Option<V>, View<V::Entry>> for Serve<N> {
    ghost then = { λ _ me _. Served N.entries me };
}

// Recalls what the seat was told of.
pub(crate) struct Recall;

impl<V: Logged> Play<Option<V>, View<V::Entry>> for Recall {
    ghost then = { λ _ me _. Recalled V.needs me };
}

// Parts a new seat from the first.
pub(crate) struct Part<H>(PhantomData<H>);

impl<E, H: Hands> Split<View<E>> for Part<H> {
    ghost left = { parted H.right };

    ghost right = { newcomer H.right };
}

// Joins a seat to the first.
pub(crate) struct Meet;

impl<E> Join<View<E>> for Meet {
    ghost both = { joined };

    ghost spent = { spent };
}
