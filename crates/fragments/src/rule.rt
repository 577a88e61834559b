//! The rule of a queue: what was put is what was taken and what stands in it.

use crossbeam_queue::RuledArrayQueue;
use crossbeam_queue::protocol::{Join, Lesson, Outcome, Protocol, Split};
use std::collections::LinkedList;
use std::marker::{Brand, PhantomData};

/// Which items may be put. Each call of a program picks it.
pub trait Admits<T> {
    ghost use Rattle.std.specs.Prelude.{};

    ghost admits: { T → Type 0 };
}

impl<T> Admits<T> for Brand {
    ghost use Rattle.std.specs.Prelude.{⊤};

    ghost admits = { λ x. ⊤ };
}

/// What a pass has put and taken, and its parts of the right to know the whole. No value of it is made.
pub struct Tally<T> {
    pub parts: u64,
    pub put: LinkedList<T>,
    pub taken: LinkedList<T>,
}

/// What was put is what was taken and what the queue holds, however the items are weighed.
pub struct Fair<J> {
    of: PhantomData<J>,
}

impl<T, J: Admits<T>> Protocol<T, Tally<T>> for Fair<J> {
    ghost use Rattle.std.specs.Prelude.{[]};
    ghost use Rattle.fragments.specs.Balance.{IsFair, tally};

    ghost holds = { IsFair J.admits };

    ghost first = { tally 1024 [] [] };
}

/// One part goes to a new pass, and comes back with what it did.
pub struct Cut;

impl<T> Split<Tally<T>> for Cut {
    ghost use Rattle.std.specs.Prelude.{◌-◌, []};
    ghost use Rattle.fragments.specs.Balance.{tally};

    ghost left = { λ v. tally (v.parts - 1) v.put v.taken };

    ghost right = { λ v. tally 1 [] [] };
}

impl<T> Join<Tally<T>> for Cut {
    ghost use Rattle.std.specs.Prelude.{◌+◌, ◌++◌, []};
    ghost use Rattle.fragments.specs.Balance.{tally};

    ghost both = { λ v w. tally (v.parts + w.parts) (v.put ++ w.put) (v.taken ++ w.taken) };

    ghost spent = { tally 0 [] [] };
}

/// An item was put.
pub struct Puts;

impl<T> Outcome<T, Tally<T>> for Puts {
    ghost use Rattle.std.specs.Prelude.{◌≡◌};
    ghost use Rattle.fragments.specs.Balance.{has_put};

    ghost then = { λ v x w. w ≡ has_put v x };
}

impl<T> Lesson<T, Tally<T>> for Puts {
    ghost use Rattle.std.specs.Prelude.{⊤};

    ghost fact = { λ v items. ⊤ };
}

/// An item was taken; or there was none, and whoever has all parts knows that what was put is what was taken.
pub struct Takes<J> {
    of: PhantomData<J>,
}

impl<T, J: Admits<T>> Outcome<T, Tally<T>> for Takes<J> {
    ghost use Rattle.std.specs.Prelude.{◌≡◌};
    ghost use Rattle.fragments.specs.Balance.{has_taken};

    ghost then = { λ v x w. (w ≡ has_taken v x) × J.admits x };
}

impl<T, J: Admits<T>> Lesson<T, Tally<T>> for Takes<J> {
    ghost use Rattle.fragments.specs.Balance.{Leaves};

    ghost fact = { λ v items. Leaves v items };
}

/// Room for a few items that were put and not taken.
pub type Queue<T, J> = RuledArrayQueue<T, Tally<T>, Fair<J>>;
