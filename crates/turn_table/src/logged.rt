//! What a value under the turn lock stands for, and how a call names entries and rights for contracts alone.

ghost use Rattle.std.specs.Prelude.{◌≡◌, ℕ, List, [], Option, None};

use std::marker::Brand;

/// A value that stands for a list of entries. It need not keep them: which lists it may stand for is a relation.
pub trait Logged {
    /// One entry, from contracts alone.
    type Entry;

    // The value may stand for the list, which runs from the oldest entry to the newest.
    ghost stands: { Self → List Self.Entry → Type 0 };
    // All rights that there are, each once.
    ghost rights: { List ℕ };
    // The rights that an entry needs.
    ghost needs: { Self.Entry → List ℕ };
}

/// A plain number stands for the empty list and has no rights.
impl Logged for u64 {
    type Entry = ();

    ghost stands = { λ _ log. log ≡ [] };

    ghost rights = { [] };

    ghost needs = { λ _. [] };
}

/// Names the entries that a call adds. A call at `Brand` picks them in its proof.
pub trait Adds<E> {
    ghost entries: { List E };
}

impl<E> Adds<E> for Brand {
    ghost entries = { [] };
}

// Names the right that a split hands out.
pub(crate) trait Hands {
    ghost right: { Option ℕ };
}

impl Hands for Brand {
    ghost right = { None };
}
