//! The numbers of an event, in the order in which a trace has them.
ghost use Rattle.std.specs.Prelude.{◌≡◌, ◌<◌, ◌++◌, ◌∷◌, [], length};
ghost use Rattle.trace_check.specs.Numbers.{call_numbers, mark_numbers, numbers_of};

use pool_model::{Bare, Call};
use reservation_tree::Mark;
use std::marker::Model;

/// The most numbers that an event has.
pub(crate) const MOST: usize = 6;

/// At most six numbers, in their order.
#[derive(Drop)]
pub(crate) struct Numbers {
    items: [u64; MOST],
    count: usize,
}

impl Model for Numbers {
    ghost use Rattle.std.specs.Prelude.{ℕ, List, take, ◌≤◌};

    ghost Value = { List ℕ };

    ghost view = { λ numbers. take numbers.count numbers.items };

    ghost invariant = { λ numbers. numbers.count ≤ 6 };
}

impl Numbers {
    pub(crate) fn none() -> Numbers
        ensures { result ≡ [] }
    {
        Numbers {
            items: [0; MOST],
            count: 0,
        }
    }

    fn one(a: u64) -> Numbers
        ensures { result ≡ a ∷ [] }
    {
        Numbers {
            items: [a, 0, 0, 0, 0, 0],
            count: 1,
        }
    }

    fn two(a: u64, b: u64) -> Numbers
        ensures { result ≡ a ∷ b ∷ [] }
    {
        Numbers {
            items: [a, b, 0, 0, 0, 0],
            count: 2,
        }
    }

    fn three(a: u64, b: u64, c: u64) -> Numbers
        ensures { result ≡ a ∷ b ∷ c ∷ [] }
    {
        Numbers {
            items: [a, b, c, 0, 0, 0],
            count: 3,
        }
    }

    fn four(a: u64, b: u64, c: u64, d: u64) -> Numbers
        ensures { result ≡ a ∷ b ∷ c ∷ d ∷ [] }
    {
        Numbers {
            items: [a, b, c, d, 0, 0],
            count: 4,
        }
    }

    // The numbers of two marks.
    fn marks(wanted: &Mark, found: &Mark) -> Numbers
        ensures { result ≡ mark_numbers wanted.now ++ mark_numbers found.now }
    {
        Numbers {
            items: [
                wanted.name,
                wanted.version,
                u64::from(wanted.block),
                found.name,
                found.version,
                u64::from(found.block),
            ],
            count: 6,
        }
    }

    /// Adds a number at the end.
    pub(crate) fn push(&mut self, number: u64)
        requires { length self.old < 6 }
        ensures { self.new ≡ self.old ++ number ∷ [] }
    {
        self.items[self.count] = number;
        self.count += 1;
    }

    pub(crate) fn as_slice(&self) -> &[u64]
        ensures { result.now ≡ self.now }
    {
        &self.items[..self.count]
    }

    /// The numbers of an event.
    pub(crate) fn of(event: &Bare) -> Numbers
        ensures { result ≡ numbers_of event.now }
    {
        match event {
            Bare::Ask => Numbers::none(),
            Bare::AddTracker {
                tracker,
                parent,
                limit,
                quota: None,
            } => Numbers::three(
                u64::from(tracker.number()),
                u64::from(parent.number()),
                *limit,
            ),
            Bare::AddTracker {
                tracker,
                parent,
                limit,
                quota: Some(quota),
            } => Numbers::four(
                u64::from(tracker.number()),
                u64::from(parent.number()),
                *limit,
                u64::from(*quota),
            ),
            Bare::CloseTracker { tracker } => Numbers::one(u64::from(tracker.number())),
            Bare::Increase { tracker, bytes } => Numbers::two(u64::from(tracker.number()), *bytes),
            Bare::IncreaseToFit { tracker, bytes } => Numbers::two(
                u64::from(tracker.number()),
                *bytes,
            ),
            Bare::Decrease { tracker, bytes } => Numbers::two(u64::from(tracker.number()), *bytes),
            Bare::MoveReservation { from, to, bytes } => Numbers::three(
                u64::from(from.number()),
                u64::from(to.number()),
                *bytes,
            ),
            Bare::Create {
                page,
                client,
                blocks,
            } => Numbers::three(*page, u64::from(client.number()), u64::from(*blocks)),
            Bare::PinHere { page } => Numbers::one(*page),
            Bare::PinLoad { page } => Numbers::one(*page),
            Bare::ReadOk { page } => Numbers::one(*page),
            Bare::ReadFailed { page } => Numbers::one(*page),
            Bare::ReadStale { wanted, found } => Numbers::marks(wanted, found),
            Bare::PinAgain { page } => Numbers::one(*page),
            Bare::UnpinOnce { page } => Numbers::one(*page),
            Bare::Unpin { page } => Numbers::one(*page),
            Bare::UnpinRefused { page } => Numbers::one(*page),
            Bare::Extract { page, buffer } => Numbers::two(*page, u64::from(*buffer)),
            Bare::Destroy { page } => Numbers::one(*page),
            Bare::Alloc {
                buffer,
                client,
                blocks,
            } => Numbers::three(
                u64::from(*buffer),
                u64::from(client.number()),
                u64::from(*blocks),
            ),
            Bare::Free { buffer } => Numbers::one(u64::from(*buffer)),
            Bare::MoveBuffer { buffer, to } => Numbers::two(
                u64::from(*buffer),
                u64::from(to.number()),
            ),
            Bare::StartWrite { page } => Numbers::one(*page),
            Bare::WriteOk { page } => Numbers::one(*page),
            Bare::WriteFailed { page } => Numbers::one(*page),
            Bare::Evict { page } => Numbers::one(*page),
            Bare::Refused { call, entry } => Numbers::of_refusal(call, *entry),
        }
    }

    // The numbers of a refused call, and that of the entry that shows why.
    fn of_refusal(call: &Call, entry: u64) -> Numbers
        ensures { result ≡ call_numbers call.now ++ entry ∷ [] }
    {
        match call {
            Call::Pin { page } => Numbers::two(*page, entry),
            Call::PinAgain { page } => Numbers::two(*page, entry),
            Call::Create { client, blocks } => Numbers::three(
                u64::from(client.number()),
                u64::from(*blocks),
                entry,
            ),
            Call::Alloc { client, blocks } => Numbers::three(
                u64::from(client.number()),
                u64::from(*blocks),
                entry,
            ),
            Call::GiveBack { client, bytes } => Numbers::three(
                u64::from(client.number()),
                *bytes,
                entry,
            ),
            Call::MoveReservation { from, to, bytes } => Numbers::four(
                u64::from(from.number()),
                u64::from(to.number()),
                *bytes,
                entry,
            ),
            Call::MoveBuffer { buffer, to } => Numbers::three(
                u64::from(*buffer),
                u64::from(to.number()),
                entry,
            ),
        }
    }
}
