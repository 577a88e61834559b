//! Events from their names and numbers.
ghost use Rattle.std.specs.Prelude.{◌≡◌, ◌∷◌, [], Some, None, if◌then◌else◌, nat_lt};
ghost use Rattle.trace_check.specs.Events.{event_from, if_u32, marked};

use crate::name::Name;
use pool_model::{Bare, Call};
use reservation_tree::{Mark, TrackerId};

// A number of 32 bits.
pub(crate) fn narrow(number: u64) -> Option<u32>
    ensures { result ≡ (if nat_lt number 4294967296 then Some number else None) }
{
    if number <= u32::MAX as u64 {
        Some(number as u32)
    } else {
        None
    }
}

// A tracker by its number.
fn id(number: u64) -> Option<TrackerId>
    ensures { result ≡ (if nat_lt number 4294967296 then Some number else None) }
{
    let number = narrow(number)?;
    Some(TrackerId::of(number))
}

// The mark of a block.
fn mark(page: u64, version: u64, block: u64) -> Option<Mark>
    ensures { result ≡ if_u32 block (λ block. Some (marked page version block)) }
{
    Some(Mark {
        name: page,
        version,
        block: narrow(block)?,
    })
}

/// The event of a name and numbers, if there is one.
pub(crate) fn event_from(name: Name, numbers: &[u64]) -> Option<Bare>
    ensures { result ≡ event_from name numbers.now }
{
    match (name, numbers) {
        (Name::Ask, []) => Some(Bare::Ask),
        (Name::AddTracker, [child, parent, limit]) => client_tracker(*child, *parent, *limit),
        (Name::AddTracker, [child, parent, limit, quota]) => query_tracker(
            *child, *parent, *limit, *quota,
        ),
        (Name::CloseTracker, [tracker]) => Some(Bare::CloseTracker {
            tracker: id(*tracker)?,
        }),
        (Name::Increase, [tracker, bytes]) => Some(Bare::Increase {
            tracker: id(*tracker)?,
            bytes: *bytes,
        }),
        (Name::IncreaseToFit, [tracker, bytes]) => Some(Bare::IncreaseToFit {
            tracker: id(*tracker)?,
            bytes: *bytes,
        }),
        (Name::Decrease, [tracker, bytes]) => Some(Bare::Decrease {
            tracker: id(*tracker)?,
            bytes: *bytes,
        }),
        (Name::MoveReservation, [from, to, bytes]) => Some(Bare::MoveReservation {
            from: id(*from)?,
            to: id(*to)?,
            bytes: *bytes,
        }),
        (Name::Create, [page, client, blocks]) => Some(Bare::Create {
            page: *page,
            client: id(*client)?,
            blocks: narrow(*blocks)?,
        }),
        (Name::PinHere, [page]) => Some(Bare::PinHere { page: *page }),
        (Name::PinLoad, [page]) => Some(Bare::PinLoad { page: *page }),
        (Name::ReadOk, [page]) => Some(Bare::ReadOk { page: *page }),
        (Name::ReadFailed, [page]) => Some(Bare::ReadFailed { page: *page }),
        (Name::ReadStale, [page, version, block, other, written, found]) => Some(Bare::ReadStale {
            wanted: mark(*page, *version, *block)?,
            found: mark(*other, *written, *found)?,
        }),
        (Name::PinAgain, [page]) => Some(Bare::PinAgain { page: *page }),
        (Name::UnpinOnce, [page]) => Some(Bare::UnpinOnce { page: *page }),
        (Name::Unpin, [page]) => Some(Bare::Unpin { page: *page }),
        (Name::UnpinRefused, [page]) => Some(Bare::UnpinRefused { page: *page }),
        (Name::Extract, [page, buffer]) => Some(Bare::Extract {
            page: *page,
            buffer: narrow(*buffer)?,
        }),
        (Name::Destroy, [page]) => Some(Bare::Destroy { page: *page }),
        (Name::Alloc, [buffer, client, blocks]) => Some(Bare::Alloc {
            buffer: narrow(*buffer)?,
            client: id(*client)?,
            blocks: narrow(*blocks)?,
        }),
        (Name::Free, [buffer]) => Some(Bare::Free {
            buffer: narrow(*buffer)?,
        }),
        (Name::MoveBuffer, [buffer, to]) => Some(Bare::MoveBuffer {
            buffer: narrow(*buffer)?,
            to: id(*to)?,
        }),
        (Name::StartWrite, [page]) => Some(Bare::StartWrite { page: *page }),
        (Name::WriteOk, [page]) => Some(Bare::WriteOk { page: *page }),
        (Name::WriteFailed, [page]) => Some(Bare::WriteFailed { page: *page }),
        (Name::Evict, [page]) => Some(Bare::Evict { page: *page }),
        (Name::RefusedPin, [page, entry]) => Some(Bare::Refused {
            call: Call::Pin { page: *page },
            entry: *entry,
        }),
        (Name::RefusedPinAgain, [page, entry]) => Some(Bare::Refused {
            call: Call::PinAgain { page: *page },
            entry: *entry,
        }),
        (Name::RefusedCreate, [client, blocks, entry]) => Some(Bare::Refused {
            call: Call::Create {
                client: id(*client)?,
                blocks: narrow(*blocks)?,
            },
            entry: *entry,
        }),
        (Name::RefusedAlloc, [client, blocks, entry]) => Some(Bare::Refused {
            call: Call::Alloc {
                client: id(*client)?,
                blocks: narrow(*blocks)?,
            },
            entry: *entry,
        }),
        (Name::RefusedGiveBack, [client, bytes, entry]) => Some(Bare::Refused {
            call: Call::GiveBack {
                client: id(*client)?,
                bytes: *bytes,
            },
            entry: *entry,
        }),
        (Name::RefusedMoveReservation, [from, to, bytes, entry]) => Some(Bare::Refused {
            call: Call::MoveReservation {
                from: id(*from)?,
                to: id(*to)?,
                bytes: *bytes,
            },
            entry: *entry,
        }),
        (Name::RefusedMoveBuffer, [buffer, to, entry]) => Some(Bare::Refused {
            call: Call::MoveBuffer {
                buffer: narrow(*buffer)?,
                to: id(*to)?,
            },
            entry: *entry,
        }),
        _ => None,
    }
}

// A client's tracker, which doesn't stand under the root.
fn client_tracker(child: u64, parent: u64, limit: u64) -> Option<Bare>
    ensures { result ≡ event_from Name.AddTracker (child ∷ parent ∷ limit ∷ []) }
{
    let child = id(child)?;
    let parent = narrow(parent)?;
    if parent == 0 {
        return None;
    }
    Some(Bare::AddTracker {
        tracker: child,
        parent: TrackerId::of(parent),
        limit,
        quota: None,
    })
}

// A session's tracker, which stands under the root and has a quota.
fn query_tracker(child: u64, parent: u64, limit: u64, quota: u64) -> Option<Bare>
    ensures { result ≡ event_from Name.AddTracker (child ∷ parent ∷ limit ∷ quota ∷ []) }
{
    let child = id(child)?;
    let parent = narrow(parent)?;
    let quota = narrow(quota)?;
    if parent != 0 {
        return None;
    }
    Some(Bare::AddTracker {
        tracker: child,
        parent: TrackerId::of(parent),
        limit,
        quota: Some(quota),
    })
}
