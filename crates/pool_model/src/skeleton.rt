//! The entries of a trace.
ghost use Rattle.std.specs.Prelude.{◌≡◌};
ghost use Rattle.pool_model.specs.Traces.{bare_of, skeleton_of};

use crate::bare::Bare;
use crate::event::Event;
use crate::maker::{FIRST_WRITER, Maker};

/// An entry without what contracts alone see. The maker is a writer or a session, and has this number.
#[derive(Clone, Copy, Debug, PartialEq, Eq)]
pub struct Skeleton {
    pub writer: bool,
    pub maker: u32,
    pub event: Bare,
}

impl Skeleton {
    /// What a trace keeps of this event of the maker.
    pub fn of(maker: Maker, event: &Event) -> Skeleton
        ensures { result ≡ skeleton_of (record { maker = maker; event = event.now }) }
    {
        let maker = maker.number();
        Skeleton {
            writer: maker >= FIRST_WRITER,
            maker,
            event: bare_of(event),
        }
    }
}

fn bare_of(event: &Event) -> Bare
    ensures { result ≡ bare_of event.now }
{
    match event {
        Event::Ask => Bare::Ask,
        Event::AddTracker {
            tracker,
            parent,
            limit,
            quota,
        } => Bare::AddTracker {
            tracker: *tracker,
            parent: *parent,
            limit: *limit,
            quota: *quota,
        },
        Event::CloseTracker { tracker } => Bare::CloseTracker { tracker: *tracker },
        Event::Increase { tracker, bytes } => Bare::Increase {
            tracker: *tracker,
            bytes: *bytes,
        },
        Event::IncreaseToFit { tracker, bytes } => Bare::IncreaseToFit {
            tracker: *tracker,
            bytes: *bytes,
        },
        Event::Decrease { tracker, bytes } => Bare::Decrease {
            tracker: *tracker,
            bytes: *bytes,
        },
        Event::MoveReservation { from, to, bytes } => Bare::MoveReservation {
            from: *from,
            to: *to,
            bytes: *bytes,
        },
        Event::Create {
            page,
            client,
            blocks,
            ..
        } => Bare::Create {
            page: *page,
            client: *client,
            blocks: *blocks,
        },
        Event::PinHere { page } => Bare::PinHere { page: *page },
        Event::PinLoad { page } => Bare::PinLoad { page: *page },
        Event::ReadOk { page } => Bare::ReadOk { page: *page },
        Event::ReadFailed { page, .. } => Bare::ReadFailed { page: *page },
        Event::ReadStale { wanted, found, .. } => Bare::ReadStale {
            wanted: *wanted,
            found: *found,
        },
        Event::PinAgain { page } => Bare::PinAgain { page: *page },
        Event::UnpinOnce { page } => Bare::UnpinOnce { page: *page },
        Event::Unpin { page, .. } => Bare::Unpin { page: *page },
        Event::UnpinRefused { page } => Bare::UnpinRefused { page: *page },
        Event::Extract { page, buffer } => Bare::Extract {
            page: *page,
            buffer: *buffer,
        },
        Event::Destroy { page } => Bare::Destroy { page: *page },
        Event::Alloc {
            buffer,
            client,
            blocks,
        } => Bare::Alloc {
            buffer: *buffer,
            client: *client,
            blocks: *blocks,
        },
        Event::Free { buffer } => Bare::Free { buffer: *buffer },
        Event::MoveBuffer { buffer, to } => Bare::MoveBuffer {
            buffer: *buffer,
            to: *to,
        },
        Event::StartWrite { page } => Bare::StartWrite { page: *page },
        Event::WriteOk { page } => Bare::WriteOk { page: *page },
        Event::WriteFailed { page, .. } => Bare::WriteFailed { page: *page },
        Event::Evict { page } => Bare::Evict { page: *page },
        Event::Refused { call, entry } => Bare::Refused {
            call: *call,
            entry: *entry,
        },
    }
}
