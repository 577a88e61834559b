//! The names of events, as a trace spells them.
ghost use Rattle.std.specs.Prelude.{◌≡◌};
ghost use Rattle.trace_check.specs.Names.{spelled, name_of};

use pool_model::{Bare, Call};

/// An event's name; that of a refusal is the refused call's too.
#[derive(Clone, Copy)]
pub(crate) enum Name {
    Ask,
    AddTracker,
    CloseTracker,
    Increase,
    IncreaseToFit,
    Decrease,
    MoveReservation,
    Create,
    PinHere,
    PinLoad,
    ReadOk,
    ReadFailed,
    ReadStale,
    PinAgain,
    UnpinOnce,
    Unpin,
    UnpinRefused,
    Extract,
    Destroy,
    Alloc,
    Free,
    MoveBuffer,
    StartWrite,
    WriteOk,
    WriteFailed,
    Evict,
    RefusedPin,
    RefusedPinAgain,
    RefusedCreate,
    RefusedAlloc,
    RefusedGiveBack,
    RefusedMoveReservation,
    RefusedMoveBuffer,
}

/// All names. They are tried in this order, so those that a trace has most are first.
pub(crate) const NAMES: [Name; 33] = [
    Name::Unpin,
    Name::PinHere,
    Name::StartWrite,
    Name::WriteOk,
    Name::Evict,
    Name::PinLoad,
    Name::ReadOk,
    Name::Create,
    Name::Destroy,
    Name::PinAgain,
    Name::UnpinOnce,
    Name::Ask,
    Name::Alloc,
    Name::Free,
    Name::Extract,
    Name::MoveBuffer,
    Name::Increase,
    Name::IncreaseToFit,
    Name::Decrease,
    Name::MoveReservation,
    Name::AddTracker,
    Name::CloseTracker,
    Name::UnpinRefused,
    Name::WriteFailed,
    Name::ReadFailed,
    Name::ReadStale,
    Name::RefusedPin,
    Name::RefusedPinAgain,
    Name::RefusedCreate,
    Name::RefusedAlloc,
    Name::RefusedGiveBack,
    Name::RefusedMoveReservation,
    Name::RefusedMoveBuffer,
];

impl Name {
    /// The name's text.
    pub(crate) fn spelled(self) -> &'static [u8]
        ensures { result.now ≡ spelled self }
    {
        match self {
            Name::Ask => b"Ask",
            Name::AddTracker => b"AddTracker",
            Name::CloseTracker => b"CloseTracker",
            Name::Increase => b"Increase",
            Name::IncreaseToFit => b"IncreaseToFit",
            Name::Decrease => b"Decrease",
            Name::MoveReservation => b"MoveReservation",
            Name::Create => b"Create",
            Name::PinHere => b"PinHere",
            Name::PinLoad => b"PinLoad",
            Name::ReadOk => b"ReadOk",
            Name::ReadFailed => b"ReadFailed",
            Name::ReadStale => b"ReadStale",
            Name::PinAgain => b"PinAgain",
            Name::UnpinOnce => b"UnpinOnce",
            Name::Unpin => b"Unpin",
            Name::UnpinRefused => b"UnpinRefused",
            Name::Extract => b"Extract",
            Name::Destroy => b"Destroy",
            Name::Alloc => b"Alloc",
            Name::Free => b"Free",
            Name::MoveBuffer => b"MoveBuffer",
            Name::StartWrite => b"StartWrite",
            Name::WriteOk => b"WriteOk",
            Name::WriteFailed => b"WriteFailed",
            Name::Evict => b"Evict",
            Name::RefusedPin => b"Refused pin",
            Name::RefusedPinAgain => b"Refused pin_again",
            Name::RefusedCreate => b"Refused create",
            Name::RefusedAlloc => b"Refused alloc",
            Name::RefusedGiveBack => b"Refused give_back",
            Name::RefusedMoveReservation => b"Refused move_reservation",
            Name::RefusedMoveBuffer => b"Refused move_buffer",
        }
    }

    /// The name of an event.
    pub(crate) fn of(event: &Bare) -> Name
        ensures { result ≡ name_of event.now }
    {
        match event {
            Bare::Ask => Name::Ask,
            Bare::AddTracker { .. } => Name::AddTracker,
            Bare::CloseTracker { .. } => Name::CloseTracker,
            Bare::Increase { .. } => Name::Increase,
            Bare::IncreaseToFit { .. } => Name::IncreaseToFit,
            Bare::Decrease { .. } => Name::Decrease,
            Bare::MoveReservation { .. } => Name::MoveReservation,
            Bare::Create { .. } => Name::Create,
            Bare::PinHere { .. } => Name::PinHere,
            Bare::PinLoad { .. } => Name::PinLoad,
            Bare::ReadOk { .. } => Name::ReadOk,
            Bare::ReadFailed { .. } => Name::ReadFailed,
            Bare::ReadStale { .. } => Name::ReadStale,
            Bare::PinAgain { .. } => Name::PinAgain,
            Bare::UnpinOnce { .. } => Name::UnpinOnce,
            Bare::Unpin { .. } => Name::Unpin,
            Bare::UnpinRefused { .. } => Name::UnpinRefused,
            Bare::Extract { .. } => Name::Extract,
            Bare::Destroy { .. } => Name::Destroy,
            Bare::Alloc { .. } => Name::Alloc,
            Bare::Free { .. } => Name::Free,
            Bare::MoveBuffer { .. } => Name::MoveBuffer,
            Bare::StartWrite { .. } => Name::StartWrite,
            Bare::WriteOk { .. } => Name::WriteOk,
            Bare::WriteFailed { .. } => Name::WriteFailed,
            Bare::Evict { .. } => Name::Evict,
            Bare::Refused { call, .. } => match call {
                Call::Pin { .. } => Name::RefusedPin,
                Call::PinAgain { .. } => Name::RefusedPinAgain,
                Call::Create { .. } => Name::RefusedCreate,
                Call::Alloc { .. } => Name::RefusedAlloc,
                Call::GiveBack { .. } => Name::RefusedGiveBack,
                Call::MoveReservation { .. } => Name::RefusedMoveReservation,
                Call::MoveBuffer { .. } => Name::RefusedMoveBuffer,
            },
        }
    }
}
