//! The calls that need room of a client, whole.
ghost use Rattle.std.specs.Prelude.{◌≡◌, ◌≢◌, ◌≤◌};
ghost use Rattle.store_api.specs.Holdings.{loan_len, length_of, page_len, page_of, unused_of};
ghost use Rattle.store_api.specs.Conditions.{IsBlockCount, IsLiveClient, IsLoan, IsPage};
ghost use Rattle.session_calls.specs.Acting.{held_by};
ghost use Rattle.session_calls.specs.Needing.{EntersNeeded};
ghost use Rattle.session_calls.specs.Calls.{Allocs, Creates, GivesBack, MovesBuffer, MovesReservation, PinsAgain, in_hand};
ghost use Rattle.session_calls.specs.Having.{IsAtWork};

use crate::access::Access;
use crate::asking::make_room;
use crate::hand::Hand;
use crate::opened::Opened;
use block_arena::{Buf, Shell};
use outside::Slot;
use pin_core::Want;
use pool_model::Call;
use reservation_tree::PoolErr;
use scratch_dev::SlotShell;
use std::alloc::Global;
use store_api::{Client, Loan, Page};

/// Lowers the client's reservation, once what it holds fits.
pub fn give_back<O: Opened, A: Access<D>, D: Slot + Drop>(
    access: &A,
    place: &mut A::Place,
    hand: Hand<D>,
    c: &Client,
    bytes: u64,
) -> (Hand<D>, Result<(), PoolErr>)
    requires turns { A.turns O.opening O.outset access.now place.old hand.session }
    requires at_work { IsAtWork D.Slot O.opening O.outset (A.seen place.old) hand }
    requires client { IsLiveClient c.now (held_by O.opening O.outset hand) }
    requires unused { bytes ≤ unused_of c.now.tracker (held_by O.opening O.outset hand) }
    ensures turns { A.turns O.opening O.outset access.now place.new result.0.session }
    ensures at_work { IsAtWork D.Slot O.opening O.outset (A.seen place.new) result.0 }
    ensures gives_back { GivesBack (in_hand O.opening O.outset hand result.0) c.now.tracker bytes result.1 }
    ensures needed { EntersNeeded c.now.tracker bytes hand result.0 }
{
    let client = c.tracker();
    let want = Want::Shrink(bytes);
    let call = Call::GiveBack { client, bytes };
    let (mut hand, result) = make_room::<O, A, D>(access, place, hand, c, want, &call);
    if let Err(e) = result {
        return (hand, Err(e));
    }
    hand.give_up::<O>(c, bytes);
    (hand, Ok(()))
}

/// Moves unused reservation, once what the first client holds fits.
pub fn move_reservation<O: Opened, A: Access<D>, D: Slot + Drop>(
    access: &A,
    place: &mut A::Place,
    hand: Hand<D>,
    from: &Client,
    to: &Client,
    bytes: u64,
) -> (Hand<D>, Result<(), PoolErr>)
    requires turns { A.turns O.opening O.outset access.now place.old hand.session }
    requires at_work { IsAtWork D.Slot O.opening O.outset (A.seen place.old) hand }
    requires clients { IsLiveClient from.now (held_by O.opening O.outset hand) × IsLiveClient to.now (held_by O.opening O.outset hand) }
    requires unused { bytes ≤ unused_of from.now.tracker (held_by O.opening O.outset hand) }
    ensures turns { A.turns O.opening O.outset access.now place.new result.0.session }
    ensures at_work { IsAtWork D.Slot O.opening O.outset (A.seen place.new) result.0 }
    ensures moves { MovesReservation (in_hand O.opening O.outset hand result.0) from.now.tracker to.now.tracker bytes result.1 }
    ensures needed { EntersNeeded from.now.tracker bytes hand result.0 }
{
    if let Err(e) = hand.may_move::<O>(from, to, bytes) {
        return (hand, Err(e));
    }
    let want = Want::Shrink(bytes);
    let call = Call::MoveReservation {
        from: from.tracker(),
        to: to.tracker(),
        bytes,
    };
    let (mut hand, result) = make_room::<O, A, D>(access, place, hand, from, want, &call);
    if let Err(e) = result {
        return (hand, Err(e));
    }
    hand.pass_on::<O>(from, to, bytes);
    (hand, Ok(()))
}

/// A new page of so many blocks, which have so many bytes, once there is room.
pub fn create<O: Opened, A: Access<D>, D: Slot + Drop>(
    alloc: Global,
    access: &A,
    place: &mut A::Place,
    hand: Hand<D>,
    c: &Client,
    blocks: u32,
    bytes: u64,
) -> (Hand<D>, Result<(Page, Buf), PoolErr>)
    requires turns { A.turns O.opening O.outset access.now place.old hand.session }
    requires at_work { IsAtWork D.Slot O.opening O.outset (A.seen place.old) hand }
    requires client { IsLiveClient c.now (held_by O.opening O.outset hand) }
    requires blocks { IsBlockCount blocks }
    requires bytes { (bytes ≡ length_of blocks (held_by O.opening O.outset hand)) × (bytes ≤ unused_of c.now.tracker (held_by O.opening O.outset hand)) }
    ensures turns { A.turns O.opening O.outset access.now place.new result.0.session }
    ensures at_work { IsAtWork D.Slot O.opening O.outset (A.seen place.new) result.0 }
    ensures creates { Creates (in_hand O.opening O.outset hand result.0) c.now.tracker blocks bytes result.1 }
    ensures needed { EntersNeeded c.now.tracker bytes hand result.0 }
{
    let Ok(shell) = Shell::with(alloc, blocks) else {
        return (hand, Err(PoolErr::Memory));
    };
    let Ok(slots) = SlotShell::with(alloc, blocks) else {
        return (hand, Err(PoolErr::Memory));
    };
    let client = c.tracker();
    let want = Want::Hold(bytes);
    let call = Call::Create { client, blocks };
    let (mut hand, result) = make_room::<O, A, D>(access, place, hand, c, want, &call);
    if let Err(e) = result {
        return (hand, Err(e));
    }
    let made = hand.create::<O>(c, shell, slots);
    (hand, made)
}

/// A new loan of so many blocks, which have so many bytes, once there is room.
pub fn alloc<O: Opened, A: Access<D>, D: Slot + Drop>(
    alloc: Global,
    access: &A,
    place: &mut A::Place,
    hand: Hand<D>,
    c: &Client,
    blocks: u32,
    bytes: u64,
) -> (Hand<D>, Result<Loan, PoolErr>)
    requires turns { A.turns O.opening O.outset access.now place.old hand.session }
    requires at_work { IsAtWork D.Slot O.opening O.outset (A.seen place.old) hand }
    requires client { IsLiveClient c.now (held_by O.opening O.outset hand) }
    requires blocks { IsBlockCount blocks }
    requires bytes { (bytes ≡ length_of blocks (held_by O.opening O.outset hand)) × (bytes ≤ unused_of c.now.tracker (held_by O.opening O.outset hand)) }
    ensures turns { A.turns O.opening O.outset access.now place.new result.0.session }
    ensures at_work { IsAtWork D.Slot O.opening O.outset (A.seen place.new) result.0 }
    ensures allocs { Allocs (in_hand O.opening O.outset hand result.0) c.now.tracker blocks result.1 }
    ensures needed { EntersNeeded c.now.tracker bytes hand result.0 }
{
    let Ok(shell) = Shell::with(alloc, blocks) else {
        return (hand, Err(PoolErr::Memory));
    };
    let client = c.tracker();
    let want = Want::Hold(bytes);
    let call = Call::Alloc { client, blocks };
    let (mut hand, result) = make_room::<O, A, D>(access, place, hand, c, want, &call);
    if let Err(e) = result {
        return (hand, Err(e));
    }
    let loan = hand.alloc::<O>(c, shell);
    (hand, Ok(loan))
}

/// Pins a pinned page once more, once there is room. `bytes` is its length.
pub fn pin_again<O: Opened, A: Access<D>, D: Slot + Drop>(
    access: &A,
    place: &mut A::Place,
    hand: Hand<D>,
    p: &Page,
) -> (Hand<D>, Result<(), PoolErr>)
    requires turns { A.turns O.opening O.outset access.now place.old hand.session }
    requires at_work { IsAtWork D.Slot O.opening O.outset (A.seen place.old) hand }
    requires page { IsPage p.now (held_by O.opening O.outset hand) }
    requires pinned { 1 ≤ (page_of p.now.name (held_by O.opening O.outset hand)).pins }
    requires unused { page_len p.now.name (held_by O.opening O.outset hand) ≤ unused_of p.now.client (held_by O.opening O.outset hand) }
    ensures turns { A.turns O.opening O.outset access.now place.new result.0.session }
    ensures at_work { IsAtWork D.Slot O.opening O.outset (A.seen place.new) result.0 }
    ensures pins_again { PinsAgain (in_hand O.opening O.outset hand result.0) p.now result.1 }
    ensures needed { EntersNeeded p.now.client (page_len p.now.name (held_by O.opening O.outset hand)) hand result.0 }
{
    let want = Want::Hold(hand.page_len::<O>(p));
    let call = Call::PinAgain { page: p.name() };
    let c = Client::of(hand.session, p.client());
    let (mut hand, result) = make_room::<O, A, D>(access, place, hand, &c, want, &call);
    c.into_tracker();
    if let Err(e) = result {
        return (hand, Err(e));
    }
    hand.pin_again::<O>(p);
    (hand, Ok(()))
}

/// Charges a loan to another client, once that one has room.
pub fn move_buffer<O: Opened, A: Access<D>, D: Slot + Drop>(
    access: &A,
    place: &mut A::Place,
    hand: Hand<D>,
    loan: Loan,
    to: &Client,
) -> (Hand<D>, Result<Loan, (Loan, PoolErr)>)
    requires turns { A.turns O.opening O.outset access.now place.old hand.session }
    requires at_work { IsAtWork D.Slot O.opening O.outset (A.seen place.old) hand }
    requires loan { IsLoan loan (held_by O.opening O.outset hand) × IsLiveClient to.now (held_by O.opening O.outset hand) }
    requires apart { loan.client ≢ to.now.tracker }
    requires unused { loan_len loan.number (held_by O.opening O.outset hand) ≤ unused_of to.now.tracker (held_by O.opening O.outset hand) }
    ensures turns { A.turns O.opening O.outset access.now place.new result.0.session }
    ensures at_work { IsAtWork D.Slot O.opening O.outset (A.seen place.new) result.0 }
    ensures moves { MovesBuffer (in_hand O.opening O.outset hand result.0) loan to.now.tracker result.1 }
    ensures needed { EntersNeeded to.now.tracker (loan_len loan.number (held_by O.opening O.outset hand)) hand result.0 }
{
    let want = Want::Hold(loan.buf().len() as u64);
    let call = Call::MoveBuffer {
        buffer: loan.number(),
        to: to.tracker(),
    };
    let (mut hand, result) = make_room::<O, A, D>(access, place, hand, to, want, &call);
    if let Err(e) = result {
        return (hand, Err((loan, e)));
    }
    let moved = hand.move_buffer::<O>(loan, to);
    (hand, Ok(moved))
}
