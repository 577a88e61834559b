//! Pages that rest are pinned, or end.
ghost use Rattle.std.specs.Prelude.{◌≡◌, ◌∷◌, ◌++◌, [], true};
ghost use Rattle.pool_model.specs.declared.event.Event.TheVariants as event;
ghost use Rattle.pin_core.specs.calls.Evictions.{evictions};
ghost use Rattle.store_api.specs.Holdings.{page_len, page_of};
ghost use Rattle.store_api.specs.Conditions.{IsHeld, IsPage};
ghost use Rattle.session_calls.specs.Pinning.{CanBePinned};
ghost use Rattle.session_calls.specs.Acting.{held_by};
ghost use Rattle.session_calls.specs.Calls.{Pins, in_hand};
ghost use Rattle.session_calls.specs.Having.{IsAtWork};
ghost use Rattle.session_calls.specs.Jobs.{DoesIn};
ghost use Rattle.session_calls.specs.Needing.{EntersNeeded};
ghost use Rattle.session_calls.specs.Pinning.{GoesFurther, HasAsked, PinIs};

use crate::access::Access;
use crate::count::{count_read, count_write};
use crate::entering::{enter, enter_evicted};
use crate::hand::Hand;
use crate::jobs::{Unread, read_back, write_out};
use crate::log::Log;
use crate::opened::Opened;
use crate::turning::{enter_started, wait};
use block_arena::Buf;
use outside::Slot;
use pin_core::{EvictedPages, PinTurn};
use pool_model::{Call, Event};
use reservation_tree::PoolErr;
use store_api::Page;

/// What became of one turn of a pin.
pub(crate) enum PinStep {
    /// The page is pinned, and this is its buffer.
    Pinned(Buf),
    /// A write or a read of a page of the client failed since the call began. The number is that of its entry.
    Refused { entry: u64 },
    /// A page was written, or a store of it failed; or one in flight was waited for.
    Wrote,
    /// The page itself couldn't be loaded, or a load gave another block.
    Unread(Unread),
}

/// Pins a page that rests: where it is, or once there is room for it, after a load where it isn't in memory.
pub fn pin<O: Opened, A: Access<D>, D: Slot + Drop>(
    access: &A,
    place: &mut A::Place,
    mut hand: Hand<D>,
    p: &Page,
) -> (Hand<D>, Result<Buf, PoolErr>)
    requires turns { A.turns O.opening O.outset access.now place.old hand.session }
    requires at_work { IsAtWork D.Slot O.opening O.outset (A.seen place.old) hand }
    requires can { CanBePinned p.now (held_by O.opening O.outset hand) }
    ensures turns { A.turns O.opening O.outset access.now place.new result.0.session }
    ensures at_work { IsAtWork D.Slot O.opening O.outset (A.seen place.new) result.0 }
    ensures pins { Pins (in_hand O.opening O.outset hand result.0) p.now result.1 }
    ensures needed { EntersNeeded p.now.client (page_len p.now.name (held_by O.opening O.outset hand)) hand result.0 }
{
    let call = Call::Pin { page: p.name() };
    hand.ask::<O>();
    let mut left = u64::MAX;
    loop {
        let (now, step) = pin_step::<O, A, D>(access, place, hand, p);
        hand = now;
        match step {
            PinStep::Pinned(buf) => return (hand, Ok(buf)),
            PinStep::Refused { entry } => {
                hand.refuse::<O>(&call, entry);
                return (hand, Err(PoolErr::WriteFault { entry }));
            }
            PinStep::Wrote => left = access.again(left),
            PinStep::Unread(unread) => {
                hand.refuse::<O>(&call, unread.entry);
                return (hand, Err(unread.err));
            }
        }
    }
}

// The first that applies: a page in flight is waited for; a dirty page is pinned; where the client has room, a clean one
// is pinned and an evicted one loaded; a failure refuses the call; the client's newest dirty page is written.
fn pin_step<O: Opened, A: Access<D>, D: Slot + Drop>(
    access: &A,
    place: &mut A::Place,
    mut hand: Hand<D>,
    p: &Page,
) -> (Hand<D>, PinStep)
    requires turns { A.turns O.opening O.outset access.now place.old hand.session }
    requires at_work { IsAtWork D.Slot O.opening O.outset (A.seen place.old) hand }
    requires can { CanBePinned p.now (held_by O.opening O.outset hand) }
    requires asked { HasAsked hand }
    ensures turns { A.turns O.opening O.outset access.now place.new result.0.session }
    ensures at_work { IsAtWork D.Slot O.opening O.outset (A.seen place.new) result.0 }
    ensures step { PinIs O.opening O.outset p.now result.1 hand result.0 }
    ensures needed { EntersNeeded p.now.client (page_len p.now.name (held_by O.opening O.outset hand)) hand result.0 }
    ensures further { A.alone ≡ true → GoesFurther p.now.client result.1 hand result.0 }
{
    match hand.state.pin_turn(hand.session, 0, p, &mut hand.gone) {
        PinTurn::Here(buf) => {
            let page = p.name();
            enter(&mut hand.trail, hand.session, Event::PinHere { page });
            (hand, PinStep::Pinned(buf))
        }
        PinTurn::Load(job) => {
            enter_begun(&mut hand.trail, hand.session, p.name(), &hand.gone);
            count_read(&mut hand.counts, &job);
            let (hand, result) = read_back::<O, A, D>(access, place, hand, job);
            match result {
                Ok(buf) => (hand, PinStep::Pinned(buf)),
                Err(unread) => (hand, PinStep::Unread(unread)),
            }
        }
        PinTurn::Refused { entry } => (hand, PinStep::Refused { entry }),
        PinTurn::Write(job) => {
            enter_started(&mut hand.trail, hand.session, &job);
            count_write(&mut hand.counts, &job);
            (
                write_out::<O, A, D>(access, place, hand, job),
                PinStep::Wrote,
            )
        }
        PinTurn::Wait => (wait::<O, A, D>(access, place, hand), PinStep::Wrote),
    }
}

// Clean pages went, and a load of this page began.
fn enter_begun(trail: &mut Log, session: u32, page: u64, gone: &EvictedPages)
    ensures { trail.new ≡ trail.old ++ (evictions session gone.now ++ record { maker = session; event = event.PinLoad page } ∷ []) }
{
    enter_evicted(trail, session, gone);
    enter(trail, session, Event::PinLoad { page });
}

/// Ends a page. One that is in flight is waited for.
pub fn destroy<O: Opened, A: Access<D>, D: Slot + Drop>(
    access: &A,
    place: &mut A::Place,
    mut hand: Hand<D>,
    p: Page,
    buf: Option<Buf>,
) -> Hand<D>
    requires turns { A.turns O.opening O.outset access.now place.old hand.session }
    requires at_work { IsAtWork D.Slot O.opening O.outset (A.seen place.old) hand }
    requires page { IsPage p (held_by O.opening O.outset hand) }
    requires buffer { IsHeld p (held_by O.opening O.outset hand) buf }
    ensures turns { A.turns O.opening O.outset access.now place.new result.session }
    ensures at_work { IsAtWork D.Slot O.opening O.outset (A.seen place.new) result }
    ensures did { DoesIn (λ events. events ≡ event.Destroy p.name ∷ []) hand result }
{
    let page = p.name();
    let Some(buf) = buf else {
        return destroy_resting::<O, A, D>(access, place, hand, p);
    };
    hand.state.destroy_pinned(p, buf);
    enter(&mut hand.trail, hand.session, Event::Destroy { page });
    hand
}

// Ends a page that isn't pinned.
fn destroy_resting<O: Opened, A: Access<D>, D: Slot + Drop>(
    access: &A,
    place: &mut A::Place,
    mut hand: Hand<D>,
    mut p: Page,
) -> Hand<D>
    requires turns { A.turns O.opening O.outset access.now place.old hand.session }
    requires at_work { IsAtWork D.Slot O.opening O.outset (A.seen place.old) hand }
    requires page { IsPage p (held_by O.opening O.outset hand) }
    requires rests { (page_of p.name (held_by O.opening O.outset hand)).pins ≡ 0 }
    ensures turns { A.turns O.opening O.outset access.now place.new result.session }
    ensures at_work { IsAtWork D.Slot O.opening O.outset (A.seen place.new) result }
    ensures did { DoesIn (λ events. events ≡ event.Destroy p.name ∷ []) hand result }
{
    let page = p.name();
    let mut left = u64::MAX;
    loop {
        match hand.state.destroy_unpinned(p) {
            Ok(()) => {
                enter(&mut hand.trail, hand.session, Event::Destroy { page });
                return hand;
            }
            Err(flying) => p = flying,
        }
        hand = wait::<O, A, D>(access, place, hand);
        left = access.again(left);
    }
}
