//! A call begins, its client's pages are written until there is room, or it is refused.
ghost use Rattle.std.specs.Prelude.{◌≡◌, ◌≢◌, ◌++◌, ◌≤◌, [], ◌∷◌, IfErr, OnOk};
ghost use Rattle.reservation_tree.specs.declared.errors.PoolErr.TheVariants as refusal;
ghost use Rattle.pool_model.specs.declared.event.Event.TheVariants as event;
ghost use Rattle.pool_model.specs.Sums.{HasRoom};
ghost use Rattle.pool_model.specs.MayFollow.{MayFollow};
ghost use Rattle.pin_core.specs.StateOf.{state_of};
ghost use Rattle.pin_core.specs.calls.Refusing.{refusal_of};
ghost use Rattle.pin_core.specs.calls.Turns.{amount_of};
ghost use Rattle.store_api.specs.Holdings.{unused_of};
ghost use Rattle.store_api.specs.Conditions.{IsLiveClient};
ghost use Rattle.store_api.specs.Entries.{IsAsked};
ghost use Rattle.session_calls.specs.Wanting.{IsRoomCall, Wants};
ghost use Rattle.session_calls.specs.Ready.{IsReady};
ghost use Rattle.session_calls.specs.Acting.{ActsThese, held_by};
ghost use Rattle.session_calls.specs.Needing.{EntersNeeded};
ghost use Rattle.session_calls.specs.Having.{IsAtWork};
ghost use Rattle.session_calls.specs.Jobs.{DoesIn};
ghost use Rattle.session_calls.specs.Turning.{Refuses};

use crate::access::Access;
use crate::entering::enter;
use crate::hand::Hand;
use crate::opened::Opened;
use crate::turning::{Turn, room_turn};
use outside::Slot;
use pin_core::Want;
use pool_model::{Call, Event};
use reservation_tree::PoolErr;
use store_api::Client;

impl<D: Slot + Drop> Hand<D> {
    /// A call begins.
    pub fn ask<O: Opened>(&mut self)
        requires ready { IsReady D.Slot O.opening O.outset self.old }
        ensures acts { ActsThese (event.Ask ∷ []) self.old self.new }
        ensures ready { IsReady D.Slot O.opening O.outset self.new }
    {
        self.state.ask(self.session);
        enter(&mut self.trail, self.session, Event::Ask);
    }

    /// The call is refused for the failure with this number.
    pub fn refuse<O: Opened>(&mut self, call: &Call, entry: u64)
        requires ready { IsReady D.Slot O.opening O.outset self.old }
        requires may { MayFollow self.old.trail (state_of self.old.state) (refusal_of self.old.session call.now entry) }
        ensures acts { ActsThese (event.Refused call.now entry ∷ []) self.old self.new }
        ensures ready { IsReady D.Slot O.opening O.outset self.new }
    {
        self.state.refuse(self.session, call, entry);
        let call = *call;
        enter(
            &mut self.trail,
            self.session,
            Event::Refused { call, entry },
        );
    }
}

// A call begins, and the client's dirty pages are written, one at a time and the newest first, until the client can
// hold so much more.
pub(crate) fn make_room<O: Opened, A: Access<D>, D: Slot + Drop>(
    access: &A,
    place: &mut A::Place,
    mut hand: Hand<D>,
    c: &Client,
    want: Want,
    call: &Call,
) -> (Hand<D>, Result<(), PoolErr>)
    requires turns { A.turns O.opening O.outset access.now place.old hand.session }
    requires at_work { IsAtWork D.Slot O.opening O.outset (A.seen place.old) hand }
    requires client { IsLiveClient c.now (held_by O.opening O.outset hand) }
    requires unused { amount_of want ≤ unused_of c.now.tracker (held_by O.opening O.outset hand) }
    requires wants { Wants c.now.tracker (amount_of want) (held_by O.opening O.outset hand) call.now × IsRoomCall call.now }
    ensures turns { A.turns O.opening O.outset access.now place.new result.0.session }
    ensures at_work { IsAtWork D.Slot O.opening O.outset (A.seen place.new) result.0 }
    ensures ok { OnOk result.1 (DoesIn (IsAsked c.now.tracker (held_by O.opening O.outset hand) []) hand result.0) }
    ensures room { OnOk result.1 (HasRoom (state_of result.0.state) c.now.tracker (amount_of want)) }
    ensures err { IfErr result.1 (Refuses O.opening O.outset c.now.tracker call.now hand result.0) }
    ensures cause { IfErr result.1 (λ e. e ≢ refusal.NamesSpent) }
    ensures needed { EntersNeeded c.now.tracker (amount_of want) hand result.0 }
{
    hand.ask::<O>();
    let mut left = u64::MAX;
    loop {
        let (now, turn) = room_turn::<O, A, D>(access, place, hand, c, want);
        hand = now;
        match turn {
            Turn::Ready => return (hand, Ok(())),
            Turn::Refused { entry } => {
                hand.refuse::<O>(call, entry);
                return (hand, Err(PoolErr::WriteFault { entry }));
            }
            Turn::Wrote | Turn::Waited => left = access.again(left),
        }
    }
}
