//! A session is let in.
ghost use Rattle.std.specs.Prelude.{◌≡◌, ◌≤◌, ◌<◌, ◌+◌, ◌++◌, [], None, Ok, IfOk, IfErr, OnOk};
ghost use Rattle.block_arena.specs.Blocks.{IsBlockLen};
ghost use Rattle.pin_core.specs.StateOf.{state_of};
ghost use Rattle.pin_core.specs.calls.Sessions.{query_of};
ghost use Rattle.turn_table.specs.Lists.{times};
ghost use Rattle.turn_table.specs.Knowledge.{HasTurn};
ghost use Rattle.turn_table.specs.Steps.{grown};
ghost use Rattle.pool.specs.Items.{door, is_stopped};
ghost use Rattle.pool.specs.Seats.{live_in, taken_in};
ghost use Rattle.pool.specs.Standing.{StandsAs};
ghost use Rattle.pool.specs.Seating.{Begins, IsSessionRefusal, MustTurnAway, TurnsAway, beginning_items};
ghost use Rattle.pool.specs.Remaining.{all_left, refusal_of};

use crate::accounts::ClientAccounts;
use crate::admitting::admit;
use crate::item::Item;
use crate::ledger::Ledger;
use crate::pass::Pass;
use crate::place::Place;
use crate::seat::SessionSeat;
use crate::shared::Shared;
use outside::Slot;
use pin_core::PoolState;
use reservation_tree::{Memory, PoolErr, TrackerId};
use session_calls::Opened;
use session_table::MAX_SESSIONS;
use std::marker::Brand;
use std::sync::Wait;
use turn_table::{Adds, TurnSeat, Turns};

// One turn of the pass: it finds what is against the session, or lets it in.
pub(crate) fn seat_session<D: Slot + Drop, T: Opened, R: Wait>(
    rt: &R,
    turns: &Turns<Shared<D, T>>,
    pass: &mut Pass<D, T>,
    limit: u64,
    quota: u32,
    least: u64,
    block_len: u32,
    accounts: Result<ClientAccounts, Memory>,
) -> Result<SessionSeat<D, T>, PoolErr>
    requires power { IsBlockLen block_len }
    requires len { block_len ≡ T.opening.block_len }
    requires none { IfOk accounts (λ accounts. accounts ≡ []) }
    requires table { pass.old.table ≡ turns.now }
    requires spare { quota + taken_in pass.old.knows.seen ≤ T.opening.slots }
    ensures ok { IfOk result (λ s. Begins T.opening T.outset.told limit quota least pass.old pass.new s) }
    ensures err { IfErr result (λ e. TurnsAway T.opening limit least pass.old pass.new e) }
    ensures fresh { live_in pass.old.knows.seen ≡ 0 → refusal_of (record { limit = limit; quota = quota; least = least; count = 1 }) (all_left T.opening) ≡ None → IfErr result (λ e. e ≡ PoolErr.Memory) }
{
    let mut shared = turns.enter(rt, &mut pass.seat);
    shared.state.parts();
    let accounts = match check_session(&shared.state, limit, least, accounts) {
        Ok(accounts) => accounts,
        Err(refusal) => {
            turns.leave::<Brand>(&mut pass.seat, shared);
            return Err(refusal);
        }
    };
    let number = admit(&mut shared, limit, quota, least);
    pass.spare -= quota;
    leave_begun::<Brand, D, T>(turns, &mut pass.seat, shared, number, limit, quota, least);
    let seat = turns.split(&mut pass.seat, Some(number));
    let spot = Place {
        seat,
        stopped: false,
    };
    let ledger = Ledger {
        room: least,
        accounts,
    };
    Ok(SessionSeat {
        number,
        block_len,
        ledger,
        spot,
    })
}

// Whether nothing is against a session: a number is left, so much can be reserved, and there was memory for accounts.
fn check_session<D: Slot + Drop>(
    state: &PoolState<D>,
    limit: u64,
    least: u64,
    accounts: Result<ClientAccounts, Memory>,
) -> Result<ClientAccounts, PoolErr>
    ensures ok { OnOk result (MustTurnAway (state_of state.now) limit least → ⊥) }
    ensures accounts { IfOk result (λ found. accounts ≡ Ok found) }
    ensures err { IfErr result (λ e. IsSessionRefusal (state_of state.now) limit least e) }
{
    if state.parts().seats.vacant().is_none() {
        return Err(PoolErr::TooManyTrackers {
            count: MAX_SESSIONS,
        });
    }
    // No tracker has this number: the session's would be refused before it came.
    if limit < least {
        return Err(PoolErr::NoReservation {
            tracker: TrackerId::of(u32::MAX),
            wanted: least,
            room: limit,
        });
    }
    let root = TrackerId::of(0);
    let growth = least.saturating_sub(state.unused(root));
    let room = state.limit(root) - state.reservation(root);
    if room < growth {
        return Err(PoolErr::NoReservation {
            tracker: root,
            wanted: growth,
            room,
        });
    }
    Ok(accounts?)
}

// The turn ends with the session's first items, which `N` names.
fn leave_begun<N: Adds<Item>, D: Slot + Drop, T: Opened>(
    turns: &Turns<Shared<D, T>>,
    seat: &mut TurnSeat<Shared<D, T>>,
    shared: Shared<D, T>,
    _number: u32,
    _limit: u64,
    _quota: u32,
    _least: u64,
)
    requires named { N.entries ≡ beginning_items _number (query_of (state_of shared.state) _number) _limit _quota _least }
    requires table { seat.old.table ≡ turns.now }
    requires turn { HasTurn seat.old.knows }
    requires stands { StandsAs D.Slot T.opening T.outset.told T.first (seat.old.knows.seen ++ beginning_items _number (query_of (state_of shared.state) _number) _limit _quota _least) (record { trail = shared.trail; counts = shared.counts }) shared.state }
    requires stop { shared.stopped ≡ is_stopped seat.old.knows.seen }
    requires rights { (0 < times door seat.old.knows.rights) × (0 < times _number seat.old.knows.rights) }
    ensures table { seat.new.table ≡ turns.now }
    ensures grown { seat.new.knows ≡ grown (beginning_items _number (query_of (state_of shared.state) _number) _limit _quota _least) seat.old.knows }
{
    turns.leave::<N>(seat, shared);
}
