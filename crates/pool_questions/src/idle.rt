//! Whether clients and sessions may end.
ghost use Rattle.std.specs.Prelude.{◌≡◌, ◌≢◌, ℕ, None, Some, IsTrue};
ghost use Rattle.std.specs.FinMap.{get};
ghost use Rattle.page_table.specs.declared.entry.Entry.{Entry as Page};
ghost use Rattle.reservation_tree.specs.Tracker.{HasNoChild, IsLive};
ghost use Rattle.session_table.specs.Seats.{seat_of};
ghost use Rattle.pin_core.specs.declared.kept.Kept.{Kept as Slots};
ghost use Rattle.pin_core.specs.calls.Sessions.{IsIdle, query_of};
ghost use Rattle.pin_core.specs.StateOf.{state_of};

use crate::clients::{is_client_of, is_seat};
use page_table::PageTable;
use pin_core::{Kept, PoolState};
use reservation_tree::TrackerId;
use session_table::{MAX_SESSIONS, SessionTable};

/// Whether a client of the session has neither a page nor a loan.
pub fn is_idle<D: Drop>(pool: &PoolState<D>, s: u32, t: TrackerId) -> bool
    ensures { IsTrue result → IsIdle (state_of pool.now) t }
{
    is_client_of(pool, s, t) && has_nothing(pool, t.number())
}

// Whether no page and no loan is this client's, by its charge and by the table.
fn has_nothing<D: Drop>(pool: &PoolState<D>, client: u32) -> bool
    requires { IsLive (state_of pool.now).trackers client }
    ensures { IsTrue result → IsIdle (state_of pool.now) client }
{
    let parts = pool.parts();
    parts.tree.used(TrackerId::of(client)) == 0 && has_no_page(&parts.pages, client)
}

/// Whether the session is live and has no client.
pub fn has_no_client<D: Drop>(pool: &PoolState<D>, s: u32) -> bool
    ensures { IsTrue result → HasNoChild (state_of pool.now).trackers (query_of (state_of pool.now) s) }
{
    let parts = pool.parts();
    is_seat(pool, s) && parts.seats.members(s).len() == 0
}

/// Whether there is no session.
pub fn has_no_session<D: Drop>(pool: &PoolState<D>) -> bool
    ensures { IsTrue result → (s : ℕ) → get (state_of pool.now).sessions s ≡ None }
{
    let parts = pool.parts();
    are_vacant(&parts.seats)
}

// Whether no page is this client's.
fn has_no_page<D: Drop>(pages: &PageTable<Kept<D>>, client: u32) -> bool
    ensures { IsTrue result → (p : ℕ) (x : Page (Slots D)) → get pages.now.entries p ≡ Some x → x.client ≢ client }
{
    pages.law_proper();
    for key in 0..pages.room() {
        if !is_apart(pages, key, client) {
            return false;
        }
    }
    true
}

// Whether the page with this key, if there is one, is another client's.
fn is_apart<D: Drop>(pages: &PageTable<Kept<D>>, key: u32, client: u32) -> bool
    ensures { IsTrue result → (name : ℕ) (x : Page (Slots D)) → get pages.now.names key ≡ Some name → get pages.now.entries name ≡ Some x → x.client ≢ client }
{
    let Some(id) = pages.id_at(key) else {
        return true;
    };
    let Some(entry) = pages.get(id) else {
        return false;
    };
    entry.client != client
}

// Whether no number has a session.
fn are_vacant(seats: &SessionTable) -> bool
    ensures { IsTrue result → (s : ℕ) → seat_of seats.now s ≡ None }
{
    seats.law_proper();
    for s in 0..MAX_SESSIONS {
        if seats.is_seated(s) {
            return false;
        }
    }
    true
}
