// The clients of a query.

ghost use Rattle.std.specs.Prelude.{[], ◌∷◌, ◌≡◌, ◌≤◌, ◌<◌, None, Some};
ghost use Rattle.pool_model.specs.declared.event.Event.TheVariants as event;
ghost use Rattle.store_api.specs.Changes.{after_reserve};
ghost use Rattle.store_api.specs.Conditions.{IsNewClient};
ghost use Rattle.store_api.specs.Entries.{MadeThese};
ghost use Rattle.store_api.specs.Signs.{Grows};
ghost use Rattle.query_run.specs.Inside.{HasOwn};

use store_api::{Client, Store};

// A client that has so much reserved, for which the query has room, and may have more. This is never refused.
pub(crate) fn own_client<St: Store>(store: &mut St, limit: u64, bytes: u64) -> Client
    requires few { (St.holds store.old).live_clients < 16 }
    requires room { bytes ≤ (St.holds store.old).room }
    requires limit { bytes ≤ limit }
    ensures own { HasOwn result limit bytes (St.holds store.old) (St.holds store.new) }
    ensures entries { MadeThese (St.holds store.old).session (event.AddTracker result.tracker (St.holds store.old).query limit None ∷ event.Increase result.tracker bytes ∷ []) (St.signs store.old) (St.signs store.new) }
    ensures grows { Grows (St.signs store.old) (St.signs store.new) }
{
    let c = new_client(store, limit);
    grow(store, &c, limit, bytes);
    c
}

// A client that may have so much reservation, and has none.
fn new_client<St: Store>(store: &mut St, limit: u64) -> Client
    requires { (St.holds store.old).live_clients < 16 }
    ensures new { IsNewClient result limit (St.holds store.old) (St.holds store.new) }
    ensures entries { MadeThese (St.holds store.old).session (event.AddTracker result.tracker (St.holds store.old).query limit None ∷ []) (St.signs store.old) (St.signs store.new) }
    ensures grows { Grows (St.signs store.old) (St.signs store.new) }
{
    match store.add_client(limit) {
        Ok(c) => c,
        Err(_) => unreachable!(),
    }
}

// Raises a reservation of 0 by bytes for which the client's limit and the query's room suffice.
fn grow<St: Store>(store: &mut St, c: &Client, _limit: u64, bytes: u64)
    requires client { (St.holds store.old).clients c.now.tracker ≡ Some (record { limit = _limit; reservation = 0; unused = 0 }) }
    requires limit { bytes ≤ _limit }
    requires room { bytes ≤ (St.holds store.old).room }
    ensures grown { St.holds store.new ≡ after_reserve c.now.tracker bytes (St.holds store.old) }
    ensures entries { MadeThese (St.holds store.old).session (event.Increase c.now.tracker bytes ∷ []) (St.signs store.old) (St.signs store.new) }
    ensures grows { Grows (St.signs store.old) (St.signs store.new) }
{
    match store.reserve(c, bytes) {
        Ok(()) => (),
        Err(_) => unreachable!(),
    }
}
