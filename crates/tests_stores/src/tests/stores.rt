//! A store in memory against worked rows.
ghost use Rattle.std.specs.Prelude.{◌≡◌, ◌≢◌, ℕ, ◌*◌, ◌≤◌, IfOk, OnOk, OnErr};
ghost use Rattle.store_api.specs.Holdings.{unused_of, loan_len};
ghost use Rattle.store_api.specs.Changes.{after_free, after_move_buffer};
ghost use Rattle.store_api.specs.Conditions.{IsLiveClient, IsLoan};
ghost use Rattle.store_api.specs.Alike.{Alike, AlikeButClients};

mod emitters;
mod page_rows;
mod pins;
mod row_count;

use reservation_tree::{PoolErr, TrackerId};
use std::alloc::Global;
use std::test::Fail;
use store_api::{
    Client, Loan, MemStore, Store, Walked, law_emitters, law_entries, law_give_back, law_growth,
    law_names, law_pins, law_slots, walk,
};

#[test]
fn a_least_reservation_that_passes_the_limit_is_refused_at_the_query(
    rt: HostRuntime,
) -> Result<(), Fail> {
    match MemStore::open(rt.alloc(), 64, 1280, 1344) {
        Ok(store) => {
            store.close();
            assert!(rt; false);
        }
        Err(e) => assert_eq!(rt;
            e,
            PoolErr::NoReservation {
                tracker: TrackerId::of(1),
                wanted: 1344,
                room: 1280,
            }
        ),
    }
    Ok(())
}

#[test]
fn a_walk_sees_its_bytes_and_leaves_no_client(rt: HostRuntime) -> Result<(), Fail> {
    let mut store = MemStore::open(rt.alloc(), 64, 1280, 1280)?;
    let walked = walk(&mut store, rt.alloc());
    assert_eq!(rt; store.block_len(), 64);
    store.close();
    assert_eq!(rt;
        walked,
        Ok(Walked {
            pinned: 7,
            moved: 9,
            fresh: 0,
        })
    );
    Ok(())
}

// What one client more is answered, where so many come first. All of them end.
fn one_more<St: Store>(store: &mut St, before: u32) -> Result<(), PoolErr>
    ensures rest { AlikeButClients (St.holds store.old) (St.holds store.new) }
    ensures clients { (q : ℕ) → (St.holds store.new).clients q ≡ (St.holds store.old).clients q }
{
    let c = store.add_client(0)?;
    let answer = if before == 0 {
        Ok(())
    } else {
        one_more(store, before - 1)
    };
    store.end_client(c);
    answer
}

#[test]
fn sixteen_clients_may_be_live_and_no_seventeenth(rt: HostRuntime) -> Result<(), Fail> {
    let mut store = MemStore::open(rt.alloc(), 64, 1280, 1280)?;
    let sixteenth = one_more(&mut store, 15);
    let seventeenth = one_more(&mut store, 16);
    store.close();
    assert_eq!(rt; sixteenth, Ok(()));
    assert_eq!(rt; seventeenth, Err(PoolErr::TooManyTrackers { count: 16 }));
    Ok(())
}

/// What two clients have unused, in bytes.
#[derive(Clone, Copy, Debug, PartialEq, Eq)]
struct Unused(u64, u64);

fn both_unused<St: Store>(store: &St, c: &Client, other: &Client) -> Unused
    requires client { IsLiveClient c.now (St.holds store.now) }
    requires other { IsLiveClient other.now (St.holds store.now) }
{
    Unused(store.unused(c), store.unused(other))
}

// The loan is charged to the other client.
fn moved<St: Store>(
    store: &mut St,
    loan: Loan,
    c: &Client,
    other: &Client,
) -> Result<(Loan, Unused), PoolErr>
    requires loan { IsLoan loan (St.holds store.old) }
    requires client { IsLiveClient c.now (St.holds store.old) }
    requires other { IsLiveClient other.now (St.holds store.old) }
    requires unused { loan_len loan.number (St.holds store.old) ≤ unused_of other.now.tracker (St.holds store.old) }
    ensures moved { IfOk result (λ made. made.0 ≡ record loan { client = other.now.tracker }) }
    ensures ok { OnOk result (St.holds store.new ≡ after_move_buffer loan.number other.now.tracker (St.holds store.old)) }
    ensures err { OnErr result (Alike (after_free loan.number (St.holds store.old)) (St.holds store.new)) }
{
    match store.move_buffer(loan, other) {
        Ok(loan) => {
            let seen = both_unused(store, c, other);
            Ok((loan, seen))
        }
        Err((loan, e)) => {
            store.free(loan);
            Err(e)
        }
    }
}

// The loan is charged to the other client, and is freed.
fn moved_and_freed<St: Store>(
    store: &mut St,
    loan: Loan,
    c: &Client,
    other: &Client,
) -> Result<Unused, PoolErr>
    requires loan { IsLoan loan (St.holds store.old) }
    requires client { IsLiveClient c.now (St.holds store.old) }
    requires other { IsLiveClient other.now (St.holds store.old) }
    requires unused { loan_len loan.number (St.holds store.old) ≤ unused_of other.now.tracker (St.holds store.old) }
    ensures freed { Alike (after_free loan.number (St.holds store.old)) (St.holds store.new) }
{
    let (loan, seen) = moved(store, loan, c, other)?;
    store.free(loan);
    Ok(seen)
}

// A page's buffer becomes a loan, is charged to the other client, and is freed.
fn charges_of_a_buffer<St: Store>(
    store: &mut St,
    alloc: Global,
    c: &Client,
    other: &Client,
) -> Result<[Unused; 3], PoolErr>
    requires client { IsLiveClient c.now (St.holds store.old) }
    requires other { IsLiveClient other.now (St.holds store.old) }
    requires apart { c.now.tracker ≢ other.now.tracker }
    requires unused { (St.holds store.old).block_len ≤ unused_of c.now.tracker (St.holds store.old) }
    requires unused_other { (St.holds store.old).block_len ≤ unused_of other.now.tracker (St.holds store.old) }
    ensures same { Alike (St.holds store.old) (St.holds store.new) }
{
    let (page, buf) = store.create(alloc, c, 1)?;
    let pinned = both_unused(store, c, other);
    let loan = store.extract(page, buf);
    let lent = both_unused(store, c, other);
    let moved = moved_and_freed(store, loan, c, other)?;
    Ok([pinned, lent, moved])
}

// The first client gets two blocks' length of reservation more, and the other one.
fn both_reserved<St: Store>(store: &mut St, c: &Client, other: &Client) -> Result<(), PoolErr>
    requires client { IsLiveClient c.now (St.holds store.old) }
    requires other { IsLiveClient other.now (St.holds store.old) }
    requires apart { c.now.tracker ≢ other.now.tracker }
    ensures rest { AlikeButClients (St.holds store.old) (St.holds store.new) }
    ensures others { (q : ℕ) → q ≢ c.now.tracker → q ≢ other.now.tracker → (St.holds store.new).clients q ≡ (St.holds store.old).clients q }
    ensures client { IsLiveClient c.now (St.holds store.new) }
    ensures other { IsLiveClient other.now (St.holds store.new) }
    ensures unused { OnOk result (2 * (St.holds store.old).block_len ≤ unused_of c.now.tracker (St.holds store.new)) }
    ensures unused_other { OnOk result ((St.holds store.old).block_len ≤ unused_of other.now.tracker (St.holds store.new)) }
{
    let len = u64::from(store.block_len());
    store.reserve(c, 2 * len)?;
    store.reserve(other, len)
}

fn reserved_charges<St: Store>(
    store: &mut St,
    alloc: Global,
    c: &Client,
    other: &Client,
) -> Result<[Unused; 4], PoolErr>
    requires client { IsLiveClient c.now (St.holds store.old) }
    requires other { IsLiveClient other.now (St.holds store.old) }
    requires apart { c.now.tracker ≢ other.now.tracker }
    requires short { (St.holds store.old).block_len ≤ 65536 }
    ensures rest { AlikeButClients (St.holds store.old) (St.holds store.new) }
    ensures others { (q : ℕ) → q ≢ c.now.tracker → q ≢ other.now.tracker → (St.holds store.new).clients q ≡ (St.holds store.old).clients q }
    ensures client { IsLiveClient c.now (St.holds store.new) }
    ensures other { IsLiveClient other.now (St.holds store.new) }
{
    both_reserved(store, c, other)?;
    let [pinned, lent, moved] = charges_of_a_buffer(store, alloc, c, other)?;
    Ok([pinned, lent, moved, both_unused(store, c, other)])
}

// By two clients, which end.
fn charges<St: Store>(store: &mut St, alloc: Global) -> Result<[Unused; 4], PoolErr>
    requires { (St.holds store.old).block_len ≤ 65536 }
    ensures { AlikeButClients (St.holds store.old) (St.holds store.new) }
{
    let c = store.add_client(u64::MAX)?;
    let seen = match store.add_client(u64::MAX) {
        Ok(other) => {
            let seen = reserved_charges(store, alloc, &c, &other);
            store.end_client(other);
            seen
        }
        Err(e) => Err(e),
    };
    store.end_client(c);
    seen
}

#[test]
fn a_buffer_is_charged_to_one_client_until_it_is_freed(rt: HostRuntime) -> Result<(), Fail> {
    let mut store = MemStore::open(rt.alloc(), 64, 1280, 1280)?;
    let seen = charges(&mut store, rt.alloc());
    store.close();
    // pinned by the first, lent to it, moved to the other, freed
    let want = [
        Unused(64, 64),
        Unused(64, 64),
        Unused(128, 0),
        Unused(128, 64),
    ];
    assert_eq!(rt; seen, Ok(want));
    Ok(())
}

#[test]
fn laws_are_calls_that_do_nothing(_rt: HostRuntime) {
    law_entries();
    law_give_back();
    law_growth();
    law_slots();
    law_names();
    law_pins();
    law_emitters();
}
