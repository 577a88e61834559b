//! Accounts against worked rows.
ghost use Rattle.std.specs.Prelude.{◌≡◌, is_some};
ghost use Rattle.pool.specs.Unused.{unused_in};

use pool::{ClientAccounts, MOST};
use reservation_tree::TrackerId;
use std::process::Abort;
use std::test::Fail;

fn has(accounts: &ClientAccounts, tracker: TrackerId) -> bool
    ensures { result ≡ is_some (unused_in accounts.now tracker) }
{
    for place in 0..accounts.len() {
        if accounts.tracker(place) == tracker {
            return true;
        }
    }
    false
}

#[test]
fn an_account_tells_what_was_written_last(rt: HostRuntime) -> Result<(), Fail> {
    let [first, second, third] = [TrackerId::of(5), TrackerId::of(2), TrackerId::of(9)];
    let mut accounts = ClientAccounts::open(rt.alloc())?;
    accounts.add(first, 640);
    accounts.add(second, 0);
    accounts.add(third, u64::MAX);
    accounts.set(1, 64);
    accounts.remove(first);
    assert_eq!(rt;
        (
            accounts.unused(second),
            accounts.unused(third),
            has(&accounts, first),
            accounts.len()
        ),
        (64, u64::MAX, false, 2)
    );
    Ok(())
}

#[test]
fn sixteen_accounts_fit(rt: HostRuntime) -> Result<(), Fail> {
    let mut accounts = ClientAccounts::open(rt.alloc())?;
    for number in 1..=16u32 {
        let tracker = TrackerId::of(number);
        if !has(&accounts, tracker) && accounts.len() < MOST {
            accounts.add(tracker, u64::from(number) * 1024);
        }
    }
    for number in 1..=16u32 {
        let tracker = TrackerId::of(number);
        assert!(rt; has(&accounts, tracker), "{number}");
        if has(&accounts, tracker) {
            assert_eq!(rt; accounts.unused(tracker), u64::from(number) * 1024);
        }
    }
    assert_eq!(rt; accounts.len(), MOST);
    Ok(())
}
