//! A walk over every call of a store, for the tests of each store. It is proved over the trait alone.
ghost use Rattle.std.specs.Prelude.{◌≡◌, ◌≢◌, ℕ, ◌*◌, ◌≤◌, true, IfOk, IfErr, OnOk, length, slice_index};
ghost use Rattle.store_api.specs.Holdings.{unused_of, loan_len};
ghost use Rattle.store_api.specs.Changes.{after_free};
ghost use Rattle.store_api.specs.Signs.{Grows, WasAnswered};
ghost use Rattle.store_api.specs.Walks.{HasWalked, StoppedRound, StoppedWalk};
ghost use Rattle.store_api.specs.Conditions.{IsLiveClient, IsLoan};
ghost use Rattle.store_api.specs.Alike.{Alike, AlikeButClients};

use crate::store::Store;
use crate::tokens::{Client, Loan};
use reservation_tree::PoolErr;
use std::alloc::Global;

// A byte is left in a page, and read again where a pin shows what was left; then the page ends.
#[tactic(auto, using(crate::proofs::Growing::grows_trans, crate::proofs::Answered::answered_before, crate::proofs::Answered::answered_after))]
fn page_round<St: Store>(store: &mut St, alloc: Global, c: &Client, byte: u8) -> Result<u8, PoolErr>
    requires client { IsLiveClient c.now (St.holds store.old) }
    requires unused { (St.holds store.old).block_len ≤ unused_of c.now.tracker (St.holds store.old) }
    requires block { 1 ≤ (St.holds store.old).block_len }
    ensures ok { IfOk result (λ shown. (St.holds store.old).told ≡ true → shown ≡ byte) }
    ensures same { Alike (St.holds store.old) (St.holds store.new) }
    ensures cause { IfErr result (λ e. WasAnswered e (St.signs store.old) (St.signs store.new)) }
    ensures grows { Grows (St.signs store.old) (St.signs store.new) }
{
    let (page, mut buf) = store.create(alloc, c, 1)?;
    buf.write_at(0, &[byte]);
    if let Err((buf, e)) = store.unpin(&page, buf) {
        store.destroy(page, Some(buf));
        return Err(e);
    }
    match store.pin(&page) {
        Ok(buf) => {
            let mut shown = [0];
            buf.read_at(0, &mut shown);
            store.destroy(page, Some(buf));
            Ok(shown[0])
        }
        Err(e) => {
            store.destroy(page, None);
            Err(e)
        }
    }
}

// A page is pinned once more, and ends with as many pins as it was made with.
#[tactic(auto, using(crate::proofs::Growing::grows_trans, crate::proofs::Answered::answered_before, crate::proofs::Answered::answered_after))]
fn again_round<St: Store>(store: &mut St, alloc: Global, c: &Client) -> Result<(), PoolErr>
    requires client { IsLiveClient c.now (St.holds store.old) }
    requires unused { 2 * (St.holds store.old).block_len ≤ unused_of c.now.tracker (St.holds store.old) }
    ensures same { Alike (St.holds store.old) (St.holds store.new) }
    ensures cause { IfErr result (λ e. WasAnswered e (St.signs store.old) (St.signs store.new)) }
    ensures grows { Grows (St.signs store.old) (St.signs store.new) }
{
    let (page, buf) = store.create(alloc, c, 1)?;
    match store.pin_again(&page) {
        Ok(()) => {
            store.unpin_once(&page);
            store.destroy(page, Some(buf));
            Ok(())
        }
        Err(e) => {
            store.destroy(page, Some(buf));
            Err(e)
        }
    }
}

// The loan is charged to the other client, shows its first byte, and is freed.
#[tactic(auto, using(crate::proofs::Growing::grows_trans, crate::proofs::Answered::answered_after))]
fn move_round<St: Store>(store: &mut St, loan: Loan, other: &Client) -> Result<u8, PoolErr>
    requires loan { IsLoan loan (St.holds store.old) }
    requires other { IsLiveClient other.now (St.holds store.old) }
    requires unused { loan_len loan.number (St.holds store.old) ≤ unused_of other.now.tracker (St.holds store.old) }
    requires byte { 1 ≤ length loan.buf.bytes }
    ensures ok { IfOk result (λ shown. shown ≡ slice_index loan.buf.bytes 0) }
    ensures freed { Alike (after_free loan.number (St.holds store.old)) (St.holds store.new) }
    ensures cause { IfErr result (λ e. WasAnswered e (St.signs store.old) (St.signs store.new)) }
    ensures grows { Grows (St.signs store.old) (St.signs store.new) }
{
    match store.move_buffer(loan, other) {
        Ok(loan) => {
            let mut shown = [0];
            loan.buf().read_at(0, &mut shown);
            store.free(loan);
            Ok(shown[0])
        }
        Err((loan, e)) => {
            store.free(loan);
            Err(e)
        }
    }
}

// A page's buffer becomes a loan, is charged to the other client, and is freed.
#[tactic(auto, using(crate::proofs::Growing::grows_trans, crate::proofs::Answered::answered_before))]
fn loan_round<St: Store>(
    store: &mut St,
    alloc: Global,
    c: &Client,
    other: &Client,
    byte: u8,
) -> Result<u8, PoolErr>
    requires client { IsLiveClient c.now (St.holds store.old) }
    requires other { IsLiveClient other.now (St.holds store.old) }
    requires apart { c.now.tracker ≢ other.now.tracker }
    requires unused { (St.holds store.old).block_len ≤ unused_of c.now.tracker (St.holds store.old) }
    requires unused_other { (St.holds store.old).block_len ≤ unused_of other.now.tracker (St.holds store.old) }
    requires block { 1 ≤ (St.holds store.old).block_len }
    ensures ok { IfOk result (λ shown. shown ≡ byte) }
    ensures same { Alike (St.holds store.old) (St.holds store.new) }
    ensures cause { IfErr result (λ e. WasAnswered e (St.signs store.old) (St.signs store.new)) }
    ensures grows { Grows (St.signs store.old) (St.signs store.new) }
{
    let (page, mut buf) = store.create(alloc, c, 1)?;
    buf.write_at(0, &[byte]);
    let loan = store.extract(page, buf);
    move_round(store, loan, other)
}

// A loan of zeros comes and goes.
#[tactic(auto, using(crate::proofs::Growing::grows_trans))]
fn alloc_round<St: Store>(store: &mut St, alloc: Global, c: &Client) -> Result<u8, PoolErr>
    requires client { IsLiveClient c.now (St.holds store.old) }
    requires unused { (St.holds store.old).block_len ≤ unused_of c.now.tracker (St.holds store.old) }
    requires block { 1 ≤ (St.holds store.old).block_len }
    ensures ok { IfOk result (λ shown. shown ≡ 0) }
    ensures same { Alike (St.holds store.old) (St.holds store.new) }
    ensures cause { IfErr result (λ e. WasAnswered e (St.signs store.old) (St.signs store.new)) }
    ensures grows { Grows (St.signs store.old) (St.signs store.new) }
{
    let loan = store.alloc(alloc, c, 1)?;
    let mut shown = [1];
    loan.buf().read_at(0, &mut shown);
    store.free(loan);
    Ok(shown[0])
}

// The first client gets two blocks' length of reservation, and the other one, by four blocks of the first; the rest
// is given back.
#[tactic(auto, using(crate::proofs::Growing::grows_trans, crate::proofs::Stopping::stopped_before, crate::proofs::Stopping::answered_stops))]
pub(crate) fn reserve_round<St: Store>(
    store: &mut St,
    c: &Client,
    other: &Client,
) -> Result<(), PoolErr>
    requires client { IsLiveClient c.now (St.holds store.old) }
    requires other { IsLiveClient other.now (St.holds store.old) }
    requires apart { c.now.tracker ≢ other.now.tracker }
    ensures block { 1 ≤ (St.holds store.old).block_len }
    ensures rest { AlikeButClients (St.holds store.old) (St.holds store.new) }
    ensures others { (q : ℕ) → q ≢ c.now.tracker → q ≢ other.now.tracker → (St.holds store.new).clients q ≡ (St.holds store.old).clients q }
    ensures client { IsLiveClient c.now (St.holds store.new) }
    ensures other { IsLiveClient other.now (St.holds store.new) }
    ensures unused { OnOk result (2 * (St.holds store.old).block_len ≤ unused_of c.now.tracker (St.holds store.new)) }
    ensures unused_other { OnOk result ((St.holds store.old).block_len ≤ unused_of other.now.tracker (St.holds store.new)) }
    ensures cause { IfErr result (StoppedRound (St.signs store.old) (St.signs store.new)) }
    ensures grows { Grows (St.signs store.old) (St.signs store.new) }
{
    let len = u64::from(store.block_len());
    store.reserve(c, 4 * len)?;
    store.move_reservation(c, other, len)?;
    store.give_back(c, len)?;
    store.reserve_to_fit(other, len)
}

/// What a walk saw: a byte of a page that was left and pinned again, of a loan that was moved, and of a new loan.
#[derive(Clone, Copy, Debug, PartialEq, Eq)]
pub struct Walked {
    pub pinned: u8,
    pub moved: u8,
    pub fresh: u8,
}

// Every call that clients make, by two of them.
#[tactic(auto, using(crate::proofs::Growing::grows_trans, crate::proofs::Stopping::stopped_before, crate::proofs::Stopping::answered_stops))]
fn rounds<St: Store>(
    store: &mut St,
    alloc: Global,
    c: &Client,
    other: &Client,
) -> Result<Walked, PoolErr>
    requires client { IsLiveClient c.now (St.holds store.old) }
    requires other { IsLiveClient other.now (St.holds store.old) }
    requires apart { c.now.tracker ≢ other.now.tracker }
    ensures ok { IfOk result (HasWalked (St.holds store.old).told) }
    ensures rest { AlikeButClients (St.holds store.old) (St.holds store.new) }
    ensures others { (q : ℕ) → q ≢ c.now.tracker → q ≢ other.now.tracker → (St.holds store.new).clients q ≡ (St.holds store.old).clients q }
    ensures client { IsLiveClient c.now (St.holds store.new) }
    ensures other { IsLiveClient other.now (St.holds store.new) }
    ensures cause { IfErr result (StoppedRound (St.signs store.old) (St.signs store.new)) }
    ensures grows { Grows (St.signs store.old) (St.signs store.new) }
{
    reserve_round(store, c, other)?;
    let pinned = page_round(store, alloc, c, 7)?;
    again_round(store, alloc, c)?;
    let moved = loan_round(store, alloc, c, other, 9)?;
    let fresh = alloc_round(store, alloc, c)?;
    Ok(Walked {
        pinned,
        moved,
        fresh,
    })
}

/// Calls each call of a store at least once, and leaves the store as it was but for the query's reservation.
///
/// # Errors
///
/// `TooManyTrackers`, only where fifteen or more clients are live. `NoReservation`: a growth passed a limit, or the
/// room of what is above. Else what the store answered in this call, or there was no memory. The store is left the
/// same way after an error.
#[tactic(auto, using(crate::proofs::Growing::grows_trans))]
pub fn walk<St: Store>(store: &mut St, alloc: Global) -> Result<Walked, PoolErr>
    ensures ok { IfOk result (HasWalked (St.holds store.old).told) }
    ensures rest { AlikeButClients (St.holds store.old) (St.holds store.new) }
    ensures clients { (q : ℕ) → (St.holds store.new).clients q ≡ (St.holds store.old).clients q }
    ensures cause { IfErr result (StoppedWalk (St.holds store.old) (St.signs store.old) (St.signs store.new)) }
    ensures grows { Grows (St.signs store.old) (St.signs store.new) }
{
    let c = store.add_client(u64::MAX)?;
    let walked = match store.add_client(u64::MAX) {
        Ok(other) => {
            let walked = rounds(store, alloc, &c, &other);
            store.end_client(other);
            walked
        }
        Err(e) => Err(e),
    };
    store.end_client(c);
    walked
}
