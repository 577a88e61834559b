//! What the clients of a session may still charge, as the session last saw it, so that readers needn't wait for the value of
//! the pool.
//!
//! The order of the accounts says nothing. It stands while none comes or leaves, so that a caller can go over them by their
//! places.
ghost use Rattle.std.specs.Prelude.{◌≡◌, ◌+◌, ◌==◌, ◌<◌, ◌≤◌, ℕ, [], None, Some, IfOk, IsSome, if◌then◌else◌, length};
ghost use Rattle.pool.specs.Unused.{tracker_at, trackers_of, unused_in, with_unused};

use crate::account::ClientAccount;
use reservation_tree::{Memory, TrackerId};
use std::alloc::Global;
use std::marker::Model;

/// How many clients a session may have.
pub const MOST: usize = 16;

/// The accounts of a session's clients, at most `MOST`. Takes all its memory when it is opened.
#[derive(Drop)]
pub struct ClientAccounts {
    accounts: Vec<ClientAccount>,
}

impl Model for ClientAccounts {
    ghost use Rattle.std.specs.Prelude.{List, ◌≤◌, vec_capacity};
    ghost use Rattle.pool.specs.declared.account.ClientAccount.{ClientAccount};
    ghost use Rattle.pool.specs.Unused.{AreProper};

    ghost Value = { List ClientAccount };

    ghost view = { λ c. c.accounts.items };

    ghost invariant = { λ c. AreProper c.accounts.items × (16 ≤ vec_capacity c.accounts) };
}

impl ClientAccounts {
    /// No accounts, with room for those of `MOST` clients.
    ///
    /// # Errors
    ///
    /// `Memory` where there is not so much.
    pub fn open(alloc: Global) -> Result<ClientAccounts, Memory>
        ensures { IfOk result (λ accounts. accounts ≡ []) }
    {
        let accounts = Vec::with_capacity(alloc, MOST)?;
        Ok(ClientAccounts { accounts })
    }

    /// How many clients have an account.
    #[inline]
    pub fn len(&self) -> usize
        ensures count { result ≡ length self.now }
        ensures few { result ≤ 16 }
    {
        self.accounts.len()
    }

    /// The tracker of the account at a place.
    #[inline]
    pub fn tracker(&self, place: usize) -> TrackerId
        requires { place < length self.now }
        ensures tracker { result ≡ tracker_at self.now place }
        ensures there { IsSome (unused_in self.now result) }
    {
        self.accounts[place].tracker
    }

    /// What the client with that tracker may still charge, in bytes.
    #[inline]
    pub fn unused(&self, tracker: TrackerId) -> u64
        requires { IsSome (unused_in self.now tracker) }
        ensures { unused_in self.now tracker ≡ Some result }
    {
        let account = self
            .accounts
            .iter()
            .find(|account| account.tracker == tracker)
            .unwrap();
        account.unused
    }

    /// Opens the account of one more client.
    pub fn add(&mut self, tracker: TrackerId, unused: u64)
        requires fresh { unused_in self.old tracker ≡ None }
        requires room { length self.old < 16 }
        ensures unused { (t : ℕ) → unused_in self.new t ≡ (if t == tracker then Some unused else unused_in self.old t) }
        ensures count { length self.new ≡ length self.old + 1 }
    {
        self.accounts
            .push_reserved(ClientAccount { tracker, unused });
    }

    /// Writes what the client whose account stands at a place may still charge, in bytes.
    #[inline]
    pub fn set(&mut self, place: usize, unused: u64)
        requires { place < length self.old }

        // The account at the place is written, and no other.
        ensures written { self.new ≡ with_unused place unused self.old }

        // The same by trackers.
        ensures unused { (t : ℕ) → unused_in self.new t ≡ (if t == tracker_at self.old place then Some unused else unused_in self.old t) }
        ensures trackers { trackers_of self.new ≡ trackers_of self.old }
        ensures count { length self.new ≡ length self.old }
    {
        self.accounts[place].unused = unused;
    }

    /// Closes the account of the client with that tracker.
    pub fn remove(&mut self, tracker: TrackerId)
        requires { IsSome (unused_in self.old tracker) }
        ensures unused { (t : ℕ) → unused_in self.new t ≡ (if t == tracker then None else unused_in self.old t) }
        ensures count { length self.new + 1 ≡ length self.old }
    {
        self.accounts.retain(|account| account.tracker != tracker);
    }
}
