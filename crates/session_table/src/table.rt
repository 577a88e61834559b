//! The table of sessions.
ghost use Rattle.std.specs.Prelude.{◌≡◌, ◌↔◌, ◌<◌, ℕ, [], None, Some, false, true, IfOk, IfSome, IsSome, IsTrue, length, option_map};
ghost use Rattle.index_list.specs.Listing.{stands_in};
ghost use Rattle.session_table.specs.Seats.{AreProper, changed, first_of, forgotten, lowest_vacant, members_of, noted, seat_of, trackers_of, vacant, with_member, with_seat, without_member, without_seat};

use crate::member::Member;
use crate::row::Row;
use reservation_tree::Memory;
use std::alloc::Global;
use std::marker::Model;

/// How many sessions there may be. Their numbers are below it.
pub const MAX_SESSIONS: u32 = 240;

/// The sessions by their numbers.
#[derive(Drop)]
pub struct SessionTable {
    rows: Vec<Row>,
}

impl Model for SessionTable {
    ghost use Rattle.session_table.specs.Seats.{AreProper, Seats};

    ghost Value = { Seats };

    ghost view = { λ t. t.rows.items };

    ghost invariant = { λ t. AreProper t.rows.items };
}

impl SessionTable {
    /// A table without sessions. Takes all the memory that it will ever use.
    ///
    /// # Errors
    ///
    /// `Memory` where there is not so much.
    pub fn with(alloc: Global) -> Result<SessionTable, Memory>
        ensures { IfOk result (λ table. table ≡ vacant) }
    {
        let mut rows = Vec::with_capacity(alloc, MAX_SESSIONS as usize)?;
        for _i in 0..MAX_SESSIONS {
            rows.push_reserved(Row::with(alloc)?);
        }
        Ok(SessionTable { rows })
    }

    /// The lowest number without a session; `None` exactly where each number has one.
    pub fn vacant(&self) -> Option<u32>
        ensures lowest { result ≡ lowest_vacant self.now }
        ensures vacant { IfSome result (λ s. (s < 240) × (seat_of self.now s ≡ None)) }
        ensures none { (result ≡ None) ↔ ((s : ℕ) → s < 240 → IsSome (seat_of self.now s)) }
    {
        let s = self.rows.iter().position(|row| row.is_vacant())?;
        Some(s as u32)
    }

    /// Opens the session `s`, whose query has that tracker, with a quota of so many slots, and
    /// without clients.
    pub fn open(&mut self, s: u32, query: u32, quota: u32)
        requires number { s < 240 }
        requires vacant { seat_of self.old s ≡ None }
        ensures { self.new ≡ with_seat s query quota self.old }
    {
        self.rows[s as usize].open(query, quota);
    }

    /// Ends a session, whose clients have all left.
    pub fn close(&mut self, s: u32)
        requires seated { IsSome (seat_of self.old s) }
        requires empty { members_of self.old s ≡ [] }
        ensures { self.new ≡ without_seat s self.old }
    {
        self.rows[s as usize].close();
    }

    /// The tracker of the session's query.
    #[inline]
    pub fn query(&self, s: u32) -> u32
        requires { IsSome (seat_of self.now s) }
        ensures { option_map (λ x. x.query) (seat_of self.now s) ≡ Some result }
    {
        self.rows[s as usize].query()
    }

    /// Whether the session has as many clients as it may have.
    #[inline]
    pub fn is_full(&self, s: u32) -> bool
        requires { IsSome (seat_of self.now s) }
        ensures { IsTrue result ↔ (length (members_of self.now s) ≡ 16) }
    {
        self.rows[s as usize].is_full()
    }

    /// Adds a client to a session. No failure is noted of it.
    pub fn add(&mut self, s: u32, tracker: u32)
        requires seated { IsSome (seat_of self.old s) }
        requires room { length (members_of self.old s) < 16 }
        requires apart { stands_in tracker (trackers_of (members_of self.old s)) ≡ false }
        ensures { self.new ≡ changed s (with_member tracker) self.old }
    {
        self.rows[s as usize].add(tracker);
    }

    /// Takes a client out of its session, with what is noted of it.
    pub fn remove(&mut self, s: u32, tracker: u32)
        requires seated { IsSome (seat_of self.old s) }
        requires there { stands_in tracker (trackers_of (members_of self.old s)) ≡ true }
        ensures { self.new ≡ changed s (without_member tracker) self.old }
    {
        self.rows[s as usize].remove(tracker);
    }

    /// Notes a failure on a page of a client, by the number of its entry. It is lost where one is
    /// noted already, or where the session has no such client.
    pub fn note(&mut self, s: u32, tracker: u32, entry: u64)
        requires { IsSome (seat_of self.old s) }
        ensures { self.new ≡ changed s (noted tracker entry) self.old }
    {
        self.rows[s as usize].note(tracker, entry);
    }

    /// The first failure that is noted of a client, by the number of its entry; `None` where none
    /// is, or where the session has no such client.
    #[inline]
    pub fn first(&self, s: u32, tracker: u32) -> Option<u64>
        requires { IsSome (seat_of self.now s) }
        ensures { result ≡ first_of (members_of self.now s) tracker }
    {
        self.rows[s as usize].first(tracker)
    }

    /// Forgets the failures that are noted of the session's clients.
    pub fn forget(&mut self, s: u32)
        requires { IsSome (seat_of self.old s) }
        ensures { self.new ≡ changed s forgotten self.old }
    {
        self.rows[s as usize].forget();
    }

    /// What holds of the sessions at all times.
    #[inline]
    pub fn law_proper(&self)
        ensures { AreProper self.now }
    {
        let _rows = &self.rows;
    }

    /// Whether a number has a session.
    #[inline]
    pub fn is_seated(&self, s: u32) -> bool
        requires { s < 240 }
        ensures { IsTrue result ↔ IsSome (seat_of self.now s) }
    {
        !self.rows[s as usize].is_vacant()
    }

    /// The clients of a session.
    #[inline]
    pub fn members(&self, s: u32) -> &[Member]
        requires { IsSome (seat_of self.now s) }
        ensures { result.now ≡ members_of self.now s }
    {
        self.rows[s as usize].members()
    }
}
