//! One number of the table: a session, or none.
ghost use Rattle.std.specs.Prelude.{◌≡◌, ◌↔◌, ◌<◌, [], None, Some, IfOk, IsSome, IsTrue, is_none, length, option_map};
ghost use Rattle.session_table.specs.Seats.{first_of, members_in, with_member, without_member, noted, forgotten};

use crate::member::Member;
use reservation_tree::Memory;
use std::alloc::Global;
use std::marker::Model;

/// How many clients a session may have.
pub const MAX_CLIENTS: u32 = 16;

/// A session, or none. The list of members has room for as many clients as there may be.
#[derive(Drop)]
pub(crate) struct Row {
    is_seated: bool,
    query: u32,
    quota: u32,
    members: Vec<Member>,
}

impl Model for Row {
    ghost use Rattle.std.specs.Prelude.{◌≤◌, None, Some, Option, if◌then◌else◌, vec_capacity};
    ghost use Rattle.session_table.specs.Seats.{Seat};

    ghost Value = { Option Seat };

    ghost view = { λ r. if r.is_seated then Some (record { query = r.query; quota = r.quota; members = r.members.items }) else None };

    ghost invariant = { λ r. 16 ≤ vec_capacity r.members };
}

impl Row {
    pub(crate) fn with(alloc: Global) -> Result<Row, Memory>
        ensures { IfOk result (λ row. row ≡ None) }
    {
        let members = Vec::with_capacity(alloc, MAX_CLIENTS as usize)?;
        Ok(Row {
            is_seated: false,
            query: 0,
            quota: 0,
            members,
        })
    }

    #[inline]
    pub(crate) fn is_vacant(&self) -> bool
        ensures { result ≡ is_none self.now }
    {
        !self.is_seated
    }

    pub(crate) fn open(&mut self, query: u32, quota: u32)
        ensures { self.new ≡ Some (record { query = query; quota = quota; members = [] }) }
    {
        self.is_seated = true;
        self.query = query;
        self.quota = quota;
        self.members.clear();
    }

    pub(crate) fn close(&mut self)
        ensures { self.new ≡ None }
    {
        self.is_seated = false;
    }

    #[inline]
    pub(crate) fn query(&self) -> u32
        requires { IsSome self.now }
        ensures { option_map (λ x. x.query) self.now ≡ Some result }
    {
        self.query
    }

    #[inline]
    pub(crate) fn is_full(&self) -> bool
        requires { IsSome self.now }
        ensures { IsTrue result ↔ (length (members_in self.now) ≡ 16) }
    {
        self.members.as_slice().len() == MAX_CLIENTS as usize
    }

    pub(crate) fn add(&mut self, tracker: u32)
        requires seated { IsSome self.old }
        requires room { length (members_in self.old) < 16 }
        ensures { self.new ≡ option_map (with_member tracker) self.old }
    {
        // Each row has had room for 16 clients since the opening.
        prove!(self.members.as_slice().len() < MAX_CLIENTS as usize);
        self.members.push_reserved(Member {
            tracker,
            failed: None,
        });
    }

    pub(crate) fn remove(&mut self, tracker: u32)
        requires { IsSome self.old }
        ensures { self.new ≡ option_map (without_member tracker) self.old }
    {
        self.members.retain(|member| member.tracker != tracker);
    }

    pub(crate) fn note(&mut self, tracker: u32, entry: u64)
        requires { IsSome self.old }
        ensures { self.new ≡ option_map (noted tracker entry) self.old }
    {
        for member in self.members.iter_mut() {
            member.note(tracker, entry);
        }
    }

    pub(crate) fn first(&self, tracker: u32) -> Option<u64>
        requires { IsSome self.now }
        ensures { result ≡ first_of (members_in self.now) tracker }
    {
        let member = self
            .members
            .iter()
            .find(|member| member.tracker == tracker)?;
        member.failed
    }

    pub(crate) fn forget(&mut self)
        requires { IsSome self.old }
        ensures { self.new ≡ option_map forgotten self.old }
    {
        for member in self.members.iter_mut() {
            member.forget();
        }
    }

    #[inline]
    pub(crate) fn members(&self) -> &[Member]
        requires { IsSome self.now }
        ensures { result.now ≡ members_in self.now }
    {
        self.members.as_slice()
    }
}
