//! The clients of a store in memory, and the query's own numbers.
ghost use Rattle.std.specs.Prelude.{◌≡◌, ◌≢◌, ◌↔◌, ℕ, ◌+◌, ◌≤◌, ◌<◌, ◌^◌, Some, None, IsSome, IsNone, OnSome, IfOk, IfSome, IfNone};
ghost use Rattle.slab.specs.Slab.{get, slab_len};
ghost use Rattle.store_api.specs.Holdings.{put};
ghost use Rattle.store_api.specs.MemAccounts.{clients_of, account_at, reserved};

use crate::mem_store::account::MemAccount;
use crate::mem_store::rows::{insert, remove};
use reservation_tree::{Memory, TrackerId};
use slab::Slab;
use std::alloc::Global;

/// How many clients of one store may be live.
pub const MAX_CLIENTS: u32 = 16;

// The number of the query's tracker. No tracker of a store in memory is 0, which is a pool's root.
pub(crate) const QUERY: u32 = 1;

// The number of the client with key 0.
const FIRST_CLIENT: u32 = 2;

// Room for all clients was taken at opening.
#[derive(Drop)]
pub(crate) struct Accounts {
    pub(crate) limit: u64,
    pub(crate) reservation: u64,
    pub(crate) room: u64,
    pub(crate) clients: Slab<MemAccount>,
    ghost space: { clients.capacity ≡ 16 },
    ghost few: { slab_len clients ≤ 16 },
    ghost whole: { reserved clients + room ≡ reservation },
    ghost fits: { reservation ≤ limit },
    ghost short: { limit < 2 ^ 64 },
}

impl Accounts {
    pub(crate) fn open(alloc: Global, limit: u64, least: u64) -> Result<Accounts, Memory>
        requires { least ≤ limit }
        ensures numbers { IfOk result (λ a. (a.limit ≡ limit) × (a.reservation ≡ least) × (a.room ≡ least)) }
        ensures empty { IfOk result (λ a. slab_len a.clients ≡ 0) }
        ensures none { IfOk result (λ a. (t : ℕ) → clients_of a.clients t ≡ None) }
    {
        let clients = Slab::with_capacity(alloc, MAX_CLIENTS as usize)?;
        // A key is below the capacity, so it is below 16 where the two are equal.
        if clients.capacity() != MAX_CLIENTS as usize {
            return Err(Memory);
        }
        Ok(Accounts {
            limit,
            reservation: least,
            room: least,
            clients,
        })
    }

    // The key of a client.
    pub(crate) fn key(&self, t: TrackerId) -> usize
        requires { IsSome (clients_of self.now.clients t) }
        ensures shift { result + 2 ≡ t }
        ensures there { IsSome (get self.now.clients result) }
    {
        (t.number() - FIRST_CLIENT) as usize
    }

    pub(crate) fn unused(&self, t: TrackerId) -> u64
        requires { IsSome (clients_of self.now.clients t) }
        ensures value { result ≡ (account_at t self.now.clients).unused }
        ensures charge { (account_at t self.now.clients).unused ≤ (account_at t self.now.clients).reservation }
        ensures limit { (account_at t self.now.clients).reservation ≤ (account_at t self.now.clients).limit }
        ensures within { (account_at t self.now.clients).reservation ≤ self.now.reservation }
    {
        let key = self.key(t);
        self.clients[key].unused
    }

    // A new client, or none where as many are live as may be.
    pub(crate) fn add(&mut self, limit: u64) -> Option<TrackerId>
        ensures full { IsNone result ↔ (16 ≤ slab_len self.old.clients) }
        ensures fresh { IfSome result (λ t. clients_of self.old.clients t ≡ None) }
        ensures under { IfSome result (λ t. t ≢ 1) }
        ensures clients { IfSome result (λ t. clients_of self.new.clients ≡ put t (Some (record { limit = limit; reservation = 0; unused = 0 })) (clients_of self.old.clients)) }
        ensures len { OnSome result (slab_len self.new.clients ≡ slab_len self.old.clients + 1) }
        ensures limit { self.new.limit ≡ self.old.limit }
        ensures reservation { self.new.reservation ≡ self.old.reservation }
        ensures room { self.new.room ≡ self.old.room }
        ensures none { IfNone result (self.new ≡ self.old) }
    {
        if self.clients.len() == MAX_CLIENTS as usize {
            return None;
        }
        let account = MemAccount {
            limit,
            reservation: 0,
            unused: 0,
        };
        let key = insert(&mut self.clients, account);
        Some(TrackerId::of(key as u32 + FIRST_CLIENT))
    }

    // Ends a client. Its reservation is room.
    pub(crate) fn end(&mut self, t: TrackerId)
        requires { IsSome (clients_of self.old.clients t) }
        ensures clients { clients_of self.new.clients ≡ put t None (clients_of self.old.clients) }
        ensures len { slab_len self.new.clients + 1 ≡ slab_len self.old.clients }
        ensures limit { self.new.limit ≡ self.old.limit }
        ensures reservation { self.new.reservation ≡ self.old.reservation }
        ensures room { self.new.room ≡ self.old.room + (account_at t self.old.clients).reservation }
    {
        let key = self.key(t);
        let account = remove(&mut self.clients, key);
        self.room += account.reservation;
    }
}
