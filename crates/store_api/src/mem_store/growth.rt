//! How reservations of clients grow, fall, and go from one to another.
ghost use Rattle.std.specs.Prelude.{◌≡◌, ◌+◌, ◌-◌, ◌≤◌, Some, None, IsSome, IsOk, OnOk, OnErr, IfSome, IfNone, Err, ◌==◌, if◌then◌else◌};
ghost use Rattle.slab.specs.Slab.{slab_len};
ghost use Rattle.reservation_tree.specs.declared.errors.PoolErr.TheVariants as refusal;
ghost use Rattle.store_api.specs.Holdings.{put};
ghost use Rattle.store_api.specs.Changes.{raised, lowered};
ghost use Rattle.store_api.specs.Refusals.{unless_fits};
ghost use Rattle.store_api.specs.MemAccounts.{clients_of, account_at};

use crate::mem_store::account::MemAccount;
use crate::mem_store::accounts::{Accounts, QUERY};
use crate::mem_store::rows::write;
use reservation_tree::{PoolErr, TrackerId};

impl Accounts {
    // A client grows, and the query by what its room doesn't cover. Both fit their limits.
    pub(crate) fn grow(&mut self, t: TrackerId, bytes: u64)
        requires client { IsSome (clients_of self.old.clients t) }
        requires fits { (account_at t self.old.clients).reservation + bytes ≤ (account_at t self.old.clients).limit }
        requires query { self.old.reservation + (bytes - self.old.room) ≤ self.old.limit }
        ensures clients { clients_of self.new.clients ≡ put t (Some (raised bytes (account_at t self.old.clients))) (clients_of self.old.clients) }
        ensures len { slab_len self.new.clients ≡ slab_len self.old.clients }
        ensures limit { self.new.limit ≡ self.old.limit }
        ensures reservation { self.new.reservation ≡ self.old.reservation + (bytes - self.old.room) }
        ensures room { self.new.room ≡ self.old.room - bytes }
    {
        let key = self.key(t);
        let old = self.clients[key];
        let account = MemAccount {
            limit: old.limit,
            reservation: old.reservation + bytes,
            unused: old.unused + bytes,
        };
        write(&mut self.clients, key, account);
        self.reservation += bytes.saturating_sub(self.room);
        self.room = self.room.saturating_sub(bytes);
    }

    // A client falls, and the query with it.
    pub(crate) fn fall(&mut self, t: TrackerId, bytes: u64)
        requires client { IsSome (clients_of self.old.clients t) }
        requires unused { bytes ≤ (account_at t self.old.clients).unused }
        ensures clients { clients_of self.new.clients ≡ put t (Some (lowered bytes (account_at t self.old.clients))) (clients_of self.old.clients) }
        ensures len { slab_len self.new.clients ≡ slab_len self.old.clients }
        ensures limit { self.new.limit ≡ self.old.limit }
        ensures reservation { self.new.reservation ≡ self.old.reservation - bytes }
        ensures room { self.new.room ≡ self.old.room }
    {
        let key = self.key(t);
        let old = self.clients[key];
        let account = MemAccount {
            limit: old.limit,
            reservation: old.reservation - bytes,
            unused: old.unused - bytes,
        };
        write(&mut self.clients, key, account);
        self.reservation -= bytes;
    }

    // A client grows, and the query by what its room doesn't cover, unless one of them would pass its limit.
    pub(crate) fn reserve(&mut self, t: TrackerId, bytes: u64) -> Result<(), PoolErr>
        requires client { IsSome (clients_of self.old.clients t) }
        ensures refused { IfSome (unless_fits t bytes ((account_at t self.old.clients).limit - (account_at t self.old.clients).reservation) (unless_fits 1 (bytes - self.old.room) (self.old.limit - self.old.reservation) None)) (λ e. result ≡ Err e) }
        ensures succeeds { IfNone (unless_fits t bytes ((account_at t self.old.clients).limit - (account_at t self.old.clients).reservation) (unless_fits 1 (bytes - self.old.room) (self.old.limit - self.old.reservation) None)) (IsOk result) }
        ensures clients { OnOk result (clients_of self.new.clients ≡ put t (Some (raised bytes (account_at t self.old.clients))) (clients_of self.old.clients)) }
        ensures len { slab_len self.new.clients ≡ slab_len self.old.clients }
        ensures limit { self.new.limit ≡ self.old.limit }
        ensures reservation { OnOk result (self.new.reservation ≡ self.old.reservation + (bytes - self.old.room)) }
        ensures room { OnOk result (self.new.room ≡ self.old.room - bytes) }
        ensures err { OnErr result (self.new ≡ self.old) }
    {
        let key = self.key(t);
        let account = self.clients[key];
        let room = account.limit - account.reservation;
        if bytes > room {
            return Err(no_reservation(t, bytes, room));
        }
        let growth = bytes.saturating_sub(self.room);
        let query_room = self.limit - self.reservation;
        if growth > query_room {
            return Err(no_reservation(TrackerId::of(QUERY), growth, query_room));
        }
        self.grow(t, bytes);
        Ok(())
    }

    // Moves unused reservation to another client, unless that would pass its limit. To itself nothing moves.
    pub(crate) fn shift(
        &mut self,
        from: TrackerId,
        to: TrackerId,
        bytes: u64,
    ) -> Result<(), PoolErr>
        requires from { IsSome (clients_of self.old.clients from) }
        requires to { IsSome (clients_of self.old.clients to) }
        requires unused { bytes ≤ (account_at from self.old.clients).unused }
        ensures refused { IfSome (if from == to then None else unless_fits to bytes ((account_at to self.old.clients).limit - (account_at to self.old.clients).reservation) None) (λ e. result ≡ Err e) }
        ensures succeeds { IfNone (if from == to then None else unless_fits to bytes ((account_at to self.old.clients).limit - (account_at to self.old.clients).reservation) None) (IsOk result) }
        ensures clients { OnOk result (clients_of self.new.clients ≡ if from == to then clients_of self.old.clients else put to (Some (raised bytes (account_at to self.old.clients))) (put from (Some (lowered bytes (account_at from self.old.clients))) (clients_of self.old.clients))) }
        ensures len { slab_len self.new.clients ≡ slab_len self.old.clients }
        ensures limit { self.new.limit ≡ self.old.limit }
        ensures reservation { self.new.reservation ≡ self.old.reservation }
        ensures room { self.new.room ≡ self.old.room }
        ensures err { OnErr result (self.new ≡ self.old) }
    {
        if from == to {
            return Ok(());
        }
        let key = self.key(to);
        let account = self.clients[key];
        let room = account.limit - account.reservation;
        if bytes > room {
            return Err(no_reservation(to, bytes, room));
        }
        let from_key = self.key(from);
        let other = self.clients[from_key];
        let lower = MemAccount {
            limit: other.limit,
            reservation: other.reservation - bytes,
            unused: other.unused - bytes,
        };
        let higher = MemAccount {
            limit: account.limit,
            reservation: account.reservation + bytes,
            unused: account.unused + bytes,
        };
        write(&mut self.clients, from_key, lower);
        write(&mut self.clients, key, higher);
        Ok(())
    }
}

fn no_reservation(tracker: TrackerId, wanted: u64, room: u64) -> PoolErr
    ensures { result ≡ refusal.NoReservation tracker wanted room }
{
    PoolErr::NoReservation {
        tracker,
        wanted,
        room,
    }
}
