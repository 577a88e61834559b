//! What clients use of their reservations.
ghost use Rattle.std.specs.Prelude.{◌≡◌, ◌≢◌, ◌+◌, ◌-◌, ◌≤◌, Some, IsSome};
ghost use Rattle.slab.specs.Slab.{slab_len};
ghost use Rattle.store_api.specs.Holdings.{put};
ghost use Rattle.store_api.specs.MemAccounts.{clients_of, account_at};

use crate::mem_store::account::MemAccount;
use crate::mem_store::accounts::Accounts;
use crate::mem_store::rows::write;
use reservation_tree::TrackerId;

impl Accounts {
    // A client uses so many bytes more.
    pub(crate) fn charge(&mut self, t: TrackerId, bytes: u64)
        requires client { IsSome (clients_of self.old.clients t) }
        requires unused { bytes ≤ (account_at t self.old.clients).unused }
        ensures clients { clients_of self.new.clients ≡ put t (Some (record (account_at t self.old.clients) { unused = (account_at t self.old.clients).unused - bytes })) (clients_of self.old.clients) }
        ensures len { slab_len self.new.clients ≡ slab_len self.old.clients }
        ensures limit { self.new.limit ≡ self.old.limit }
        ensures reservation { self.new.reservation ≡ self.old.reservation }
        ensures room { self.new.room ≡ self.old.room }
    {
        let key = self.key(t);
        let old = self.clients[key];
        let account = MemAccount {
            limit: old.limit,
            reservation: old.reservation,
            unused: old.unused - bytes,
        };
        write(&mut self.clients, key, account);
    }

    // A client uses so many bytes fewer.
    pub(crate) fn release(&mut self, t: TrackerId, bytes: u64)
        requires client { IsSome (clients_of self.old.clients t) }
        requires charged { (account_at t self.old.clients).unused + bytes ≤ (account_at t self.old.clients).reservation }
        ensures clients { clients_of self.new.clients ≡ put t (Some (record (account_at t self.old.clients) { unused = (account_at t self.old.clients).unused + bytes })) (clients_of self.old.clients) }
        ensures len { slab_len self.new.clients ≡ slab_len self.old.clients }
        ensures limit { self.new.limit ≡ self.old.limit }
        ensures reservation { self.new.reservation ≡ self.old.reservation }
        ensures room { self.new.room ≡ self.old.room }
    {
        let key = self.key(t);
        let old = self.clients[key];
        let account = MemAccount {
            limit: old.limit,
            reservation: old.reservation,
            unused: old.unused + bytes,
        };
        write(&mut self.clients, key, account);
    }

    // A charge goes from one client to another.
    pub(crate) fn pass(&mut self, from: TrackerId, to: TrackerId, bytes: u64)
        requires from { IsSome (clients_of self.old.clients from) }
        requires to { IsSome (clients_of self.old.clients to) }
        requires apart { from ≢ to }
        requires charged { (account_at from self.old.clients).unused + bytes ≤ (account_at from self.old.clients).reservation }
        requires unused { bytes ≤ (account_at to self.old.clients).unused }
        ensures clients { clients_of self.new.clients ≡ put to (Some (record (account_at to self.old.clients) { unused = (account_at to self.old.clients).unused - bytes })) (put from (Some (record (account_at from self.old.clients) { unused = (account_at from self.old.clients).unused + bytes })) (clients_of self.old.clients)) }
        ensures len { slab_len self.new.clients ≡ slab_len self.old.clients }
        ensures limit { self.new.limit ≡ self.old.limit }
        ensures reservation { self.new.reservation ≡ self.old.reservation }
        ensures room { self.new.room ≡ self.old.room }
    {
        let from_key = self.key(from);
        let to_key = self.key(to);
        let payer = self.clients[to_key];
        let paid = self.clients[from_key];
        let released = MemAccount {
            limit: paid.limit,
            reservation: paid.reservation,
            unused: paid.unused + bytes,
        };
        let charged = MemAccount {
            limit: payer.limit,
            reservation: payer.reservation,
            unused: payer.unused - bytes,
        };
        write(&mut self.clients, from_key, released);
        write(&mut self.clients, to_key, charged);
    }
}
