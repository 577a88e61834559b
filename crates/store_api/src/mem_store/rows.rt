//! Writes of one client's account.
ghost use Rattle.std.specs.Prelude.{◌≡◌, ◌≢◌, ℕ, ◌+◌, ◌<◌, Some, None, IsSome, IfSome};
ghost use Rattle.slab.specs.Slab.{get, slab_len, HasRoomFor};
ghost use Rattle.store_api.specs.Holdings.{put};
ghost use Rattle.store_api.specs.MemAccounts.{clients_of, reserved, seen_account};

use crate::mem_store::account::MemAccount;
use slab::Slab;

// The client has this account from now on.
pub(crate) fn write(clients: &mut Slab<MemAccount>, key: usize, account: MemAccount)
    requires { IsSome (get clients.old key) }
    ensures clients { clients_of clients.new ≡ put (key + 2) (Some (seen_account account)) (clients_of clients.old) }
    ensures reserved { IfSome (get clients.old key) (λ was. reserved clients.new + was.reservation ≡ reserved clients.old + account.reservation) }
    ensures others { (k : ℕ) → k ≢ key → get clients.new k ≡ get clients.old k }
    ensures len { slab_len clients.new ≡ slab_len clients.old }
    ensures capacity { clients.new.capacity ≡ clients.old.capacity }
{
    clients[key] = account;
}

// A client comes. Its key is below the capacity.
pub(crate) fn insert(clients: &mut Slab<MemAccount>, account: MemAccount) -> usize
    requires { HasRoomFor clients.old 1 }
    ensures fresh { clients_of clients.old (result + 2) ≡ None }
    ensures clients { clients_of clients.new ≡ put (result + 2) (Some (seen_account account)) (clients_of clients.old) }
    ensures reserved { reserved clients.new ≡ reserved clients.old + account.reservation }
    ensures len { slab_len clients.new ≡ slab_len clients.old + 1 }
    ensures capacity { clients.new.capacity ≡ clients.old.capacity }
    ensures in_range { result < clients.new.capacity }
{
    clients.insert_reserved(account)
}

// A client goes.
pub(crate) fn remove(clients: &mut Slab<MemAccount>, key: usize) -> MemAccount
    requires { IsSome (get clients.old key) }
    ensures was { get clients.old key ≡ Some result }
    ensures clients { clients_of clients.new ≡ put (key + 2) None (clients_of clients.old) }
    ensures reserved { reserved clients.new + result.reservation ≡ reserved clients.old }
    ensures len { slab_len clients.new + 1 ≡ slab_len clients.old }
    ensures capacity { clients.new.capacity ≡ clients.old.capacity }
{
    clients.remove(key)
}
