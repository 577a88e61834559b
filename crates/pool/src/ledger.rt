//! What a session may still take and charge, as it last saw it, so that readers wait for nobody.
ghost use Rattle.std.specs.Prelude.{◌≡◌, ◌<◌, None, IfOk, OnOk, OnErr, length};
ghost use Rattle.pool.specs.Unused.{unused_in};
ghost use Rattle.session_calls.specs.Ready.{IsReady};
ghost use Rattle.session_calls.specs.Acting.{held_by};
ghost use Rattle.pool.specs.Ledgers.{HasClients, HasOneMore, TellsHeld};

use crate::accounts::ClientAccounts;
use outside::Slot;
use reservation_tree::PoolErr;
use session_calls::{Hand, Opened};
use store_api::Client;

/// What contracts see of the query's room and of the accounts of the session's clients.
#[derive(Drop)]
pub struct Ledger {
    pub(crate) room: u64,
    pub(crate) accounts: ClientAccounts,
}

impl Ledger {
    // Opens the account of the client that came, if any came.
    pub(crate) fn note(&mut self, came: &Result<Client, PoolErr>)
        requires fresh { IfOk came.now (λ c. unused_in self.old.accounts c.tracker ≡ None) }
        requires room { OnOk came.now (length self.old.accounts < 16) }
        ensures ok { IfOk came.now (λ c. HasOneMore c.tracker self.old.accounts self.new.accounts) }
        ensures err { OnErr came.now (self.new ≡ self.old) }
    {
        if let Ok(c) = came {
            self.accounts.add(c.tracker(), 0);
        }
    }

    // Sees the value that the session has in hand; it has each client, and no other.
    pub(crate) fn see<O: Opened, D: Slot + Drop>(&mut self, hand: &Hand<D>)
        requires ready { IsReady D.Slot O.opening O.outset hand.now }
        requires clients { HasClients self.old.accounts (held_by O.opening O.outset hand.now) }
        ensures { TellsHeld self.new (held_by O.opening O.outset hand.now) }
    {
        self.room = hand.room::<O>();
        for place in 0..self.accounts.len() {
            let unused = hand.unused::<O>(self.accounts.tracker(place));
            self.accounts.set(place, unused);
        }
    }
}
