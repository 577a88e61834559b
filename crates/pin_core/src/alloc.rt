//! A buffer comes.
ghost use Rattle.std.specs.Prelude.{◌≡◌, ◌≤◌, ◌-◌, [], None};
ghost use Rattle.std.specs.FinMap.{get};
ghost use Rattle.pin_core.specs.StateOf.{state_of};
ghost use Rattle.pin_core.specs.calls.Coming.{ReadyLend, alloc_entries, lent, zeros};

use crate::evicted::EvictedPages;
use crate::lengths;
use crate::parts::Parts;
use crate::pool::PoolState;
use block_arena::{Arena, Buf, Shell};
use outside::Slot;
use reservation_tree::TrackerId;
use store_api::{Client, Loan};

impl<D: Slot + Drop> PoolState<D> {
    ghost use Rattle.pin_core.specs.Standing.{Enters};
    ghost use Rattle.pool_model.specs.Sums.{length_of};
    ghost use Rattle.pin_core.specs.calls.Coming.{CanHold};
    ghost use Rattle.pin_core.specs.calls.Evictions.{MakesRoom, names_gone};

    /// A loan for a client that has room for it, with as many blocks as the shell has room for. Its bytes are
    /// zero. While too few blocks are free, the page that has been clean longest goes out of memory.
    /// `gone` then has the names of those that went.
    ///
    /// Which number the loan gets is open, but that no live buffer has it.
    pub fn alloc_now(&mut self, c: &Client, shell: Shell, gone: &mut EvictedPages) -> Loan
        requires can { CanHold (state_of self.old) c.now shell }
        ensures enters { Enters D.Slot (alloc_entries c.now result.number shell self.old) [] [] self.old self.new }
        ensures goes { MakesRoom (state_of self.old) (length_of (state_of self.old) shell) (names_gone shell self.old) }
        ensures gone { gone.new ≡ names_gone shell self.old }
        ensures fresh { get (state_of self.old).buffers result.number ≡ None }
        ensures loan { result ≡ record { number = result.number; client = c.now.tracker; buf = zeros shell (state_of self.old).block_len } }
    {
        self.parts.laws();
        self.parts.make_room(shell.room(), gone);
        self.parts.lend(c.tracker(), shell)
    }
}

impl<D: Drop> Parts<D> {
    // Free blocks are a client's loan.
    pub(crate) fn lend(&mut self, client: TrackerId, shell: Shell) -> Loan
        requires ready { ReadyLend self.old client shell }
        ensures fresh { get self.old.buffers.buffers result.number ≡ None }
        ensures parts { self.new ≡ lent result.number client shell self.old }
        ensures loan { result ≡ record { number = result.number; client = client; buf = zeros shell self.old.arena.block_len } }
    {
        self.entries = lengths::counted(self.entries);
        let blocks = shell.room();
        let number = self.buffers.open(client.number(), blocks);
        self.tree
            .charge(client, lengths::bytes(self.block_len, blocks));
        Loan::of(number, client, zeroed(&mut self.arena, shell))
    }
}

// Free blocks for the shell, all bytes zero.
#[tactic(auto, unfolding(pool_model::specs::Bytes::bytes_of))]
pub(crate) fn zeroed(arena: &mut Arena, shell: Shell) -> Buf
    requires { shell ≤ arena.old.free }
    ensures buffer { result ≡ zeros shell arena.old.block_len }
    ensures arena { arena.new ≡ record arena.old { free = arena.old.free - shell } }
{
    let mut buf = arena.fill(shell);
    buf.zero();
    buf
}
