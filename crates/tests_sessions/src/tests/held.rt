// Sessions whose slots are held, whoever stores in them and loads from them.
ghost use Rattle.std.specs.Prelude.{◌≡◌, true, Some};
ghost use Rattle.pool.specs.Sitting.{held_by};
ghost use Rattle.outside.specs.InMemory.{strays_of};
ghost use Rattle.tests_sessions.specs.Ending.{AsMany};
ghost use Rattle.tests_sessions.specs.Owning.{Rests};

use crate::tests::owners::Owner;
use crate::tests::seats::seated;
use crate::tests::writers::await_held;
use outside::{Failed, Gate, MeetGate, MemSlot, Point, Slot};
use pool::{Opened, Pass, Pool};
use std::alloc::Global;
use std::process::Abort;
use std::sync::Wait;
use std::thread::{Threads, join_mut};
use store_api::Store;

// As which each slot passes its gate, and as which the session beside it does.
pub const SLOT: u32 = 9;

pub const BESIDE: u32 = 6;

// A slot that passes a gate inside of each store and each load.
#[derive(Drop)]
pub struct HeldSlot<'a> {
    pub slot: MemSlot,
    pub gate: &'a MeetGate,
}

impl<'a> Slot for HeldSlot<'a> {
    ghost tells = { λ _. true };

    ghost held = { λ s. s.slot.held };

    ghost stores = { λ s. Some s.slot.stores };

    ghost strays = { λ s. Some (strays_of s.slot) };

    ghost faults = { λ s. s.slot.plan.faults };

    fn store(&mut self, block: &[u8]) -> Result<(), Failed> {
        self.gate.pass(SLOT, Point::BeforeStore);
        self.slot.store(block)
    }

    fn load(&mut self, block: &mut [u8]) -> Result<(), Failed> {
        self.gate.pass(SLOT, Point::BeforeLoad);
        self.slot.load(block)
    }
}

// A session stores its page itself, and loads it, while the other session has turns.
pub fn store_and_load<
    'x,
    N: Opened + Send,
    T: Opened + Send,
    D: Slot + Drop + Send,
    R: Threads + Wait + Abort + Sync,
>(rt: &'x R, alloc: Global, pool: &'x Pool<D, T>, pass: &mut Pass<D, T>, gate: &MeetGate)
    requires named { N.table ≡ Some pool.now }
    requires table { pass.old.table ≡ pool.now }
    ensures table { pass.new.table ≡ pool.now }
    ensures count { AsMany pass.old pass.new }
{
    let mut one = seated::<N, T, D, R>(rt, alloc, pool, pass, 512, 8);
    let mut two = seated::<N, T, D, R>(rt, alloc, pool, pass, 0, 0);
    let owner = Owner::come(rt, alloc, &mut one, 512, 0x66);
    beside(rt, alloc, &mut one, &mut two, &owner, gate);
    assert!(rt; gate.came());
    assert!(rt; !gate.missed());
    owner.go(&mut one);
    one.law_there();
    one.end(pass);
    two.law_there();
    two.end(pass);
}

// The one has its page stored and loaded, and the other has a client come and go, each in a thread of its own.
fn beside<St: Store + Send, Su: Store + Send, R: Threads + Abort + Sync>(
    rt: &R,
    alloc: Global,
    one: &mut St,
    two: &mut Su,
    owner: &Owner,
    gate: &MeetGate,
)
    requires rests { Rests owner.now.client owner.now.page (St.holds one.old) }
    requires none { (Su.holds two.old).live_clients ≡ 0 }
    ensures rests { Rests owner.now.client owner.now.page (St.holds one.new) }
    ensures none { (Su.holds two.new).live_clients ≡ 0 }
{
    let mut store = ||
        requires { Rests owner.now.client owner.now.page (St.holds one.now) }
        ensures { Rests owner.entry.now.client owner.entry.now.page (St.holds one.exit.now) }
    {
        owner.borrow_eight(rt, alloc, one);
        owner.look(rt, one);
    };
    let mut turn = ||
        requires { (Su.holds two.now).live_clients ≡ 0 }
        ensures { (Su.holds two.exit.now).live_clients ≡ 0 }
    { come_and_go(rt, two, gate) };
    join_mut(rt, &mut store, &mut turn);
}

// Once a slot is held a client comes and goes, and then the slot is let go.
fn come_and_go<St: Store, R: Abort>(rt: &R, store: &mut St, gate: &MeetGate)
    requires { (St.holds store.old).live_clients ≡ 0 }
    ensures { (St.holds store.new).live_clients ≡ 0 }
{
    await_held(gate);
    assert!(rt; gate.came());
    Owner::pass_by(rt, store);
    gate.pass(BESIDE, Point::QueryRead);
}
