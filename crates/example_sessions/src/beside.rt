//! The threads: one for the writer, and one for each session.
//!
//! A closure that is to run in a thread may hold a `&mut` only to a type without parameters or to a type parameter, so
//! the writer and the pass stand behind a trait each. Each has the one call that is made while threads run.

ghost use Rattle.std.specs.Prelude.{◌≡◌};
ghost use Rattle.atomic_table.specs.Seated.{TableId};
ghost use Rattle.pool.specs.Writers.{Stops};

use crate::rows::{Seen, rows_through};
use outside::{OpenGate, Slot};
use pool::{Opened, Pass, Pool};
use std::alloc::Global;
use std::sync::Wait;
use std::thread::{Threads, join_mut};
use std::time::Clock;
use store_api::Store;
use tuple_stream::StreamErr;
use write_behind::Writer;

/// Stores pages beside the sessions until it is told to end.
pub trait StorePages {
    // The lock that it sits at.
    ghost lock: { Self → TableId };

    fn store_pages(&mut self)
        ensures { lock self.new ≡ lock self.old };
}

impl<'a, D: Slot + Drop, R: Wait + Clock, T: Opened> StorePages for Writer<'a, D, R, T> {
    ghost lock = { λ writer. writer.seat.spot.table };

    fn store_pages(&mut self) {
        self.run(&OpenGate);
    }
}

/// A pool whose pass `P` tells its writers to end.
pub trait StopWriters<P> {
    // The pass is this pool's.
    ghost owns: { Self → P → Type 0 };

    // The pass told them.
    ghost told: { P → P → Type 0 };

    fn stop_writers<R: Wait>(&self, rt: &R, pass: &mut P)
        requires { owns self.now pass.old }
        ensures { told pass.old pass.new };
}

impl<D: Slot + Drop, T: Opened> StopWriters<Pass<D, T>> for Pool<D, T> {
    ghost owns = { λ pool pass. pass.table ≡ pool };

    ghost told = { λ old new. Stops old new };

    fn stop_writers<R: Wait>(&self, rt: &R, pass: &mut Pass<D, T>) {
        self.stop(rt, pass);
    }
}

/// The sessions lay and read rows while the writer stores pages, and then the writer is told to end.
pub fn work_beside<
    R: Threads + Wait + Sync,
    L: StopWriters<P>,
    P,
    W: StorePages + Send,
    A: Store + Send,
    B: Store + Send,
>(
    rt: &R,
    alloc: Global,
    pool: &L,
    pass: &mut P,
    writer: &mut W,
    one: &mut A,
    two: &mut B,
) -> (Result<Seen, StreamErr>, Result<Seen, StreamErr>)
    requires owns { L.owns pool.now pass.old }
    ensures told { L.told pass.old pass.new }
    ensures lock { W.lock writer.new ≡ W.lock writer.old }
    ensures one { (A.holds one.new).live_clients ≡ (A.holds one.old).live_clients }
    ensures two { (B.holds two.new).live_clients ≡ (B.holds two.old).live_clients }
{
    let mut write = ||
        ensures { W.lock writer.exit.now ≡ W.lock writer.entry.now }
    { writer.store_pages() };
    let mut work = || -> (Result<Seen, StreamErr>, Result<Seen, StreamErr>)
        requires { L.owns pool.now pass.now }
        ensures { L.told pass.entry.now pass.exit.now
            × ((A.holds one.exit.now).live_clients ≡ (A.holds one.entry.now).live_clients)
            × ((B.holds two.exit.now).live_clients ≡ (B.holds two.entry.now).live_clients) }
    {
        let seen = both_work(rt, alloc, one, two);
        pool.stop_writers(rt, pass);
        seen
    };
    join_mut(rt, &mut write, &mut work).1
}

// The two sessions side by side.
fn both_work<R: Threads + Sync, A: Store + Send, B: Store + Send>(
    rt: &R,
    alloc: Global,
    one: &mut A,
    two: &mut B,
) -> (Result<Seen, StreamErr>, Result<Seen, StreamErr>)
    ensures one { (A.holds one.new).live_clients ≡ (A.holds one.old).live_clients }
    ensures two { (B.holds two.new).live_clients ≡ (B.holds two.old).live_clients }
{
    let mut first = || -> Result<Seen, StreamErr>
        ensures { (A.holds one.exit.now).live_clients ≡ (A.holds one.entry.now).live_clients }
    { rows_through(one, alloc, 1) };
    let mut second = || -> Result<Seen, StreamErr>
        ensures { (B.holds two.exit.now).live_clients ≡ (B.holds two.entry.now).live_clients }
    { rows_through(two, alloc, 201) };
    join_mut(rt, &mut first, &mut second)
}
