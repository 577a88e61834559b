// The writers of a call, which store pages beside its queries.

ghost use Rattle.std.specs.Prelude.{◌≡◌, ◌≤◌, [], All, map, vec_capacity, vec_len};
ghost use Rattle.std.specs.Fork.{AcceptsEach, ChangesEach};
ghost use Rattle.pool.specs.Items.{all_rights};
ghost use Rattle.pool.specs.Passing.{writers_out};
ghost use Rattle.pool.specs.Writers.{Stops};
ghost use Rattle.spill_top.specs.Beside.{Accepts, Begin, Changes, Waits};

use outside::{Gate, Slot};
use pool::{Opened, Pass, Pool};
use std::sync::Wait;
use std::thread::{Threads, for_each_mut, join_mut};
use std::time::Clock;
use write_behind::Writer;

// The number of the first writer. The others follow it.
const FIRST_WRITER: u32 = 1000;

// So many writers begin, for which there is room.
pub(crate) fn begin_writers<'a, D: Slot + Drop, R: Wait, T: Opened>(
    rt: &'a R,
    pool: &'a Pool<D, T>,
    pass: &mut Pass<D, T>,
    count: u32,
    mut writers: Vec<Writer<'a, D, R, T>>,
) -> Vec<Writer<'a, D, R, T>>
    requires count { count ≤ 8 }
    requires table { pass.old.table ≡ pool.now }
    requires rights { pass.old.knows.rights ≡ all_rights }
    requires empty { writers.items ≡ [] }
    requires room { count ≤ vec_capacity writers }
    ensures begin { Begin count pass.old pass.new }
    ensures len { vec_len result ≡ count }
    ensures at { All (λ w. w.seat.spot.table ≡ pool.now) result.items }
{
    for i in 0..count {
        writers.push_reserved(Writer::begin(rt, pool, pass, FIRST_WRITER + i));
    }
    writers
}

// Calls `work` while the writers store pages, each in a thread of its own where one can be made, and tells them to end when
// it has. Where none can be made they come behind it, and find that they have to end.
pub(crate) fn beside_writers<
    R: Threads + Wait + Clock + Sync,
    D: Slot + Drop + Send,
    T: Opened + Send,
    G: Gate,
    A,
    F: FnMut() -> A,
>(
    rt: &R,
    pool: &Pool<D, T>,
    pass: &mut Pass<D, T>,
    writers: &mut [Writer<'_, D, R, T>],
    gate: &G,
    work: &mut F,
) -> A
    requires table { pass.old.table ≡ pool.now }
    requires work { F.pre work.old }
    ensures works { F.step work.old result work.new }
    ensures stops { Stops pass.old pass.new }
    ensures at { map (λ w. w.seat.spot.table) writers.new ≡ map (λ w. w.seat.spot.table) writers.old }
{
    let write = |_place: usize, writer: &mut Writer<'_, D, R, T>|
        ensures { writer.exit.now.seat.spot.table ≡ writer.entry.now.seat.spot.table }
    { writer.run(gate) };
    let stop = |pass: &mut Pass<D, T>|
        requires { pass.now.table ≡ pool.now }
        ensures { Stops pass.entry.now pass.exit.now }
    { pool.stop(rt, pass) };
    call_beside(rt, &write, writers, work, &stop, pass)
}

// Calls `each` at all of these jobs in the same way, each in a thread of its own where one can be made.
pub(crate) fn each_beside_writers<
    R: Threads + Wait + Clock + Sync,
    D: Slot + Drop + Send,
    T: Opened + Send,
    G: Gate,
    J: Send,
    E: Fn(usize, &mut J) + Sync,
>(
    rt: &R,
    pool: &Pool<D, T>,
    pass: &mut Pass<D, T>,
    writers: &mut [Writer<'_, D, R, T>],
    gate: &G,
    each: &E,
    jobs: &mut [J],
)
    requires table { pass.old.table ≡ pool.now }
    requires each { AcceptsEach E.Fn each.now jobs.old }
    ensures each { ChangesEach E.Fn each.now jobs.old jobs.new }
    ensures stops { Stops pass.old pass.new }
    ensures at { map (λ w. w.seat.spot.table) writers.new ≡ map (λ w. w.seat.spot.table) writers.old }
{
    let mut all = ||
        requires { AcceptsEach E.Fn each.now jobs.now }
        ensures { ChangesEach E.Fn each.entry.now jobs.entry.now jobs.exit.now }
    { at_each(rt, each, jobs) };
    beside_writers(rt, pool, pass, writers, gate, &mut all);
}

// Calls `work` and then `stop`, and `each` at all of these in other threads where they can be made. It sees the writers and
// their pass as type parameters: the borrow checker does not cover a closure that holds a `&mut` to a type with several.
fn call_beside<
    R: Threads + Sync,
    X: Send,
    E: Fn(usize, &mut X) + Sync,
    A,
    F: FnMut() -> A,
    P,
    Z: Fn(&mut P),
>(rt: &R, each: &E, items: &mut [X], work: &mut F, stop: &Z, last: &mut P) -> A
    requires each { AcceptsEach E.Fn each.now items.old }
    requires work { F.pre work.old }
    requires stop { Accepts Z.Fn stop.now last.old }
    ensures each { ChangesEach E.Fn each.now items.old items.new }
    ensures works { F.step work.old result work.new }
    ensures stops { Changes Z.Fn stop.now last.old last.new }
{
    let mut all = ||
        requires { AcceptsEach E.Fn each.now items.now }
        ensures { ChangesEach E.Fn each.entry.now items.entry.now items.exit.now }
    { at_each(rt, each, items) };
    let mut then = || -> A
        requires { F.pre work.now × Accepts Z.Fn stop.now last.now }
        ensures { F.step work.entry.now result work.exit.now × Changes Z.Fn stop.entry.now last.entry.now last.exit.now }
    { call_then(stop, work, last) };
    join_mut(rt, &mut all, &mut then).1
}

fn call_then<A, F: FnMut() -> A, P, Z: Fn(&mut P)>(stop: &Z, work: &mut F, last: &mut P) -> A
    requires work { F.pre work.old }
    requires stop { Accepts Z.Fn stop.now last.old }
    ensures works { F.step work.old result work.new }
    ensures stops { Changes Z.Fn stop.now last.old last.new }
{
    let done = work();
    stop(last);
    done
}

// Calls `each` at all of these, each in a thread of its own where one can be made.
fn at_each<R: Threads + Sync, X: Send, E: Fn(usize, &mut X) + Sync>(
    rt: &R,
    each: &E,
    items: &mut [X],
)
    requires { AcceptsEach E.Fn each.now items.old }
    ensures { ChangesEach E.Fn each.now items.old items.new }
{
    let threads = items.len().max(1);
    for_each_mut(rt, items, threads, each);
}

// The writers end, the last one first.
pub(crate) fn end_writers<'a, D: Slot + Drop, R: Wait, T: Opened>(
    mut writers: Vec<Writer<'a, D, R, T>>,
    pass: &mut Pass<D, T>,
)
    requires at { All (λ w. w.seat.spot.table ≡ pass.old.table) writers.items }
    requires out { writers_out pass.old ≡ vec_len writers }
    ensures waits { Waits pass.old pass.new }
    ensures none { writers_out pass.new ≡ 0 }
{
    pass.law_pass();
    while !writers.is_empty() {
        writers.take_last().end(pass);
        pass.law_pass();
    }
    writers.destroy_empty();
}
