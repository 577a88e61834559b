// A writer beside the sessions of a pool.
ghost use Rattle.std.specs.Prelude.{◌≡◌, ◌+◌, ◌<◌, Some};
ghost use Rattle.std.specs.Option.{ForSome};
ghost use Rattle.atomic_table.specs.Seated.{TableId};
ghost use Rattle.pool.specs.Items.{all_rights};
ghost use Rattle.pool.specs.Passing.{writers_out};
ghost use Rattle.pool.specs.Seats.{live_in};
ghost use Rattle.pool.specs.Sitting.{held_by};
ghost use Rattle.tests_sessions.specs.Ending.{AsMany};
ghost use Rattle.tests_sessions.specs.Owning.{IsBare, Rests};

use crate::tests::owners::Owner;
use crate::tests::seats::seated;
use outside::{Gate, MeetGate, OpenGate, Point, Slot};
use pool::{Ask, Opened, Pass, Pool, Session};
use std::alloc::Global;
use std::process::Abort;
use std::sync::Wait;
use std::thread::{Threads, join_mut, yield_now};
use store_api::Store;
use write_behind::{Tried, Writer};

// The number of the writer.
const WRITER: u32 = 1000;

// So often a thread looks whether another has come.
const TURNS: u64 = 10_000_000;

// And so often where nobody comes.
const FEW_TURNS: u64 = 100_000;

// What is played beside a writer.
#[derive(Clone, Copy)]
pub enum Writing {
    // The pages of two sessions are stored.
    Two,
    // The first store of a page fails.
    Failing,
    // The first stores of both sessions' pages fail, and they are never stored.
    BothFailing,
    // A session wants a page while the writer is held before it stores that page.
    Wanted,
    // A session makes and destroys a page while the writer is held before it stores another.
    HeldStore,
    // A session is held before it loads a page that was evicted.
    HeldLoad,
}

// Who stores pages, and may be held at a gate.
pub trait Holdable {
    // The turn lock that it sits at.
    ghost lock: { Self → TableId };

    // What one try comes to.
    fn try_at(&mut self, gate: &MeetGate) -> Tried
        ensures { lock self.new ≡ lock self.old };
}

impl<'a, D: Slot + Drop, R: Wait, T: Opened> Holdable for Writer<'a, D, R, T> {
    ghost lock = { λ w. w.seat.spot.table };

    fn try_at(&mut self, gate: &MeetGate) -> Tried {
        self.one(gate)
    }
}

// A writer begins, and ends before the sessions do.
pub fn write_beside<
    'x,
    N: Opened + Send,
    T: Opened + Send,
    D: Slot + Drop + Send,
    R: Threads + Wait + Abort + Sync,
>(rt: &'x R, alloc: Global, pool: &'x Pool<D, T>, pass: &mut Pass<D, T>, writing: Writing)
    requires named { N.table ≡ Some pool.now }
    requires table { pass.old.table ≡ pool.now }
    requires rights { pass.old.knows.rights ≡ all_rights }
    ensures table { pass.new.table ≡ pool.now }
    ensures count { AsMany pass.old pass.new }
{
    match writing {
        Writing::Two => store_two::<N, T, D, R>(rt, alloc, pool, pass),
        Writing::Failing => fail_once::<N, T, D, R>(rt, alloc, pool, pass),
        Writing::BothFailing => fail_both::<N, T, D, R>(rt, alloc, pool, pass),
        Writing::Wanted => want_flying::<N, T, D, R>(rt, alloc, pool, pass),
        Writing::HeldStore => hold_store::<N, T, D, R>(rt, alloc, pool, pass),
        Writing::HeldLoad => hold_load::<N, T, D, R>(rt, alloc, pool, pass),
    }
}

fn store_two<'x, N: Opened, T: Opened, D: Slot + Drop, R: Wait + Abort>(
    rt: &'x R,
    alloc: Global,
    pool: &'x Pool<D, T>,
    pass: &mut Pass<D, T>,
)
    requires named { N.table ≡ Some pool.now }
    requires table { pass.old.table ≡ pool.now }
    requires rights { pass.old.knows.rights ≡ all_rights }
    ensures table { pass.new.table ≡ pool.now }
    ensures count { AsMany pass.old pass.new }
{
    let mut writer = begun(rt, pool, pass);
    let (mut one, mut two) = seated_two::<N, T, D, R>(rt, alloc, pool, pass);
    assert_eq!(rt; pass.spare(), 0);
    let first = Owner::come(rt, alloc, &mut one, 64, 0x11);
    let second = Owner::come(rt, alloc, &mut two, 64, 0x22);
    check_stored(rt, &mut writer, first.name(), second.name());
    first.look(rt, &mut one);
    second.look(rt, &mut two);
    ended(rt, pool, pass, writer);
    first.go(&mut one);
    one.law_there();
    one.end(pass);
    second.go(&mut two);
    two.law_there();
    two.end(pass);
}

// The writer stores these two pages, and then finds no other.
fn check_stored<T: Opened, D: Slot + Drop, R: Wait + Abort>(
    rt: &R,
    writer: &mut Writer<'_, D, R, T>,
    one: u64,
    other: u64,
)
    ensures { writer.new.seat.spot.table ≡ writer.old.seat.spot.table }
{
    let first = tried(writer);
    let second = tried(writer);
    if first == Tried::Done(one) {
        assert_eq!(rt; second, Tried::Done(other));
    } else {
        assert_eq!(rt; first, Tried::Done(other));
        assert_eq!(rt; second, Tried::Done(one));
    }
    assert_eq!(rt; tried(writer), Tried::Nothing);
}

fn fail_once<'x, N: Opened, T: Opened, D: Slot + Drop, R: Wait + Abort>(
    rt: &'x R,
    alloc: Global,
    pool: &'x Pool<D, T>,
    pass: &mut Pass<D, T>,
)
    requires named { N.table ≡ Some pool.now }
    requires table { pass.old.table ≡ pool.now }
    requires rights { pass.old.knows.rights ≡ all_rights }
    ensures table { pass.new.table ≡ pool.now }
    ensures count { AsMany pass.old pass.new }
{
    let mut writer = begun(rt, pool, pass);
    let mut session = seated::<N, T, D, R>(rt, alloc, pool, pass, 256, 4);
    let owner = Owner::come(rt, alloc, &mut session, 64, 0x33);
    assert_eq!(rt; tried(&mut writer), Tried::Failed(owner.name()));
    owner.look(rt, &mut session);
    assert_eq!(rt; tried(&mut writer), Tried::Done(owner.name()));
    ended(rt, pool, pass, writer);
    owner.go(&mut session);
    session.law_there();
    session.end(pass);
}

fn fail_both<'x, N: Opened, T: Opened, D: Slot + Drop, R: Wait + Abort>(
    rt: &'x R,
    alloc: Global,
    pool: &'x Pool<D, T>,
    pass: &mut Pass<D, T>,
)
    requires named { N.table ≡ Some pool.now }
    requires table { pass.old.table ≡ pool.now }
    requires rights { pass.old.knows.rights ≡ all_rights }
    ensures table { pass.new.table ≡ pool.now }
    ensures count { AsMany pass.old pass.new }
{
    let mut writer = begun(rt, pool, pass);
    let (mut one, mut two) = seated_two::<N, T, D, R>(rt, alloc, pool, pass);
    assert_eq!(rt; pass.spare(), 0);
    let first = Owner::come(rt, alloc, &mut one, 64, 0x11);
    let second = Owner::come(rt, alloc, &mut two, 64, 0x22);
    let found = tried(&mut writer);
    assert!(rt; found == Tried::Failed(first.name()) || found == Tried::Failed(second.name()));
    first.look(rt, &mut one);
    second.look(rt, &mut two);
    ended(rt, pool, pass, writer);
    first.go(&mut one);
    one.law_there();
    one.end(pass);
    second.go(&mut two);
    two.law_there();
    two.end(pass);
}

// Nobody lets the writer pass, so its page is in flight for as long as it looks.
fn want_flying<
    'x,
    N: Opened + Send,
    T: Opened + Send,
    D: Slot + Drop + Send,
    R: Threads + Wait + Abort + Sync,
>(rt: &'x R, alloc: Global, pool: &'x Pool<D, T>, pass: &mut Pass<D, T>)
    requires named { N.table ≡ Some pool.now }
    requires table { pass.old.table ≡ pool.now }
    requires rights { pass.old.knows.rights ≡ all_rights }
    ensures table { pass.new.table ≡ pool.now }
    ensures count { AsMany pass.old pass.new }
{
    let held = (WRITER, Point::BeforeStore);
    let until = (0, Point::QueryRead);
    let Ok(gate) = MeetGate::new(held, until, FEW_TURNS) else {
        panic!(rt; "a gate takes no memory");
    };
    let mut writer = begun(rt, pool, pass);
    let mut session = seated::<N, T, D, R>(rt, alloc, pool, pass, 256, 4);
    let owner = Owner::come(rt, alloc, &mut session, 128, 0x77);
    let found = look_beside(rt, &mut writer, &mut session, &owner, &gate);
    assert_eq!(rt; found, Tried::Done(owner.name()));
    assert!(rt; gate.missed());
    ended(rt, pool, pass, writer);
    owner.go(&mut session);
    session.law_there();
    session.end(pass);
}

// The writer tries once, and the client looks at its page, each in a thread of its own.
fn look_beside<W: Holdable + Send, St: Store + Send, R: Threads + Abort + Sync>(
    rt: &R,
    writer: &mut W,
    store: &mut St,
    owner: &Owner,
    gate: &MeetGate,
) -> Tried
    requires rests { Rests owner.now.client owner.now.page (St.holds store.old) }
    ensures rests { Rests owner.now.client owner.now.page (St.holds store.new) }
    ensures lock { W.lock writer.new ≡ W.lock writer.old }
{
    let mut write = || -> Tried
        ensures { W.lock writer.exit.now ≡ W.lock writer.entry.now }
    { writer.try_at(gate) };
    let mut look = ||
        requires { Rests owner.now.client owner.now.page (St.holds store.now) }
        ensures { Rests owner.entry.now.client owner.entry.now.page (St.holds store.exit.now) }
    {
        await_held(gate);
        owner.look(rt, store);
    };
    join_mut(rt, &mut write, &mut look).0
}

fn hold_store<
    'x,
    N: Opened + Send,
    T: Opened + Send,
    D: Slot + Drop + Send,
    R: Threads + Wait + Abort + Sync,
>(rt: &'x R, alloc: Global, pool: &'x Pool<D, T>, pass: &mut Pass<D, T>)
    requires named { N.table ≡ Some pool.now }
    requires table { pass.old.table ≡ pool.now }
    requires rights { pass.old.knows.rights ≡ all_rights }
    ensures table { pass.new.table ≡ pool.now }
    ensures count { AsMany pass.old pass.new }
{
    let held = (WRITER, Point::BeforeStore);
    let until = (0, Point::QueryRead);
    let Ok(gate) = MeetGate::new(held, until, TURNS) else {
        panic!(rt; "a gate takes no memory");
    };
    let mut writer = begun(rt, pool, pass);
    let mut session = seated::<N, T, D, R>(rt, alloc, pool, pass, 256, 4);
    let owner = Owner::come(rt, alloc, &mut session, 128, 0x44);
    let found = make_beside(rt, alloc, &mut writer, &mut session, &owner, &gate);
    assert_eq!(rt; found, Tried::Done(owner.name()));
    assert!(rt; !gate.missed());
    owner.look(rt, &mut session);
    ended(rt, pool, pass, writer);
    owner.go(&mut session);
    session.law_there();
    session.end(pass);
}

// The writer tries once, and the client makes and destroys a page, each in a thread of its own.
fn make_beside<W: Holdable + Send, St: Store + Send, R: Threads + Abort + Sync>(
    rt: &R,
    alloc: Global,
    writer: &mut W,
    store: &mut St,
    owner: &Owner,
    gate: &MeetGate,
) -> Tried
    requires rests { Rests owner.now.client owner.now.page (St.holds store.old) }
    ensures rests { Rests owner.now.client owner.now.page (St.holds store.new) }
    ensures lock { W.lock writer.new ≡ W.lock writer.old }
{
    let mut write = || -> Tried
        ensures { W.lock writer.exit.now ≡ W.lock writer.entry.now }
    { writer.try_at(gate) };
    let mut make = ||
        requires { Rests owner.now.client owner.now.page (St.holds store.now) }
        ensures { Rests owner.entry.now.client owner.entry.now.page (St.holds store.exit.now) }
    { make_held(rt, alloc, store, owner, gate) };
    join_mut(rt, &mut write, &mut make).0
}

// Once the writer is held at the gate the client makes and destroys a page, and then lets the writer pass.
fn make_held<St: Store, R: Abort>(
    rt: &R,
    alloc: Global,
    store: &mut St,
    owner: &Owner,
    gate: &MeetGate,
)
    requires rests { Rests owner.now.client owner.now.page (St.holds store.old) }
    ensures { Rests owner.now.client owner.now.page (St.holds store.new) }
{
    await_held(gate);
    assert!(rt; gate.came());
    owner.make_and_destroy(rt, alloc, store);
    gate.pass(0, Point::QueryRead);
}

// Waits until someone is held at the gate, or the turns are over.
pub fn await_held(gate: &MeetGate) {
    for _turn in 0..TURNS {
        if gate.came() {
            return;
        }
        yield_now();
    }
}

fn hold_load<'x, N: Opened, T: Opened, D: Slot + Drop, R: Wait + Abort>(
    rt: &'x R,
    alloc: Global,
    pool: &'x Pool<D, T>,
    pass: &mut Pass<D, T>,
)
    requires named { N.table ≡ Some pool.now }
    requires table { pass.old.table ≡ pool.now }
    requires rights { pass.old.knows.rights ≡ all_rights }
    ensures table { pass.new.table ≡ pool.now }
    ensures count { AsMany pass.old pass.new }
{
    let held = (5, Point::BeforeLoad);
    let until = (6, Point::QueryRead);
    let Ok(gate) = MeetGate::new(held, until, 3) else {
        panic!(rt; "a gate takes no memory");
    };
    let mut writer = begun(rt, pool, pass);
    let mut session = seated::<N, T, D, R>(rt, alloc, pool, pass, 512, 8);
    let owner = Owner::come(rt, alloc, &mut session, 512, 0x55);
    assert_eq!(rt; tried(&mut writer), Tried::Done(owner.name()));
    // The loan has all blocks, so the page is evicted.
    owner.borrow_eight(rt, alloc, &mut session);
    let mut session = look_at_gate(rt, session, &owner, &gate);
    assert!(rt; gate.came());
    // Nobody lets the session pass.
    assert!(rt; gate.missed());
    owner.look(rt, &mut session);
    ended(rt, pool, pass, writer);
    owner.go(&mut session);
    session.law_there();
    session.end(pass);
}

// The page is looked at by a session that passes a gate as 5, and passes none again afterwards.
fn look_at_gate<'x, N: Opened, T: Opened, D: Slot + Drop, R: Wait + Abort>(
    rt: &R,
    session: Session<'x, D, R, T, N>,
    owner: &Owner,
    gate: &'x MeetGate,
) -> Session<'x, D, R, T, N>
    requires { Rests owner.now.client owner.now.page (held_by T.opening T.outset.told session.seat) }
    ensures { Rests owner.now.client owner.now.page (held_by T.opening T.outset.told result.seat) }
{
    let mut gated = session.with_gate(gate, 5);
    owner.look(rt, &mut gated);
    gated.into_session()
}

// The pool's one writer.
fn begun<'a, T: Opened, D: Slot + Drop, R: Wait>(
    rt: &'a R,
    pool: &'a Pool<D, T>,
    pass: &mut Pass<D, T>,
) -> Writer<'a, D, R, T>
    requires table { pass.old.table ≡ pool.now }
    requires rights { pass.old.knows.rights ≡ all_rights }
    ensures table { (pass.new.table ≡ pool.now) × (result.seat.spot.table ≡ pool.now) }
    ensures sessions { live_in pass.new.knows.seen ≡ live_in pass.old.knows.seen }
    ensures writers { writers_out pass.new ≡ writers_out pass.old + 1 }
{
    Writer::begin(rt, pool, pass, WRITER)
}

// What one try of a writer comes to.
fn tried<T: Opened, D: Slot + Drop, R: Wait>(writer: &mut Writer<'_, D, R, T>) -> Tried
    ensures { writer.new.seat.spot.table ≡ writer.old.seat.spot.table }
{
    writer.one(&OpenGate)
}

// The writer is told to end, finds that whatever is dirty, and ends.
fn ended<T: Opened, D: Slot + Drop, R: Wait + Abort>(
    rt: &R,
    pool: &Pool<D, T>,
    pass: &mut Pass<D, T>,
    mut writer: Writer<'_, D, R, T>,
)
    requires table { (pass.old.table ≡ pool.now) × (writer.seat.spot.table ≡ pool.now) }
    requires some { 0 < writers_out pass.old }
    ensures table { pass.new.table ≡ pool.now }
    ensures sessions { live_in pass.new.knows.seen ≡ live_in pass.old.knows.seen }
    ensures writers { writers_out pass.new + 1 ≡ writers_out pass.old }
{
    pool.stop(rt, pass);
    assert_eq!(rt; tried(&mut writer), Tried::Closed);
    writer.end(pass);
}

// Two sessions that come together, and share all slots.
fn seated_two<'a, N: Opened, T: Opened, D: Slot + Drop, R: Wait + Abort>(
    rt: &'a R,
    alloc: Global,
    pool: &'a Pool<D, T>,
    pass: &mut Pass<D, T>,
) -> (Session<'a, D, R, T, N>, Session<'a, D, R, T, N>)
    requires named { ForSome N.table (λ table. pool.now ≡ table) }
    requires table { pass.old.table ≡ pool.now }
    ensures table { pass.new.table ≡ pool.now }
    ensures sessions { live_in pass.new.knows.seen ≡ live_in pass.old.knows.seen + 2 }
    ensures writers { writers_out pass.new ≡ writers_out pass.old }
    ensures bare { IsBare 0 (held_by T.opening T.outset.told result.0.seat) × IsBare 0 (held_by T.opening T.outset.told result.1.seat) }
{
    let ask = Ask {
        limit: 256,
        quota: 4,
        least: 256,
        count: 2,
    };
    assert!(rt; 8 <= pass.spare());
    let Ok(mut answers) = pool.sessions::<R, N>(alloc, rt, pass, &[ask]) else {
        panic!(rt; "no memory for sessions");
    };
    assert_eq!(rt; answers.len(), 1);
    let Ok(mut sessions) = answers.pop().unwrap() else {
        panic!(rt; "the sessions were turned away");
    };
    answers.destroy_empty();
    assert_eq!(rt; sessions.len(), 2);
    let two = sessions.pop().unwrap();
    let one = sessions.pop().unwrap();
    sessions.destroy_empty();
    (one, two)
}
