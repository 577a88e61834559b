//! Rows are dealt to two streams beside each other, kept in them, and read back.
ghost use Rattle.std.specs.Prelude.{◌≡◌, ◌==◌, ◌*◌, ◌%◌, ◌<◌, ◌≤◌, ◌++◌, ℕ, [], true, None, All, filter, length, map, IfOk, OnOk, ⊤};
ghost use Rattle.store_api.specs.Conditions.{IsLiveClient};
ghost use Rattle.store_api.specs.Holdings.{length_of, unused_of};
ghost use Rattle.tuple_stream.specs.Families.{AreShaped, FamilySteps, LaysAll, family};
ghost use Rattle.tuple_stream.specs.FamilyCalls.{AllAtEnd, AreEmpty, AreSteady, Feeds, FeedsAll, HasKept, HasRooms, ReadsIn, ReadsOne, RestsSome};
ghost use Rattle.tuple_stream.specs.PageRows.{IsOneRow};
ghost use Rattle.tuple_stream.specs.Reading.{ReadsAll};
ghost use Rattle.tuple_stream.specs.Steps.{Reads, came, scene};
ghost use Rattle.tuple_stream.specs.Streams.{HasPageRoom, IsShaped};

use reservation_tree::PoolErr;
use std::alloc::Global;
use store_api::{Client, Store};
use tuple_stream::{At, Stream, StreamErr};

// Appends a row to one of the streams.
fn feed<St: Store>(
    alloc: Global,
    store: &mut St,
    c: &Client,
    streams: &mut Vec<Stream>,
    at: usize,
    row: &[u8],
) -> Result<(), StreamErr>
    requires client { IsLiveClient c.now (St.holds store.old) }
    requires shaped { AreShaped c.now.tracker (family streams.old.items (St.holds store.old) (St.signs store.old)) }
    requires rooms { (blocks : ℕ) × HasRooms c.now.tracker blocks (family streams.old.items (St.holds store.old) (St.signs store.old)) }
    requires inside { at < length streams.old.items }
    requires row { IsOneRow row.now }
    ensures went { Feeds c.now.tracker at (came result row.now) (family streams.old.items (St.holds store.old) (St.signs store.old)) (family streams.new.items (St.holds store.new) (St.signs store.new)) }
    ensures at_end { OnOk result (AllAtEnd (family streams.old.items (St.holds store.old) (St.signs store.old)) → AllAtEnd (family streams.new.items (St.holds store.new) (St.signs store.new))) }
{
    streams[at].append(alloc, store, c, row)
}

// Appends each row to one of two streams, by the parity of its length.
fn feed_all<St: Store>(
    alloc: Global,
    store: &mut St,
    c: &Client,
    streams: &mut Vec<Stream>,
    rows: &[Vec<u8>],
) -> Result<(), StreamErr>
    requires client { IsLiveClient c.now (St.holds store.old) }
    requires shaped { AreShaped c.now.tracker (family streams.old.items (St.holds store.old) (St.signs store.old)) }
    requires rooms { (blocks : ℕ) × HasRooms c.now.tracker blocks (family streams.old.items (St.holds store.old) (St.signs store.old)) }
    requires two { length streams.old.items ≡ 2 }
    requires rows { All (λ r. IsOneRow r.items) rows.now }
    ensures ok { OnOk result (FeedsAll c.now.tracker (λ i. filter (λ row. length row % 2 == i) (map (λ r. r.items) rows.now)) (family streams.old.items (St.holds store.old) (St.signs store.old)) (family streams.new.items (St.holds store.new) (St.signs store.new))) }
    ensures went { FamilySteps (LaysAll (AllAtEnd (family streams.old.items (St.holds store.old) (St.signs store.old))) ⊥ (family streams.old.items (St.holds store.old) (St.signs store.old)) (family streams.new.items (St.holds store.new) (St.signs store.new))) c.now.tracker (family streams.old.items (St.holds store.old) (St.signs store.old)) (family streams.new.items (St.holds store.new) (St.signs store.new)) }
{
    for row in rows {
        let at = row.len() % 2;
        feed(alloc, store, c, streams, at, row.as_slice())?;
    }
    Ok(())
}

// Lets the pinned page of each rest.
fn rest_all<St: Store>(store: &mut St, c: &Client, streams: &mut Vec<Stream>) -> Result<(), PoolErr>
    requires shaped { AreShaped c.now.tracker (family streams.old.items (St.holds store.old) (St.signs store.old)) }
    ensures ok { OnOk result (RestsSome c.now.tracker (length streams.old.items) (family streams.old.items (St.holds store.old) (St.signs store.old)) (family streams.new.items (St.holds store.new) (St.signs store.new))) }
    ensures went { FamilySteps (LaysAll (AreSteady (family streams.old.items (St.holds store.old) (St.signs store.old))) ⊤ (family streams.old.items (St.holds store.old) (St.signs store.old)) (family streams.new.items (St.holds store.new) (St.signs store.new))) c.now.tracker (family streams.old.items (St.holds store.old) (St.signs store.old)) (family streams.new.items (St.holds store.new) (St.signs store.new)) }
{
    for at in 0..streams.len() {
        streams[at].rest(store)?;
    }
    Ok(())
}

// Deals rows to two streams that have none, and lets all pages rest.
fn keep_all<St: Store>(
    alloc: Global,
    store: &mut St,
    c: &Client,
    streams: &mut Vec<Stream>,
    rows: &[Vec<u8>],
) -> Result<(), StreamErr>
    requires client { IsLiveClient c.now (St.holds store.old) }
    requires shaped { AreShaped c.now.tracker (family streams.old.items (St.holds store.old) (St.signs store.old)) }
    requires empty { AreEmpty (family streams.old.items (St.holds store.old) (St.signs store.old)) }
    requires rooms { (blocks : ℕ) × HasRooms c.now.tracker blocks (family streams.old.items (St.holds store.old) (St.signs store.old)) }
    requires two { length streams.old.items ≡ 2 }
    requires rows { All (λ r. IsOneRow r.items) rows.now }
    ensures ok { OnOk result (HasKept c.now.tracker (λ i. filter (λ row. length row % 2 == i) (map (λ r. r.items) rows.now)) (family streams.old.items (St.holds store.old) (St.signs store.old)) (family streams.new.items (St.holds store.new) (St.signs store.new))) }
    ensures went { FamilySteps (LaysAll (AllAtEnd (family streams.old.items (St.holds store.old) (St.signs store.old))) ⊥ (family streams.old.items (St.holds store.old) (St.signs store.old)) (family streams.new.items (St.holds store.new) (St.signs store.new))) c.now.tracker (family streams.old.items (St.holds store.old) (St.signs store.old)) (family streams.new.items (St.holds store.new) (St.signs store.new)) }
{
    feed_all(alloc, store, c, streams, rows)?;
    rest_all(store, c, streams)?;
    Ok(())
}

// Reads a stream to its end. Its rows stay.
fn read_all<St: Store>(
    alloc: Global,
    store: &mut St,
    c: &Client,
    stream: &mut Stream,
    out: &mut Vec<Vec<u8>>,
) -> Result<(), PoolErr>
    requires client { IsLiveClient c.now (St.holds store.old) }
    requires stream { IsShaped c.now.tracker stream.old (St.holds store.old) }
    requires room { HasPageRoom c.now.tracker stream.old (St.holds store.old) }
    ensures ok { OnOk result (ReadsAll (map (λ r. r.items) out.old.items) (map (λ r. r.items) out.new.items) (scene stream.old (St.holds store.old) (St.signs store.old))) }
    ensures went { Reads c.now.tracker (scene stream.old (St.holds store.old) (St.signs store.old)) (scene stream.new (St.holds store.new) (St.signs store.new)) }
    ensures same { stream.new ≡ record stream.old { pinned = stream.new.pinned } }
{
    let mut place = At::first();
    loop {
        let mut row = Vec::new(alloc);
        if !stream.keep_into(store, c, &mut place, &mut row)? {
            return Ok(());
        }
        if out.push(row).is_err() {
            return Err(PoolErr::Memory);
        }
    }
}

// Reads one of the streams to its end. All rows stay.
fn read_one<St: Store>(
    alloc: Global,
    store: &mut St,
    c: &Client,
    streams: &mut Vec<Stream>,
    at: usize,
    out: &mut Vec<Vec<u8>>,
) -> Result<(), PoolErr>
    requires client { IsLiveClient c.now (St.holds store.old) }
    requires shaped { AreShaped c.now.tracker (family streams.old.items (St.holds store.old) (St.signs store.old)) }
    requires rooms { (blocks : ℕ) × HasRooms c.now.tracker blocks (family streams.old.items (St.holds store.old) (St.signs store.old)) }
    requires inside { at < length streams.old.items }
    ensures ok { OnOk result (ReadsOne at (map (λ r. r.items) out.old.items) (map (λ r. r.items) out.new.items) (family streams.old.items (St.holds store.old) (St.signs store.old))) }
    ensures went { ReadsIn c.now.tracker (family streams.old.items (St.holds store.old) (St.signs store.old)) (family streams.new.items (St.holds store.new) (St.signs store.new)) }
{
    read_all(alloc, store, c, &mut streams[at], out)
}

// Deals rows to two streams that have none, and reads both back, one after the other.
fn go_through<St: Store>(
    alloc: Global,
    store: &mut St,
    c: &Client,
    streams: &mut Vec<Stream>,
    rows: &[Vec<u8>],
    out: &mut Vec<Vec<u8>>,
) -> Result<(), StreamErr>
    requires client { IsLiveClient c.now (St.holds store.old) }
    requires shaped { AreShaped c.now.tracker (family streams.old.items (St.holds store.old) (St.signs store.old)) }
    requires empty { AreEmpty (family streams.old.items (St.holds store.old) (St.signs store.old)) }
    requires rooms { (blocks : ℕ) × HasRooms c.now.tracker blocks (family streams.old.items (St.holds store.old) (St.signs store.old)) }
    requires two { length streams.old.items ≡ 2 }
    requires rows { All (λ r. IsOneRow r.items) rows.now }
    ensures ok { OnOk result ((St.holds store.old).told ≡ true → map (λ r. r.items) out.new.items ≡ map (λ r. r.items) out.old.items ++ (filter (λ row. length row % 2 == 0) (map (λ r. r.items) rows.now) ++ filter (λ row. length row % 2 == 1) (map (λ r. r.items) rows.now))) }
    ensures shaped { AreShaped c.now.tracker (family streams.new.items (St.holds store.new) (St.signs store.new)) }
{
    keep_all(alloc, store, c, streams, rows)?;
    read_one(alloc, store, c, streams, 0, out)?;
    read_one(alloc, store, c, streams, 1, out)?;
    Ok(())
}

// Two new streams, whose pages have one block.
fn two_streams(alloc: Global) -> Result<Vec<Stream>, PoolErr>
    ensures { IfOk result (λ streams. (length streams.items ≡ 2) × All (λ s. s ≡ record { page_blocks = 1; pages = []; pinned = None; spent = 0; used = 0; count = 0 }) streams.items) }
{
    let mut streams = Vec::new(alloc);
    if streams.reserve(2).is_err() {
        streams.destroy_empty();
        return Err(PoolErr::Memory);
    }
    streams.push_reserved(Stream::new(alloc, 1));
    streams.push_reserved(Stream::new(alloc, 1));
    Ok(streams)
}

// All pages of the streams go, and they end.
fn end_all<St: Store>(store: &mut St, c: &Client, streams: Vec<Stream>)
    requires { AreShaped c.now.tracker (family streams.items (St.holds store.old) (St.signs store.old)) }
{
    let mut streams = streams;
    while !streams.is_empty() {
        let mut stream = streams.take_last();
        stream.drop_all(store);
        stream.end();
    }
    streams.destroy_empty();
}

// Rows go through two new streams: those of even length come back first.
fn go_through_new<St: Store>(
    alloc: Global,
    store: &mut St,
    c: &Client,
    rows: &[Vec<u8>],
    out: &mut Vec<Vec<u8>>,
) -> Result<(), StreamErr>
    requires client { IsLiveClient c.now (St.holds store.old) }
    requires room { 2 * length_of 1 (St.holds store.old) ≤ unused_of c.now.tracker (St.holds store.old) }
    requires rows { All (λ r. IsOneRow r.items) rows.now }
    ensures { OnOk result ((St.holds store.old).told ≡ true → map (λ r. r.items) out.new.items ≡ map (λ r. r.items) out.old.items ++ (filter (λ row. length row % 2 == 0) (map (λ r. r.items) rows.now) ++ filter (λ row. length row % 2 == 1) (map (λ r. r.items) rows.now))) }
{
    let mut streams = two_streams(alloc)?;
    let answer = go_through(alloc, store, c, &mut streams, rows, out);
    end_all(store, c, streams);
    answer
}
