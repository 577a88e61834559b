//! What a session does: it lays rows on pages and reads them back, as in `example_owner`, over any store.

ghost use Rattle.std.specs.Prelude.{◌≡◌, ◌≤◌};
ghost use Rattle.store_api.specs.Alike.{AlikeButClients};
ghost use Rattle.store_api.specs.Conditions.{IsLiveClient};
ghost use Rattle.store_api.specs.Holdings.{unused_of};
ghost use Rattle.tuple_stream.specs.PageRows.{IsOneRow};
ghost use Rattle.tuple_stream.specs.Streams.{HasPageRoom, IsShaped};
ghost use Rattle.tuple_stream.specs.Touches.{Touches};

use std::alloc::Global;
use store_api::{Client, Store};
use tuple_stream::{Stream, StreamErr};

const ROWS: u64 = 200;

/// What was read back.
#[derive(Clone, Copy)]
pub struct Seen {
    pub rows: u64,
    pub sum: u64,
}

/// The rows with the numbers from this one on, through pages of a client that comes and goes.
pub fn rows_through<St: Store>(store: &mut St, alloc: Global, first: u64) -> Result<Seen, StreamErr>
    ensures { (St.holds store.new).live_clients ≡ (St.holds store.old).live_clients }
{
    let c = store.add_client(u64::MAX)?;
    let bytes = 8 * u64::from(store.block_len());
    if let Err(e) = store.reserve(&c, bytes) {
        store.end_client(c);
        return Err(StreamErr::Pool(e));
    }
    let seen = through_pages(store, alloc, &c, first);
    store.end_client(c);
    seen
}

// The pages have one block each, and go at the end, whatever went wrong in between.
fn through_pages<St: Store>(
    store: &mut St,
    alloc: Global,
    c: &Client,
    first: u64,
) -> Result<Seen, StreamErr>
    requires client { IsLiveClient c.now (St.holds store.old) }
    requires unused { (St.holds store.old).block_len ≤ unused_of c.now.tracker (St.holds store.old) }
    ensures client { IsLiveClient c.now (St.holds store.new) }
    ensures rest { AlikeButClients (St.holds store.old) (St.holds store.new) }
{
    let mut stream = Stream::new(alloc, 1);
    let seen = laid_and_read(&mut stream, store, alloc, c, first);
    stream.drop_all(store);
    stream.end();
    seen
}

fn laid_and_read<St: Store>(
    stream: &mut Stream,
    store: &mut St,
    alloc: Global,
    c: &Client,
    first: u64,
) -> Result<Seen, StreamErr>
    requires client { IsLiveClient c.now (St.holds store.old) }
    requires stream { IsShaped c.now.tracker stream.old (St.holds store.old) }
    requires room { HasPageRoom c.now.tracker stream.old (St.holds store.old) }
    ensures stream { IsShaped c.now.tracker stream.new (St.holds store.new) }
    ensures touches { Touches c.now.tracker stream.old stream.new (St.holds store.old) (St.holds store.new) }
{
    for at in 0..ROWS {
        stream.append(alloc, store, c, &row_of(first.wrapping_add(at)))?;
    }
    let mut seen = Seen { rows: 0, sum: 0 };
    for _left in 0..stream.rows() {
        let Some(row) = stream.next_spend(alloc, store, c)? else {
            break;
        };
        seen.rows = seen.rows.saturating_add(1);
        seen.sum = seen.sum.saturating_add(number_in(&row));
    }
    Ok(seen)
}

// A row is four bytes that count the rest of it, and that rest: here a number.
fn row_of(number: u64) -> [u8; 12]
    ensures { IsOneRow result }
{
    let [a, b, c, d, e, f, g, h] = number.to_be_bytes();
    [0, 0, 0, 8, a, b, c, d, e, f, g, h]
}

fn number_in(row: &[u8]) -> u64 {
    match row {
        [_, _, _, _, a, b, c, d, e, f, g, h] => u64::from_be_bytes([
            *a, *b, *c, *d, *e, *f, *g, *h,
        ]),
        _ => 0,
    }
}
