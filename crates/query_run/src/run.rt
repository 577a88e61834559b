// A query, from the bytes of its inputs to those of its answer.

ghost use Rattle.std.specs.Prelude.{◌≡◌, is_some};
ghost use Rattle.query_plan.specs.Sizes.{joins};
ghost use Rattle.query_run.specs.Plans.{IsRunnable};
ghost use Rattle.query_run.specs.Run.{RanQuery, world};
ghost use Rattle.query_run.specs.Stopped.{HasRoomFor};

use crate::both::run_both;
use crate::grouped::run_grouped;
use crate::joined::run_joined;
use outside::{Sink, Source};
use query_plan::{Query, QueryErr, Ran};
use std::alloc::Global;
use store_api::Store;

/// Runs a query, and writes its answer. All inputs are read before anything is written, the left one first. The rows that
/// pass the filter of their side are grouped or joined, or their pairs are grouped. Each of these operators has a client of
/// its own, which begins with twenty pages reserved and may have as much as the plan's limit, or the least reservation where
/// that is more; what its memory can't hold goes to pages of the store.
///
/// So an answer is promised where the store tells what a pin shows. Where it doesn't, what comes back may be any bytes.
/// Bytes that are no row are answered by `Memory`, and so are pairs that are longer than any of rows that were weighed.
///
/// The store has no live client and room for the least reservation; afterwards it has no live client again, and at
/// least the room that it had. `right` holds a source exactly where the query joins, and holds it afterwards.
///
/// An input has at most 2147483648 records, the header among them, and 1099511627776 bytes. A row weighs its encoded
/// bytes and 16 more for each aggregate, twice where the query joins and groups, and at most as many as a page has; every
/// row is weighed, whether it passes or not. The first refusal in the order of reading is answered; that an input has too
/// many bytes may show before another refusal.
///
/// # Errors
///
/// Those of the inputs, each with its place: nothing was written then. `SinkFault`: a write failed. `Pool`, where the store
/// answered so in this call or there was no memory. It is never `NoReservation` or `TooManyTrackers`: a growth of a client
/// that is refused is no error, and there are few clients. Whatever the query does, `ScratchFull` names the blocks of a page
/// and what is left of the slots that were free at the start; it comes only where these were too few for the pages that the
/// query needs, which are those of the rows that pass and stand before the first refusal.
///
/// After `SinkFault` the sink has a front of the answer, and nothing behind the first failed write. After `Pool` it is as it
/// was, or all inputs were read to their ends and it has a front of the answer. Which bytes these are is said where the store
/// tells what a pin shows.
pub fn run_query<St: Store, S: Source, K: Sink>(
    alloc: Global,
    store: &mut St,
    plan: &Query,
    left: &mut S,
    right: &mut Option<S>,
    sink: &mut K,
) -> Result<Ran, QueryErr>
    requires plan { IsRunnable plan.now }
    requires store { HasRoomFor plan.now (St.holds store.old) }
    requires right { is_some right.old ≡ joins plan.now }
    ensures { RanQuery S.Source K.Sink St.Store plan.now (world left.old right.old sink.old) (world left.new right.new sink.new) store.old store.new result }
{
    let source = match right {
        Some(source) => source,
        None => return run_grouped(alloc, store, plan, left, sink),
    };
    if !plan.group.as_slice().is_empty() {
        return run_both(alloc, store, plan, left, source, sink);
    }
    run_joined(alloc, store, plan, left, source, sink)
}
