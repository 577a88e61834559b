// A query over a store of a pool whose blocks have no marks.

ghost use Rattle.std.specs.Prelude.{◌≡◌, is_some};
ghost use Rattle.query_run.specs.Plans.{IsRunnable};
ghost use Rattle.query_plan.specs.Sizes.{joins};
ghost use Rattle.query_run.specs.Stopped.{HasRoomFor};
ghost use Rattle.query_run.specs.Run.{world};
ghost use Rattle.spill_top.specs.Unmarked.{RanUnmarked};

use outside::{Sink, Source};
use query_plan::Query;
use query_run::{QueryErr, Ran, run_query};
use reservation_tree::PoolErr;
use std::alloc::Global;
use store_api::Store;

// Runs a query. Without marks no load finds another mark than the wanted one; the type allows this answer all the same, and it is
// told as want of memory, of which nothing is claimed.
pub(crate) fn run_unmarked<St: Store, S: Source, K: Sink>(
    alloc: Global,
    store: &mut St,
    plan: &Query,
    left: &mut S,
    right: &mut Option<S>,
    sink: &mut K,
) -> Result<Ran, QueryErr>
    requires plan { IsRunnable plan.now }
    requires store { HasRoomFor plan.now (St.holds store.old) }
    requires right { is_some right.old ≡ joins plan.now }
    ensures { RanUnmarked S.Source K.Sink St.Store plan.now (world left.old right.old sink.old) (world left.new right.new sink.new) store.old store.new result }
{
    match run_query(alloc, store, plan, left, right, sink) {
        Err(QueryErr::Pool(PoolErr::Stale { .. })) => Err(QueryErr::Pool(PoolErr::Memory)),
        ran => ran,
    }
}
