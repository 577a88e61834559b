//! What calls need of jobs.
ghost use Rattle.std.specs.Prelude.{◌≡◌, ◌<◌, ◌⊎◌, IsTrue, length};
ghost use Rattle.pool_model.specs.Makers.{IsSession, IsWriter};
ghost use Rattle.pin_core.specs.calls.Jobs.{IsReadJob, IsWriteJob};
ghost use Rattle.pin_core.specs.Marking.{under_of};
ghost use Rattle.pin_core.specs.calls.Runs.{IfFoundOther, IsFit};
ghost use Rattle.pin_core.specs.StateOf.{state_of};

use crate::pages::{entry_at, fits};
use page_table::Place;
use pin_core::{PoolState, ReadJob, WriteJob};

/// Whether the pool waits for this write.
pub fn is_write_job<D: Drop>(pool: &PoolState<D>, job: &WriteJob<D>) -> bool
    ensures job { IsTrue result → IsWriteJob (state_of pool.now) job.now }
    ensures fit { IsTrue result → IsFit job.now.buf job.now.row }
{
    let Some(entry) = entry_at(pool, job.id) else {
        return false;
    };
    entry.place == Place::Flying(job.who)
        && entry.client == job.client
        && fits(pool, entry.blocks, &job.buf)
        && job.row.len() == entry.blocks as usize
        && job.under == version_under(pool, entry.version)
        && is_maker(job.who)
}

/// Whether the pool waits for this load; another mark that it found is one that it may tell.
pub fn is_read_job<D: Drop>(pool: &PoolState<D>, job: &ReadJob<D>) -> bool
    ensures job { IsTrue result → IsReadJob (state_of pool.now) job.now }
    ensures fit { IsTrue result → IsFit job.now.buf job.now.row }
    ensures found { IsTrue result → IfFoundOther job.now.under job.now.id.name (length job.now.row) job.now.stale }
{
    let Some(entry) = entry_at(pool, job.id) else {
        return false;
    };
    entry.place == Place::Loading
        && entry.client == job.client
        && fits(pool, entry.blocks, &job.buf)
        && job.row.len() == entry.blocks as usize
        && job.under == version_under(pool, entry.version)
        && may_be_found(job)
}

// Whether the mark that was wanted is that of one of the job's blocks, and another was found.
fn may_be_found<D>(job: &ReadJob<D>) -> bool
    ensures { IsTrue result → IfFoundOther job.now.under job.now.id.name (length job.now.row) job.now.stale }
{
    let Some(stale) = job.stale else {
        return true;
    };
    let (wanted, found) = (stale.wanted, stale.found);
    job.under == Some(wanted.version)
        && wanted.name == job.id.name
        && is_inside(wanted.block, job.row.len())
        && found != wanted
}

fn is_inside(block: u32, blocks: usize) -> bool
    ensures { IsTrue result → block < blocks }
{
    (block as usize) < blocks
}

// The version, where the pool's stored blocks have marks.
fn version_under<D>(pool: &PoolState<D>, version: u64) -> Option<u64>
    ensures { result ≡ under_of pool.now.marked version }
{
    let parts = pool.parts();
    if parts.marked { Some(version) } else { None }
}

/// Whether the number is a session's or a writer's.
pub fn is_maker(who: u32) -> bool
    ensures { IsTrue result → IsSession who ⊎ IsWriter who }
{
    if who < 240 {
        return true;
    }
    is_writer(who)
}

/// Whether the number is a writer's.
pub fn is_writer(who: u32) -> bool
    ensures { IsTrue result → IsWriter who }
{
    who >= 1000 && who < 1008
}
