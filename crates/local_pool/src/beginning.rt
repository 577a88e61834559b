//! One owner's pool begins and ends.
ghost use Rattle.std.specs.Prelude.{◌≡◌, ◌≤◌, ◌∷◌, ℕ, [], IsErr, IfOk, IfErr, IfSome, vec_len};
ghost use Rattle.std.specs.List.{sum_by};
ghost use Rattle.pool_model.specs.State.{Opening};
ghost use Rattle.pin_core.specs.calls.Setup.{IsOpeningOf, OpensWith};
ghost use Rattle.pin_core.specs.Standing.{StandsFor, slots_home};
ghost use Rattle.pin_core.specs.calls.Opening.{spare_of};
ghost use Rattle.store_api.specs.Entries.{by};
ghost use Rattle.session_calls.specs.declared.count.Count.TheVariants as count;
ghost use Rattle.local_pool.specs.Told.{held_of, signs_of};
ghost use Rattle.local_pool.specs.Counting.{SpendsNames, SumsHold, at_opening, named_at};
ghost use Rattle.local_pool.specs.History.{IsHistory};
ghost use Rattle.pin_core.specs.Tallies.{tally_in, tally_of};
ghost use Rattle.local_pool.specs.Beginning.{Begins, IsBegun, IsLeastRefusal, LacksLeast, first_events};

use crate::owned::Alone;
use crate::sole::Shelf;
use outside::Slot;
use pin_core::{EvictedPages, PoolConf, PoolState};
use pool_model::Event;
use reservation_tree::{PoolErr, TrackerId};
use session_calls::{Count, Hand, Log, Opened, count_opening, enter};
use std::alloc::Global;
use std::marker::{Brand, PhantomData};
use turn_table::Solo;

impl<D: Slot + Drop, T: Opened> Alone<D, T> {
    /// A pool with these numbers and slots, whose owner may reserve up to `limit` bytes and has `least` of them, and
    /// whose pages may take `quota` slots. Takes all the memory that it will ever use, but for pages and loans.
    ///
    /// # Errors
    ///
    /// `Memory`, or `NoReservation`: `least` passes the limit or all memory. The slots come back.
    pub fn open(
        alloc: Global,
        conf: &PoolConf,
        slots: Vec<D>,
        limit: u64,
        quota: u32,
        least: u64,
    ) -> Result<Alone<D, T>, (Vec<D>, PoolErr)>
        requires conf { OpensWith conf.now }
        requires slots { vec_len slots ≤ 1048576 }
        requires quota { quota ≤ vec_len slots }
        requires opened { IfSome (named_at T.named T.opening T.first) (λ first. first ≡ at_opening (tally_of D.Slot slots.items) conf.now.first_name conf.now.blocks) }
        ensures ok { IfOk result (Begins D.Slot conf.now slots.items limit quota least) }
        ensures refused { LacksLeast conf.now limit least → IsErr result }
        ensures cause { IfErr result (λ e. IsLeastRefusal conf.now limit least e.1) }
        ensures back { IfErr result (λ e. (measure : D → ℕ) → sum_by measure e.0.items ≡ sum_by measure slots.items) }
    {
        let Some(mut books) = Books::open(alloc) else {
            return Err((slots, PoolErr::Memory));
        };
        count_opening(&mut books.counts, slots.as_slice());
        match PoolState::open(alloc, conf, slots) {
            Ok(pool) => begin(pool, books, conf, limit, quota, least),
            Err((slots, _)) => Err((slots, PoolErr::Memory)),
        }
    }

    /// Ends a pool that has no client, and gives back its slots.
    pub fn close(self) -> Vec<D>
        requires { (held_of D.Slot self).live_clients ≡ 0 }
        ensures slots { (measure : D → ℕ) → sum_by measure result.items ≡ slots_home measure self.state }
        ensures sums { SumsHold (named_at T.named T.opening T.first) self.trail (tally_of D.Slot result.items) }
        ensures names { SpendsNames (named_at T.named T.opening T.first) self.trail (signs_of self).spent }
        ensures history { IsHistory (named_at T.named T.opening T.first) (held_of D.Slot self).block_len self.session self.trail }
    {
        let Hand {
            mut state,
            trail: _,
            counts: _,
            session,
            gone: _,
        } = self.hand;
        state.end_session(session);
        state.close()
    }
}

// What the owner has beside the pool's value when it begins: nothing is entered, counted, evicted or seen.
#[derive(Drop)]
struct Books<D> {
    trail: Log,
    counts: Solo<Count>,
    gone: EvictedPages,
    shelf: Shelf<D>,
}

impl<D> Books<D> {
    fn open(alloc: Global) -> Option<Books<D>>
        ensures { IfSome result (λ books. (books.trail ≡ []) × (books.counts ≡ []) × (books.shelf.seen ≡ []) × (books.shelf.counted ≡ [])) }
    {
        // An owner has its own trail, so that nothing of it is kept here.
        let Ok(trail) = Log::open(alloc, 0) else {
            return None;
        };
        let counts = Solo::open(alloc).ok()?;
        let gone = EvictedPages::open(alloc).ok()?;
        let shelf = Shelf::open(alloc).ok()?;
        Some(Books {
            trail,
            counts,
            gone,
            shelf,
        })
    }
}

// The owner's session begins.
fn begin<D: Slot + Drop, T: Opened>(
    mut pool: PoolState<D>,
    books: Books<D>,
    _conf: &PoolConf,
    limit: u64,
    quota: u32,
    least: u64,
) -> Result<Alone<D, T>, (Vec<D>, PoolErr)>
    requires conf { OpensWith _conf.now }
    requires fresh { (o : Opening) → IsOpeningOf _conf.now (spare_of pool) o → StandsFor D.Slot o [] pool }
    requires empty { (books.trail ≡ []) × (books.shelf.seen ≡ []) × (books.shelf.counted ≡ []) }
    requires counts { books.counts ≡ count.Opening (tally_in D.Slot pool) ∷ [] }
    requires quota { quota ≤ spare_of pool }
    requires opens { IfSome (named_at T.named T.opening T.first) (λ first. first ≡ at_opening (tally_in D.Slot pool) _conf.now.first_name _conf.now.blocks) }
    ensures ok { IfOk result (λ own. IsBegun _conf.now limit quota least (held_of D.Slot own)) }
    ensures trail { IfOk result (λ own. own.trail ≡ by own.session (first_events (held_of D.Slot own).query limit quota least)) }
    ensures slots { IfOk result (λ own. (measure : D → ℕ) → slots_home measure own.state ≡ slots_home measure pool) }
    ensures refused { LacksLeast _conf.now limit least → IsErr result }
    ensures cause { IfErr result (λ e. IsLeastRefusal _conf.now limit least e.1) }
    ensures back { IfErr result (λ e. (measure : D → ℕ) → sum_by measure e.0.items ≡ slots_home measure pool) }
{
    let Books {
        mut trail,
        counts,
        gone,
        mut shelf,
    } = books;
    let session = match pool.open_session(limit, quota, least) {
        Ok(session) => session,
        Err(refusal) => return Err((pool.close(), refusal)),
    };
    let tracker = pool.tracker(session);
    enter(
        &mut trail,
        session,
        Event::AddTracker {
            tracker,
            parent: TrackerId::of(0),
            limit,
            quota: Some(quota),
        },
    );
    enter(
        &mut trail,
        session,
        Event::Increase {
            tracker,
            bytes: least,
        },
    );
    let hand = Hand {
        state: pool,
        trail,
        counts,
        session,
        gone,
    };
    shelf.see(&hand);
    Ok(Alone {
        hand,
        shelf,
        first: PhantomData,
    })
}
