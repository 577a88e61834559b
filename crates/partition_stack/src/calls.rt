//! Calls of one partition, and of the streams beside each other.
ghost use Rattle.std.specs.Prelude.{◌≡◌, ℕ, ◌+◌, ◌≤◌, ◌<◌, Some, None, length, map, if◌then◌else◌, IfErr, IfOk, OnOk, OnErr, ⊤};
ghost use Rattle.store_api.specs.Conditions.{IsLiveClient};
ghost use Rattle.store_api.specs.Holdings.{length_of};
ghost use Rattle.store_api.specs.Signs.{WasAnswered};
ghost use Rattle.tuple_stream.specs.PageRows.{IsOneRow};
ghost use Rattle.tuple_stream.specs.Touches.{IsFull};
ghost use Rattle.tuple_stream.specs.Steps.{came};
ghost use Rattle.tuple_stream.specs.Families.{AreShaped, FamilySteps, LaysAll, pages_in};
ghost use Rattle.tuple_stream.specs.FamilyCalls.{AllAtEnd, AreSteady, Feeds, ReadsIn, RestsSome};
ghost use Rattle.partition_stack.specs.Stack.{HasRoomFrom, RestBelow, over};
ghost use Rattle.partition_stack.specs.Changes.{ChangesAt, SpendsAt};

use crate::stack::Partitions;
use crate::streams::rest_streams;
use reservation_tree::PoolErr;
use std::alloc::Global;
use store_api::{Client, Store};
use tuple_stream::StreamErr;

impl Partitions {
    /// Appends a row to a partition. It is copied once, into its page, which stays pinned.
    ///
    /// # Errors
    ///
    /// The store answered so in this call, or there was no memory. The rows are as before.
    #[inline(always)]
    pub fn append<St: Store>(
        &mut self,
        alloc: Global,
        store: &mut St,
        c: &Client,
        at: usize,
        row: &[u8],
    ) -> Result<(), PoolErr>
        requires client { IsLiveClient c.now (St.holds store.old) }
        requires shaped { AreShaped c.now.tracker (over self.old (St.holds store.old) (St.signs store.old)) }
        requires room { (from : ℕ) × (from ≤ at) × HasRoomFrom c.now.tracker from self.old (St.holds store.old) (St.signs store.old) }
        requires inside { at < length self.old.streams }
        requires row { IsOneRow row.now }
        requires short { length row.now ≤ length_of self.old.page_blocks (St.holds store.old) }
        ensures went { Feeds c.now.tracker at (came result row.now) (over self.old (St.holds store.old) (St.signs store.old)) (over self.new (St.holds store.new) (St.signs store.new)) }
        ensures at_end { OnOk result (AllAtEnd (over self.old (St.holds store.old) (St.signs store.old)) → AllAtEnd (over self.new (St.holds store.new) (St.signs store.new))) }
        ensures few { pages_in (over self.new (St.holds store.new) (St.signs store.new)) ≤ pages_in (over self.old (St.holds store.old) (St.signs store.old)) + 1 }
        ensures spent { map (λ s. s.spent) self.new.streams ≡ map (λ s. s.spent) self.old.streams }
        ensures changes { ChangesAt at self.old self.new }
        ensures cause { IfErr result (λ e. WasAnswered e (St.signs store.old) (St.signs store.new)) }
        ensures full { IfErr result (IsFull self.old.page_blocks (St.holds store.new).free_slots) }
    {
        let Err(refused) = self.streams[at].append(alloc, store, c, row) else {
            return Ok(());
        };
        match refused {
            StreamErr::Pool(e) => Err(e),
            StreamErr::RowTooLong { bytes: _ } => unreachable!(),
        }
    }

    /// Takes the first row of a partition out, into memory that the next row may take again: whether there was a row. With
    /// the last row of a page the page ends. Where there was none, what stands in `out` is left open.
    ///
    /// # Errors
    ///
    /// The store answered so in this call, or there was no memory, or a page shows no row where one must be. The rows are
    /// as before.
    #[inline(always)]
    pub fn spend<St: Store>(
        &mut self,
        store: &mut St,
        c: &Client,
        at: usize,
        out: &mut Vec<u8>,
    ) -> Result<bool, PoolErr>
        requires client { IsLiveClient c.now (St.holds store.old) }
        requires shaped { AreShaped c.now.tracker (over self.old (St.holds store.old) (St.signs store.old)) }
        requires room { (from : ℕ) × (from ≤ at) × HasRoomFrom c.now.tracker from self.old (St.holds store.old) (St.signs store.old) }
        requires inside { at < length self.old.streams }
        ensures ok { IfOk result (λ found. SpendsAt c.now.tracker at (if found then Some out.new.items else None) (over self.old (St.holds store.old) (St.signs store.old)) (over self.new (St.holds store.new) (St.signs store.new))) }
        ensures err { OnErr result (ReadsIn c.now.tracker (over self.old (St.holds store.old) (St.signs store.old)) (over self.new (St.holds store.new) (St.signs store.new))) }
        ensures changes { ChangesAt at self.old self.new }
        ensures cause { IfErr result (λ e. WasAnswered e (St.signs store.old) (St.signs store.new)) }
        ensures full { IfErr result (IsFull self.old.page_blocks (St.holds store.new).free_slots) }
    {
        self.streams[at].spend_into(store, c, out)
    }

    /// Lets the pinned pages of the partitions from this one on rest, where those below it do. This takes no memory.
    ///
    /// # Errors
    ///
    /// `ScratchFull`: a page has no slots, and too few of the quota are free.
    pub fn rest_from<St: Store>(
        &mut self,
        store: &mut St,
        c: &Client,
        from: usize,
    ) -> Result<(), PoolErr>
        requires shaped { AreShaped c.now.tracker (over self.old (St.holds store.old) (St.signs store.old)) }
        requires rests { RestBelow from self.old }
        ensures ok { OnOk result (RestsSome c.now.tracker (length self.old.streams) (over self.old (St.holds store.old) (St.signs store.old)) (over self.new (St.holds store.new) (St.signs store.new))) }
        ensures went { FamilySteps (LaysAll (AreSteady (over self.old (St.holds store.old) (St.signs store.old))) ⊤ (over self.old (St.holds store.old) (St.signs store.old)) (over self.new (St.holds store.new) (St.signs store.new))) c.now.tracker (over self.old (St.holds store.old) (St.signs store.old)) (over self.new (St.holds store.new) (St.signs store.new)) }
        ensures kept { self.new ≡ record self.old { streams = self.new.streams } }
        ensures pages { pages_in (over self.new (St.holds store.new) (St.signs store.new)) ≡ pages_in (over self.old (St.holds store.old) (St.signs store.old)) }
        ensures cause { IfErr result (λ e. WasAnswered e (St.signs store.old) (St.signs store.new)) }
        ensures full { IfErr result (IsFull self.old.page_blocks (St.holds store.new).free_slots) }
    {
        rest_streams(store, c, &mut self.streams, from)
    }
}
