//! Pages and buffers come and go.
ghost use Rattle.std.specs.Prelude.{◌≡◌, OnOk, IfSome};
ghost use Rattle.pool_model.specs.Bytes.{only_if};
ghost use Rattle.trace_follow.specs.Tables.{amount_at};
ghost use Rattle.trace_follow.specs.Ending.{Gains, EndsPage, AddsPage, AddsBuffer, EndsBuffer};

use super::Follower;
use crate::rows::{BufferRow, Load, PageRow};
use std::alloc::AllocError;

impl Load {
    // With one thing more of this length, charged and held so often, where u64 holds the sums.
    fn with(self, len: u64, charges: u64, holds: u64) -> Option<Load>
        ensures { IfSome result (Gains len charges holds self) }
    {
        Some(Load {
            charge: self.charge.checked_add(charges.checked_mul(len)?)?,
            held: self.held.checked_add(holds.checked_mul(len)?)?,
            count: self.count.checked_add(1)?,
        })
    }

    // With one thing less.
    fn without(self, len: u64, charges: u64, holds: u64) -> Option<Load>
        ensures { IfSome result (λ load. Gains len charges holds load self) }
    {
        Some(Load {
            charge: self.charge.checked_sub(charges.checked_mul(len)?)?,
            held: self.held.checked_sub(holds.checked_mul(len)?)?,
            count: self.count.checked_sub(1)?,
        })
    }
}

impl PageRow {
    // The slots that the page has.
    pub(super) fn slots(self) -> u64
        ensures { result ≡ only_if self.has_slots self.blocks }
    {
        if self.has_slots {
            u64::from(self.blocks)
        } else {
            0
        }
    }
}

impl Follower {
    // The slots in use of a session.
    pub(super) fn lent(&self, maker: u32) -> u64
        ensures { result ≡ amount_at self.now.lent maker }
    {
        self.lent.row(u64::from(maker)).unwrap_or(0)
    }

    // A page ends.
    pub(super) fn end_page(&mut self, p: u64, row: PageRow) -> Result<(), AllocError>
        ensures { OnOk result (EndsPage self.old self.new p row) }
    {
        let len = self.len_of(row.blocks);
        let (charges, holds, blocks) = (row.place.charges(), row.place.holds(), row.place.blocks());
        let load = self
            .load(row.client)
            .without(len, charges, holds)
            .ok_or(AllocError)?;
        let lent = self
            .lent(row.session)
            .checked_sub(row.slots())
            .ok_or(AllocError)?;
        let more = blocks.checked_mul(len).ok_or(AllocError)?;
        self.free = self.free.checked_add(more).ok_or(AllocError)?;
        self.loads.put(u64::from(row.client), load)?;
        self.lent.put(u64::from(row.session), lent)?;
        self.pages.take(p);
        Ok(())
    }

    // A page comes, pinned once and without slots.
    pub(super) fn add_page(&mut self, p: u64, row: PageRow) -> Result<(), AllocError>
        ensures { OnOk result (AddsPage self.old self.new p row) }
    {
        let len = self.len_of(row.blocks);
        let load = self.load(row.client).with(len, 1, 1).ok_or(AllocError)?;
        self.free = self.free.checked_sub(len).ok_or(AllocError)?;
        self.loads.put(u64::from(row.client), load)?;
        self.pages.put(p, row)
    }

    // A buffer comes.
    pub(super) fn add_buffer(&mut self, f: u32, row: BufferRow) -> Result<(), AllocError>
        ensures { OnOk result (AddsBuffer self.old self.new f row) }
    {
        let len = self.len_of(row.blocks);
        let load = self.load(row.client).with(len, 1, 1).ok_or(AllocError)?;
        self.free = self.free.checked_sub(len).ok_or(AllocError)?;
        self.loads.put(u64::from(row.client), load)?;
        self.buffers.put(u64::from(f), row)
    }

    // A buffer ends.
    pub(super) fn end_buffer(&mut self, f: u32, row: BufferRow) -> Result<(), AllocError>
        ensures { OnOk result (EndsBuffer self.old self.new f row) }
    {
        let len = self.len_of(row.blocks);
        let load = self.load(row.client).without(len, 1, 1).ok_or(AllocError)?;
        self.free = self.free.checked_add(len).ok_or(AllocError)?;
        self.loads.put(u64::from(row.client), load)?;
        self.buffers.take(u64::from(f));
        Ok(())
    }
}
