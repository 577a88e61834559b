//! Pages wait, dirty or clean, and wait no longer.
ghost use Rattle.std.specs.Prelude.{OnOk};
ghost use Rattle.trace_follow.specs.Waiting.{TakesDirty, Unqueues, QueuesDirty, QueuesClean};

use super::Follower;
use crate::queue::Queue;
use std::alloc::AllocError;

impl Follower {
    // The page waits no longer.
    #[tactic(auto, using(crate::proofs::Taking::not_queued, crate::proofs::Taking::taken_out))]
    pub(super) fn unqueue(&mut self, client: u32, p: u64) -> Result<(), AllocError>
        ensures { OnOk result (Unqueues self.old self.new client p) }
    {
        match self.stamps.take(p) {
            Some(stamp) => {
                self.clean.take(stamp);
                self.take_dirty(client, stamp)
            }
            None => Ok(()),
        }
    }

    // What has this stamp waits no longer among the client's dirty pages.
    #[tactic(auto, using(crate::proofs::Taking::none_taken, crate::proofs::Taking::some_taken))]
    fn take_dirty(&mut self, client: u32, stamp: u64) -> Result<(), AllocError>
        ensures { OnOk result (TakesDirty self.old self.new client stamp) }
    {
        let client = u64::from(client);
        let Some(mut queue) = self.dirty.take(client) else {
            return Ok(());
        };
        queue.take(stamp);
        self.dirty.put(client, queue)
    }

    // The page waits as the newest of its client's dirty ones, under the number of this entry.
    #[tactic(auto, using(crate::proofs::Taking::put_first, crate::proofs::Taking::put_more))]
    pub(super) fn queue_dirty(&mut self, client: u32, p: u64) -> Result<(), AllocError>
        ensures { OnOk result (QueuesDirty self.old self.new client p) }
    {
        let client = u64::from(client);
        let mut queue = match self.dirty.take(client) {
            Some(queue) => queue,
            None => Queue::new(self.alloc),
        };
        queue.put(self.entries, p)?;
        self.dirty.put(client, queue)?;
        self.stamps.put(p, self.entries)
    }

    // The page waits as the newest of the clean ones.
    pub(super) fn queue_clean(&mut self, p: u64) -> Result<(), AllocError>
        ensures { OnOk result (QueuesClean self.old self.new p) }
    {
        self.clean.put(self.entries, p)?;
        self.stamps.put(p, self.entries)
    }
}
