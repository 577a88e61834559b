//! All partitions go.
ghost use Rattle.std.specs.Prelude.{◌≡◌, []};
ghost use Rattle.tuple_stream.specs.Families.{AreShaped, family};
ghost use Rattle.partition_stack.specs.Stack.{HaveNoPages, no_stack, over};
ghost use Rattle.partition_stack.specs.Changes.{EndsAll};

use crate::stack::Partitions;
use crate::streams::{discard_streams, end_streams};
use std::alloc::Global;
use std::mem;
use store_api::{Client, Store};

impl Partitions {
    /// Destroys all pages, and with them the rows, and ends the stack. This takes no memory.
    pub fn end<St: Store>(self, store: &mut St, c: &Client)
        requires { AreShaped c.now.tracker (over self (St.holds store.old) (St.signs store.old)) }
        ensures { EndsAll c.now.tracker (over self (St.holds store.old) (St.signs store.old)) (family [] (St.holds store.new) (St.signs store.new)) }
    {
        let Partitions {
            page_blocks: _,
            streams,
            levels: _,
        } = self;
        end_streams(store, c, streams);
    }

    /// Destroys all pages, and with them the rows. The stack has no partition from then on. This takes no memory.
    pub fn clear<St: Store>(&mut self, alloc: Global, store: &mut St, c: &Client)
        requires { AreShaped c.now.tracker (over self.old (St.holds store.old) (St.signs store.old)) }
        ensures ends { EndsAll c.now.tracker (over self.old (St.holds store.old) (St.signs store.old)) (family [] (St.holds store.new) (St.signs store.new)) }
        ensures none { self.new ≡ no_stack self.old.page_blocks }
    {
        let streams = mem::replace(&mut self.streams, Vec::new(alloc));
        self.levels.clear();
        end_streams(store, c, streams);
    }

    /// Ends a stack without pages, for which no store is needed.
    pub fn discard(self)
        requires { HaveNoPages self.streams }
    {
        let Partitions {
            page_blocks: _,
            streams,
            levels: _,
        } = self;
        discard_streams(streams);
    }
}
