//! Clean pages make room.
ghost use Rattle.std.specs.Prelude.{◌≡◌, ◌≤◌, ◌+◌};
ghost use Rattle.clean_evict.specs.Eviction.{blocks_of};
ghost use Rattle.pin_core.specs.Invariant.{IsKept};
ghost use Rattle.pin_core.specs.Lawful.{Lawful};
ghost use Rattle.pin_core.specs.calls.Evictions.{names_gone, with_room};

use crate::evicted::EvictedPages;
use crate::lengths;
use crate::parts::Parts;

impl<D> Parts<D> {
    // While fewer blocks are free than are wanted, the page that has been clean longest goes out of memory, and its name
    // is told.
    pub(crate) fn make_room(&mut self, blocks: u32, gone: &mut EvictedPages)
        requires kept { IsKept self.old }
        requires laws { Lawful self.old }
        requires covered { blocks ≤ self.old.arena.free + blocks_of self.old.pages self.old.clean.keys }
        requires few { blocks ≤ 256 }
        ensures parts { self.new ≡ with_room blocks self.old }
        ensures enough { blocks ≤ self.new.arena.free }
        ensures gone { gone.new ≡ names_gone blocks self.old }
    {
        gone.names.clear();
        self.clean
            .make_room(&mut self.arena, &mut self.pages, blocks, &mut gone.names);
        let count = gone.names.as_slice().len() as u64;
        self.entries = lengths::counted_all(self.entries, count);
    }
}
