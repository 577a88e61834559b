//! A pool opens and closes.
ghost use Rattle.std.specs.Prelude.{◌≡◌, ◌≤◌, ◌+◌, IfOk, IfErr, IfSome, vec_len};
ghost use Rattle.buffer_transfer.specs.Buffers.{opened as book_opened};
ghost use Rattle.clean_evict.specs.Cleans.{empty as none_clean};
ghost use Rattle.client_lists.specs.Clients.{fresh};
ghost use Rattle.page_table.specs.Pages.{opened as table_opened};
ghost use Rattle.pool_model.specs.Bytes.{bytes_of};
ghost use Rattle.reservation_tree.specs.Tree.{opened as tree_opened};
ghost use Rattle.session_table.specs.Seats.{vacant};
ghost use Rattle.pin_core.specs.calls.Setup.{OpensWith};

use crate::conf::PoolConf;
use crate::kept::Kept;
use crate::lengths;
use crate::parts::Parts;
use crate::pool::PoolState;
use block_arena::Arena;
use buffer_transfer::BufferBook;
use clean_evict::CleanList;
use client_lists::ClientLists;
use outside::Slot;
use page_table::PageTable;
use reservation_tree::{MAX_TRACKERS, Memory, Tree};
use scratch_dev::SlotPool;
use session_table::{MAX_SESSIONS, SessionTable};
use std::alloc::Global;

// All of a pool but its slots.
#[derive(Drop)]
struct Rooms<D> {
    tree: Tree,
    pages: PageTable<Kept<D>>,
    lists: ClientLists,
    clean: CleanList,
    arena: Arena,
    buffers: BufferBook,
    seats: SessionTable,
}

impl<D: Slot + Drop> PoolState<D> {
    ghost use Rattle.std.specs.Prelude.{ℕ, [], length, None};
    ghost use Rattle.std.specs.FinMap.{get};
    ghost use Rattle.std.specs.List.{sum_by};
    ghost use Rattle.pool_model.specs.State.{Opening};
    ghost use Rattle.pin_core.specs.StateOf.{state_of};
    ghost use Rattle.pin_core.specs.Standing.{StandsFor, slots_home};
    ghost use Rattle.pin_core.specs.calls.Setup.{IsOpeningOf};
    ghost use Rattle.pin_core.specs.calls.Opening.{spare_of};

    /// A pool with these numbers and slots, without sessions. Takes all the memory that it will ever use, but for
    /// what its callers bring.
    ///
    /// # Errors
    ///
    /// `Memory`: there was not so much. The slots come back as they were.
    pub fn open(
        alloc: Global,
        conf: &PoolConf,
        slots: Vec<D>,
    ) -> Result<PoolState<D>, (Vec<D>, Memory)>
        requires conf { OpensWith conf.now }
        requires slots { vec_len slots ≤ 1048576 }
        ensures stands { IfOk result (λ pool. (o : Opening) → IsOpeningOf conf.now (length slots.items) o → StandsFor D.Slot o [] pool) }
        ensures slots { IfOk result (λ pool. (measure : D → ℕ) → slots_home measure pool ≡ sum_by measure slots.items) }
        ensures spare { IfOk result (λ pool. spare_of pool ≡ length slots.items) }
        ensures err { IfErr result (λ e. e.0.items ≡ slots.items) }
    {
        let count = slots.len() as u32;
        let Some(rooms) = Rooms::open(alloc, conf, count) else {
            return Err((slots, Memory));
        };
        let slots = match SlotPool::open(alloc, slots, MAX_SESSIONS) {
            Ok(slots) => slots,
            Err(refused) => return Err(refused),
        };
        slots.law_counted();
        Ok(PoolState {
            parts: rooms.with(conf.block_len, conf.profile == 2, slots),
        })
    }

    /// Ends a pool without sessions, and gives back its slots.
    pub fn close(self) -> Vec<D>
        requires ended { (s : ℕ) → get (state_of self).sessions s ≡ None }
        ensures count { vec_len result ≡ spare_of self }
        ensures slots { (measure : D → ℕ) → sum_by measure result.items ≡ slots_home measure self }
    {
        self.parts.laws();
        let PoolState { parts } = self;
        parts.into_slots().close()
    }
}

impl<D: Drop> Rooms<D> {
    fn open(alloc: Global, conf: &PoolConf, slots: u32) -> Option<Rooms<D>>
        requires conf { OpensWith conf.now }
        requires slots { slots ≤ 1048576 }
        ensures tree { IfSome result (λ r. r.tree ≡ tree_opened (bytes_of conf.now.block_len conf.now.blocks)) }
        ensures pages { IfSome result (λ r. r.pages ≡ table_opened (conf.now.blocks + slots) conf.now.first_name) }
        ensures lists { IfSome result (λ r. r.lists ≡ fresh 4096 (conf.now.blocks + slots)) }
        ensures clean { IfSome result (λ r. r.clean ≡ none_clean (conf.now.blocks + slots)) }
        ensures arena { IfSome result (λ r. r.arena ≡ record { block_len = conf.now.block_len; blocks = conf.now.blocks; free = conf.now.blocks }) }
        ensures buffers { IfSome result (λ r. r.buffers ≡ book_opened conf.now.blocks) }
        ensures seats { IfSome result (λ r. r.seats ≡ vacant) }
    {
        let room = conf.blocks + slots;
        let Ok(tree) = Tree::open(alloc, lengths::bytes(conf.block_len, conf.blocks)) else {
            return None;
        };
        let Ok(pages) = PageTable::with(alloc, room, conf.first_name) else {
            return None;
        };
        let Ok(lists) = ClientLists::with(alloc, MAX_TRACKERS, room) else {
            return None;
        };
        let Ok(clean) = CleanList::with(alloc, room) else {
            return None;
        };
        let Ok(arena) = Arena::open(alloc, conf.blocks, conf.block_len) else {
            return None;
        };
        let Ok(buffers) = BufferBook::with(alloc, conf.blocks) else {
            return None;
        };
        let Ok(seats) = SessionTable::with(alloc) else {
            return None;
        };
        Some(Rooms {
            tree,
            pages,
            lists,
            clean,
            arena,
            buffers,
            seats,
        })
    }

    fn with(self, block_len: u32, marked: bool, slots: SlotPool<D>) -> Parts<D>
        ensures { result ≡ record { block_len = block_len; marked = marked; tree = self.tree; pages = self.pages; lists = self.lists; clean = self.clean; arena = self.arena; slots = slots; buffers = self.buffers; seats = self.seats; entries = 0 } }
    {
        let Rooms {
            tree,
            pages,
            lists,
            clean,
            arena,
            buffers,
            seats,
        } = self;
        Parts {
            block_len,
            marked,
            tree,
            pages,
            lists,
            clean,
            arena,
            slots,
            buffers,
            seats,
            entries: 0,
        }
    }
}

impl<D: Drop> Parts<D> {
    fn into_slots(self) -> SlotPool<D>
        ensures { result ≡ self.slots }
    {
        let Parts { slots, .. } = self;
        slots
    }
}
