//! What is live in a pool that a trace tells of.

mod asking;
mod closing;
mod coming;
mod creating;
mod ending;
mod entering;
mod failing;
mod growing;
mod leaving;
mod looking;
mod moving;
mod pinning;
mod refusing;
mod reserving;
mod rooms;
mod unpinning;
mod waiting;
mod writing;

ghost use Rattle.std.specs.Prelude.{◌≡◌, ◌<◌, [], IfOk, true};

use crate::opened::Opened;
use crate::queue::Queue;
use crate::rows::{Asked, BufferRow, Load, PageRow, SessionRow, TrackerRow, Under};
use crate::table::Table;
use pool_model::{Bare, FIRST_WRITER, MAX_SESSIONS, MAX_WRITERS, Skeleton};
use std::alloc::{AllocError, Global};

/// What is live after the entries so far, with running sums. Trackers, sessions, clients and buffers have their numbers
/// as keys, pages their names.
#[derive(Drop)]
pub struct Follower {
    alloc: Global,
    block_len: u32,
    /// The bytes that no page and no buffer has.
    free: u64,
    trackers: Table<TrackerRow>,
    unders: Table<Under>,
    sessions: Table<SessionRow>,
    /// For each session that has made a call what failed since the last one.
    asked: Table<Asked>,
    pages: Table<PageRow>,
    buffers: Table<BufferRow>,
    loads: Table<Load>,
    /// For each session the slots in use.
    lent: Table<u64>,
    /// For each client its dirty pages.
    dirty: Table<Queue>,
    clean: Queue,
    /// For each page that waits the stamp under which it does.
    stamps: Table<u64>,
    next_name: u64,
    /// How many entries were followed.
    entries: u64,
}

impl Follower {
    ghost use Rattle.pool_model.specs.State.{Opening};
    ghost use Rattle.pool_model.specs.Makers.{IsWriter};
    ghost use Rattle.trace_follow.specs.Following.{OpensWith, StandsFor, Judges, Follows};
    ghost use Rattle.trace_follow.specs.Beginning.{Begins};
    ghost use Rattle.trace_follow.specs.Judging.{made, Answers};

    /// Before the first entry.
    ///
    /// # Errors
    ///
    /// There was no memory.
    pub fn open(alloc: Global, opened: &Opened) -> Result<Follower, AllocError>
        ensures { IfOk result (λ follower. (o : Opening) → OpensWith opened.now o → StandsFor follower o []) }
    {
        Follower::beginning(alloc, opened)
    }

    fn beginning(alloc: Global, opened: &Opened) -> Result<Follower, AllocError>
        ensures { IfOk result (λ follower. Begins follower opened.now) }
    {
        let memory = u64::from(opened.blocks) * u64::from(opened.block_len);
        let root = TrackerRow {
            parent: None,
            depth: 0,
            limit: memory,
            reservation: 0,
        };
        let mut trackers = Table::new(alloc);
        trackers.put(0, root)?;
        Ok(Follower {
            alloc,
            block_len: opened.block_len,
            free: memory,
            trackers,
            unders: Table::new(alloc),
            sessions: Table::new(alloc),
            asked: Table::new(alloc),
            pages: Table::new(alloc),
            buffers: Table::new(alloc),
            loads: Table::new(alloc),
            lent: Table::new(alloc),
            dirty: Table::new(alloc),
            clean: Queue::new(alloc),
            stamps: Table::new(alloc),
            next_name: opened.first_name,
            entries: 0,
        })
    }

    /// Whether some entry with this skeleton may follow. If so it is counted, and the follower stands for the longer history;
    /// if not, or after an error, it stands for none.
    ///
    /// # Errors
    ///
    /// There was no memory, or a count would pass the greatest u64.
    pub fn follow(&mut self, k: &Skeleton) -> Result<bool, AllocError>
        ensures judges { IfOk result (Judges self.old k.now) }
        ensures follows { IfOk result (λ may. may ≡ true → Follows self.old self.new k.now) }
    {
        if k.maker < MAX_SESSIONS && !k.writer {
            return self.follow_session(k.maker, &k.event);
        }
        if k.writer && k.maker >= FIRST_WRITER && k.maker < FIRST_WRITER + MAX_WRITERS {
            return self.follow_writer(k.maker, &k.event);
        }
        Ok(false)
    }

    fn follow_session(&mut self, maker: u32, event: &Bare) -> Result<bool, AllocError>
        requires { maker < 240 }
        ensures { Answers self.old self.new (made maker event.now) result }
    {
        match event {
            Bare::Ask => self.ask(maker),
            Bare::AddTracker {
                tracker,
                parent,
                limit,
                quota: Some(quota),
            } => self.open_session(maker, tracker.number(), parent.number(), *limit, *quota),
            Bare::AddTracker {
                tracker,
                parent,
                limit,
                quota: None,
            } => self.add_client(maker, tracker.number(), parent.number(), *limit),
            Bare::CloseTracker { tracker } => self.close_tracker(maker, tracker.number()),
            Bare::Increase { tracker, bytes } => self.increase(maker, tracker.number(), *bytes),
            Bare::IncreaseToFit { tracker, bytes } => {
                self.increase_to_fit(maker, tracker.number(), *bytes)
            }
            Bare::Decrease { tracker, bytes } => self.decrease(maker, tracker.number(), *bytes),
            Bare::MoveReservation { from, to, bytes } => {
                self.move_reservation(maker, from.number(), to.number(), *bytes)
            }
            Bare::Create {
                page,
                client,
                blocks,
            } => self.create(maker, *page, client.number(), *blocks),
            Bare::PinHere { page } => self.pin_here(maker, *page),
            Bare::PinLoad { page } => self.pin_load(maker, *page),
            Bare::ReadOk { page } => self.read_ok(maker, *page),
            Bare::ReadFailed { page } => self.read_failed(maker, *page),
            Bare::ReadStale { wanted, found } => self.read_stale(maker, *wanted, *found),
            Bare::PinAgain { page } => self.pin_again(maker, *page),
            Bare::UnpinOnce { page } => self.unpin_once(maker, *page),
            Bare::Unpin { page } => self.unpin(maker, *page),
            Bare::UnpinRefused { page } => self.unpin_refused(maker, *page),
            Bare::Refused { call, entry } => self.refused(maker, call, *entry),
            Bare::Destroy { page } => self.destroy(maker, *page),
            Bare::Alloc {
                buffer,
                client,
                blocks,
            } => self.alloc(maker, *buffer, client.number(), *blocks),
            Bare::Extract { page, buffer } => self.extract(maker, *page, *buffer),
            Bare::Free { buffer } => self.free_buffer(maker, *buffer),
            Bare::MoveBuffer { buffer, to } => self.move_buffer(maker, *buffer, to.number()),
            Bare::StartWrite { page } => self.start_write(maker, *page),
            Bare::WriteOk { page } => self.write_ok(maker, *page),
            Bare::WriteFailed { page } => self.write_failed(maker, *page),
            Bare::Evict { page } => self.evict(maker, *page),
        }
    }

    fn follow_writer(&mut self, maker: u32, event: &Bare) -> Result<bool, AllocError>
        requires { IsWriter maker }
        ensures { Answers self.old self.new (made maker event.now) result }
    {
        match event {
            Bare::StartWrite { page } => self.start_write(maker, *page),
            Bare::WriteOk { page } => self.write_ok(maker, *page),
            Bare::WriteFailed { page } => self.write_failed(maker, *page),
            _ => Ok(false),
        }
    }
}
