//! The tree of reservations.
ghost use Rattle.std.specs.Prelude.{◌≡◌, ◌≢◌, ◌↔◌, ◌+◌, ◌-◌, ◌≤◌, ◌<◌, ℕ, Some, None, IfOk, IfErr, OnErr, IsErr, IsTrue};
ghost use Rattle.std.specs.FinMap.{get, len};
ghost use Rattle.reservation_tree.specs.Tree.{charge_of, opened, set_charge, with_new, without};
ghost use Rattle.reservation_tree.specs.Tracker.{IsLive, AreBelow, IsTree, FitsTree, HasNoChild, reservation_of, limit_of, children_of, unused, room_of, tracker_at};
ghost use Rattle.reservation_tree.specs.Change.{raise, lower};

use crate::errors::{Memory, PoolErr};
use crate::row::{self, Row};
use crate::tracker_id::TrackerId;
use slab::Slab;
use std::alloc::Global;
use std::marker::Model;

/// How many trackers may be live, the root among them. Their numbers are below it.
pub const MAX_TRACKERS: u32 = 4096;

/// A tree of trackers, each with a limit and a reservation in bytes.
#[derive(Drop)]
pub struct Tree {
    rows: Slab<Row>,
}

impl Model for Tree {
    ghost use Rattle.reservation_tree.specs.Tree.{TreeState, state_code};

    ghost Value = { TreeState };

    ghost coded = { state_code };

    ghost use Rattle.reservation_tree.specs.Rows.{state_in, IsSound};

    ghost view = { λ tree. state_in tree.rows };

    ghost invariant = { λ tree. IsSound tree.rows };
}

impl Tree {
    ghost use Rattle.reservation_tree.specs.Rows.{IsRowOf};

    /// The tree of a root with this limit, its reservation 0, and room for `MAX_TRACKERS` trackers.
    ///
    /// It is the one call that takes memory.
    ///
    /// # Errors
    ///
    /// `Memory`: there was no memory for the table, or it came in a size that isn't the one asked for.
    pub fn open(alloc: Global, limit: u64) -> Result<Tree, Memory>
        ensures { IfOk result (λ tree. tree ≡ opened limit) }
    {
        let mut rows = Slab::with_capacity(alloc, MAX_TRACKERS as usize)?;
        // A key is below the capacity, so it is a tracker's number where the two are equal.
        if rows.capacity() != MAX_TRACKERS as usize {
            return Err(Memory);
        }
        rows.insert_reserved(Row::new(None, 0, limit));
        Ok(Tree { rows })
    }

    /// The root.
    #[inline]
    pub fn root(&self) -> TrackerId
        ensures number { result ≡ 0 }
        ensures live { IsLive self.now.trackers result }
    {
        let _rows = &self.rows;
        TrackerId::of(0)
    }

    /// Whether the tracker is live.
    #[inline]
    pub fn is_live(&self, t: TrackerId) -> bool
        ensures { IsTrue result ↔ IsLive self.now.trackers t }
    {
        self.rows.contains(t.key())
    }

    /// A new tracker under `parent`, with this limit and the reservation 0. Its number is below `MAX_TRACKERS`.
    ///
    /// # Errors
    ///
    /// `TooManyTrackers`, with 4096: `MAX_TRACKERS` trackers are live, the root among them. Nothing changed.
    pub fn add_child(&mut self, parent: TrackerId, limit: u64) -> Result<TrackerId, PoolErr>
        requires { IsLive self.old.trackers parent }
        ensures ok { IfOk result (λ t. self.new ≡ with_new t parent limit self.old) }
        ensures fresh { IfOk result (λ t. get self.old.trackers t ≡ None) }
        ensures number { IfOk result (λ t. t < 4096) }

        // It is refused exactly where as many trackers as there may be are live.
        ensures refused { IsErr result ↔ (len self.old.trackers ≡ 4096) }
        ensures cause { IfErr result (λ e. e ≡ PoolErr.TooManyTrackers 4096) }
        ensures err { OnErr result (self.new ≡ self.old) }
    {
        let depth = self.row(parent).depth + 1;
        if self.rows.len() >= MAX_TRACKERS as usize {
            return Err(PoolErr::TooManyTrackers {
                count: MAX_TRACKERS,
            });
        }
        let key = self
            .rows
            .insert_reserved(Row::new(Some(parent), depth, limit));
        Ok(TrackerId::of(key as u32))
    }

    /// Ends a tracker that isn't the root, has the reservation 0 and no child. Its number may come again.
    pub fn close(&mut self, t: TrackerId)
        requires live { IsLive self.old.trackers t }
        requires not_root { t ≢ 0 }
        requires empty { reservation_of self.old.trackers t ≡ 0 }
        requires no_child { HasNoChild self.old.trackers t }
        ensures { self.new ≡ without t self.old }
    {
        self.rows.remove(t.key());
    }

    /// Charges bytes that the tracker has unused.
    #[inline]
    pub fn charge(&mut self, t: TrackerId, bytes: u64)
        requires live { IsLive self.old.trackers t }
        requires unused { bytes ≤ unused (charge_of self.old) self.old.trackers t }
        ensures { self.new ≡ set_charge (charge_of self.old t + bytes) t self.old }
    {
        let used = self.row(t).used;
        row::set_used(&mut self.rows, t, used + bytes);
    }

    /// Gives back bytes that were charged to the tracker.
    #[inline]
    pub fn release(&mut self, t: TrackerId, bytes: u64)
        requires live { IsLive self.old.trackers t }
        requires used { bytes ≤ charge_of self.old t }
        ensures { self.new ≡ set_charge (charge_of self.old t - bytes) t self.old }
    {
        let used = self.row(t).used;
        row::set_used(&mut self.rows, t, used - bytes);
    }

    /// The bytes that are set aside for the tracker.
    #[inline]
    pub fn reservation(&self, t: TrackerId) -> u64
        requires { IsLive self.now.trackers t }
        ensures { result ≡ reservation_of self.now.trackers t }
    {
        self.row(t).reservation
    }

    /// The bytes charged to the tracker and not released.
    #[inline]
    pub fn used(&self, t: TrackerId) -> u64
        requires { IsLive self.now.trackers t }
        ensures { result ≡ charge_of self.now t }
    {
        self.row(t).used
    }

    /// The reservations of the trackers right under this one, together.
    #[inline]
    pub fn children(&self, t: TrackerId) -> u64
        requires { IsLive self.now.trackers t }
        ensures { result ≡ children_of self.now.trackers t }
    {
        self.row(t).children
    }

    /// The bytes of the reservation that are neither used nor a child's.
    #[inline]
    pub fn unused(&self, t: TrackerId) -> u64
        requires { IsLive self.now.trackers t }
        ensures { result ≡ unused (charge_of self.now) self.now.trackers t }
    {
        let row = self.row(t);
        row.reservation - row.used - row.children
    }

    /// What the reservation may rise to.
    #[inline]
    pub fn limit(&self, t: TrackerId) -> u64
        requires { IsLive self.now.trackers t }
        ensures { result ≡ limit_of self.now.trackers t }
    {
        self.row(t).limit
    }

    /// What holds of each tree: it hangs together, each tracker fits, no more than so many are live, and each
    /// number is below `MAX_TRACKERS`.
    pub fn law_fits(&self)
        ensures tree { IsTree self.now.trackers }
        ensures fits { FitsTree (charge_of self.now) self.now.trackers }
        ensures few { len self.now.trackers ≤ 4096 }
        ensures numbers { AreBelow 4096 self.now.trackers }
    {
        let _rows = &self.rows;
    }

    // The row of a live tracker.
    #[inline]
    pub(crate) fn row(&self, t: TrackerId) -> Row
        requires { IsLive self.now.trackers t }
        ensures { IsRowOf self.now t result }
    {
        self.rows[t.key()]
    }

    // The tracker's reservation rises. Its parent has the bytes unused.
    #[inline]
    pub(crate) fn raise(&mut self, t: TrackerId, bytes: u64)
        requires live { IsLive self.old.trackers t }
        requires room { bytes ≤ room_of self.old.trackers t }
        requires spare { (parent : ℕ) → (tracker_at self.old.trackers t).parent ≡ Some parent → bytes ≤ unused (charge_of self.old) self.old.trackers parent }
        ensures { self.new ≡ record self.old { trackers = raise bytes t self.old.trackers } }
    {
        let row = self.row(t);
        match row.parent {
            Some(parent) => {
                let children = self.row(parent).children;
                row::set_reservation(&mut self.rows, t, row.reservation + bytes);
                row::set_children(&mut self.rows, parent, children + bytes);
            }
            None => row::set_reservation(&mut self.rows, t, row.reservation + bytes),
        }
    }

    // The tracker's reservation falls by bytes that it has unused.
    #[inline]
    pub(crate) fn lower(&mut self, t: TrackerId, bytes: u64)
        requires live { IsLive self.old.trackers t }
        requires spare { bytes ≤ unused (charge_of self.old) self.old.trackers t }
        ensures { self.new ≡ record self.old { trackers = lower bytes t self.old.trackers } }
    {
        let row = self.row(t);
        match row.parent {
            Some(parent) => {
                let children = self.row(parent).children;
                row::set_reservation(&mut self.rows, t, row.reservation - bytes);
                row::set_children(&mut self.rows, parent, children - bytes);
            }
            None => row::set_reservation(&mut self.rows, t, row.reservation - bytes),
        }
    }
}
