//! The row of one tracker.
ghost use Rattle.std.specs.Prelude.{◌≡◌};
ghost use Rattle.slab.specs.Slab.{ContainsKey};
ghost use Rattle.reservation_tree.specs.Rows.{Writes, with_reservation, with_children, with_used};

use crate::tracker_id::TrackerId;
use slab::Slab;

/// A tracker and its running numbers, in bytes.
#[derive(Clone, Copy)]
pub struct Row {
    pub parent: Option<TrackerId>,
    /// How many trackers stand above.
    pub depth: u32,
    pub limit: u64,
    pub reservation: u64,
    /// What is charged and not released.
    pub used: u64,
    /// The reservations of the trackers right under this one.
    pub children: u64,
}

impl Row {
    /// A tracker that has nothing yet.
    pub fn new(parent: Option<TrackerId>, depth: u32, limit: u64) -> Row
        ensures { result ≡ record { parent = parent; depth = depth; limit = limit; reservation = 0; used = 0; children = 0 } }
    {
        Row {
            parent,
            depth,
            limit,
            reservation: 0,
            used: 0,
            children: 0,
        }
    }
}

#[inline]
pub fn set_reservation(rows: &mut Slab<Row>, t: TrackerId, bytes: u64)
    requires { ContainsKey rows.old t }
    ensures { Writes rows.old rows.new t (with_reservation bytes) }
{
    rows[t.key()].reservation = bytes;
}

#[inline]
pub fn set_children(rows: &mut Slab<Row>, t: TrackerId, bytes: u64)
    requires { ContainsKey rows.old t }
    ensures { Writes rows.old rows.new t (with_children bytes) }
{
    rows[t.key()].children = bytes;
}

#[inline]
pub fn set_used(rows: &mut Slab<Row>, t: TrackerId, bytes: u64)
    requires { ContainsKey rows.old t }
    ensures { Writes rows.old rows.new t (with_used bytes) }
{
    rows[t.key()].used = bytes;
}
