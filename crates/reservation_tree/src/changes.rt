//! How reservations rise, fall and move along the tree.
ghost use Rattle.std.specs.Prelude.{◌≡◌, ◌↔◌, ◌+◌, ◌≤◌, None, IsSome, IsOk, IsErr, IfErr, OnOk, OnErr};
ghost use Rattle.reservation_tree.specs.Tracker.{IsLive, depth_of, parent_of, unused};
ghost use Rattle.reservation_tree.specs.Tree.{charge_of, with_trackers};
ghost use Rattle.reservation_tree.specs.Change.{over, lacking, grow, grow_refusal, shrink, fallen, risen, risen_refusal, up, ancestor_of, move_to, move_refusal};
ghost use Rattle.reservation_tree.specs.Answer.{answer, IsFrom};

use crate::errors::PoolErr;
use crate::tracker_id::TrackerId;
use crate::tree::Tree;

impl Tree {
    /// Raises the reservation by `bytes`. Each ancestor grows by what its unused bytes don't cover of the
    /// growth below it.
    ///
    /// # Errors
    ///
    /// `NoReservation`: a limit would be passed. It names the lowest such tracker on the way to the root, the bytes by
    /// which that tracker would have had to grow, and its room: its limit less its reservation. Nothing changed.
    pub fn increase(&mut self, t: TrackerId, bytes: u64) -> Result<(), PoolErr>
        requires { IsLive self.old.trackers t }
        ensures ok { OnOk result (self.new ≡ with_trackers (grow (charge_of self.old) bytes t self.old.trackers) self.old) }

        // It is refused exactly where a limit would be passed, and names the lowest such tracker.
        ensures refused { IsErr result ↔ IsSome (grow_refusal (charge_of self.old) bytes t self.old.trackers) }
        ensures cause { IfErr result (IsFrom (grow_refusal (charge_of self.old) bytes t self.old.trackers)) }
        ensures err { OnErr result (self.new ≡ self.old) }
    {
        self.check_growth(t, bytes)?;
        self.grow(t, bytes);
        Ok(())
    }

    // Whether a growth is refused, and why.
    fn check_growth(&self, t: TrackerId, bytes: u64) -> Result<(), PoolErr>
        requires { IsLive self.now.trackers t }
        ensures { result ≡ answer (grow_refusal (charge_of self.now) bytes t self.now.trackers) }
    {
        self.law_fits();
        let mut at = t;
        let mut growth = bytes;
        'way: loop {
            self.check_room(at, growth)?;
            let Some(parent) = self.row(at).parent else {
                return Ok(());
            };
            growth = growth.saturating_sub(self.unused(parent));
            if growth == 0 {
                return Ok(());
            }
            at = parent;
        }
    }

    // Whether the tracker's own limit refuses a growth.
    #[inline]
    fn check_room(&self, t: TrackerId, bytes: u64) -> Result<(), PoolErr>
        requires { IsLive self.now.trackers t }
        ensures { result ≡ answer (over self.now.trackers bytes t) }
    {
        let row = self.row(t);
        let room = row.limit - row.reservation;
        if bytes <= room {
            Ok(())
        } else {
            Err(PoolErr::NoReservation {
                tracker: t,
                wanted: bytes,
                room,
            })
        }
    }

    // A growth that nothing refuses. From the top down, so that each tree on the way fits.
    fn grow(&mut self, t: TrackerId, bytes: u64)
        requires live { IsLive self.old.trackers t }
        requires fits { grow_refusal (charge_of self.old) bytes t self.old.trackers ≡ None }
        ensures { self.new ≡ with_trackers (grow (charge_of self.old) bytes t self.old.trackers) self.old }
    {
        self.law_fits();
        match self.row(t).parent {
            Some(parent) => {
                let growth = bytes.saturating_sub(self.unused(parent));
                if growth > 0 {
                    self.grow(parent, growth);
                }
            }
            None => {}
        }
        self.raise(t, bytes);
    }

    // How many trackers stand above.
    #[inline]
    fn depth(&self, t: TrackerId) -> u32
        requires { IsLive self.now.trackers t }
        ensures { result ≡ depth_of self.now.trackers t }
    {
        self.row(t).depth
    }

    // The tracker above, and for the root the root.
    #[inline]
    fn above(&self, t: TrackerId) -> TrackerId
        requires { IsLive self.now.trackers t }
        ensures above { result ≡ parent_of self.now.trackers t }
        ensures live { IsLive self.now.trackers result }
    {
        self.row(t).parent.unwrap_or(self.root())
    }

    /// Raises the reservation until `bytes` are unused, where so many aren't.
    ///
    /// # Errors
    ///
    /// `NoReservation`: as for [`Tree::increase`] by the bytes that are lacking. Nothing changed.
    pub fn increase_to_fit(&mut self, t: TrackerId, bytes: u64) -> Result<(), PoolErr>
        requires { IsLive self.old.trackers t }
        ensures ok { OnOk result (self.new ≡ with_trackers (grow (charge_of self.old) (lacking (charge_of self.old) bytes t self.old.trackers) t self.old.trackers) self.old) }

        // Where so many are unused already, nothing changes.
        ensures enough { bytes ≤ unused (charge_of self.old) self.old.trackers t → IsOk result × (self.new ≡ self.old) }
        ensures refused { IsErr result ↔ IsSome (grow_refusal (charge_of self.old) (lacking (charge_of self.old) bytes t self.old.trackers) t self.old.trackers) }
        ensures cause { IfErr result (IsFrom (grow_refusal (charge_of self.old) (lacking (charge_of self.old) bytes t self.old.trackers) t self.old.trackers)) }
        ensures err { OnErr result (self.new ≡ self.old) }
    {
        self.law_fits();
        let lacking = bytes.saturating_sub(self.unused(t));
        if lacking == 0 {
            return Ok(());
        }
        self.increase(t, lacking)
    }

    /// Lowers the reservation and those of all ancestors by bytes that are unused.
    pub fn decrease(&mut self, t: TrackerId, bytes: u64)
        requires live { IsLive self.old.trackers t }
        requires unused { bytes ≤ unused (charge_of self.old) self.old.trackers t }
        ensures { self.new ≡ with_trackers (shrink bytes t self.old.trackers) self.old }
    {
        let levels = self.row(t).depth + 1;
        self.fall(t, levels, bytes);
    }

    // So many trackers fall, from this one up.
    fn fall(&mut self, t: TrackerId, levels: u32, bytes: u64)
        requires live { IsLive self.old.trackers t }
        requires levels { levels ≤ depth_of self.old.trackers t + 1 }
        requires unused { bytes ≤ unused (charge_of self.old) self.old.trackers t }
        ensures { self.new ≡ with_trackers (fallen levels bytes t self.old.trackers) self.old }
    {
        let mut at = t;
        'way: for _level in 0..levels {
            self.law_fits();
            let above = self.above(at);
            self.lower(at, bytes);
            at = above;
        }
    }

    /// Moves unused bytes of reservation from one tracker to another.
    ///
    /// Those from `src` up to below the nearest common ancestor fall, and those from `dst` up to below it
    /// rise. Where both are one tracker nothing changes.
    ///
    /// # Errors
    ///
    /// `NoReservation`: the limit of a tracker that would rise would be passed. It names the lowest such tracker, `bytes`
    /// as what was wanted, and its room. Nothing changed.
    pub fn transfer(&mut self, src: TrackerId, dst: TrackerId, bytes: u64) -> Result<(), PoolErr>
        requires live { IsLive self.old.trackers src }
        requires dst_live { IsLive self.old.trackers dst }
        requires unused { bytes ≤ unused (charge_of self.old) self.old.trackers src }
        ensures ok { OnOk result (self.new ≡ with_trackers (move_to bytes src dst self.old.trackers) self.old) }
        ensures itself { src ≡ dst → IsOk result × (self.new ≡ self.old) }

        // It is refused exactly where a rising limit would be passed, and names the lowest such tracker.
        ensures refused { IsErr result ↔ IsSome (move_refusal bytes src dst self.old.trackers) }
        ensures cause { IfErr result (IsFrom (move_refusal bytes src dst self.old.trackers)) }
        ensures err { OnErr result (self.new ≡ self.old) }
    {
        self.law_fits();
        let top = self.depth(self.ancestor(src, dst));
        let falling = self.depth(src) - top;
        let rising = self.depth(dst) - top;
        self.check_rise(dst, rising, bytes)?;
        self.fall(src, falling, bytes);
        self.rise(dst, rising, bytes);
        Ok(())
    }

    // The nearest common ancestor. The deeper of two trackers goes up, until they meet.
    fn ancestor(&self, src: TrackerId, dst: TrackerId) -> TrackerId
        requires live { IsLive self.now.trackers src }
        requires dst_live { IsLive self.now.trackers dst }
        ensures value { result ≡ ancestor_of self.now.trackers src dst }
        ensures lives { IsLive self.now.trackers result }
    {
        self.law_fits();
        let mut a = src;
        let mut b = dst;
        'ways: while a != b {
            if self.row(a).depth >= self.row(b).depth {
                a = self.above(a);
            } else {
                b = self.above(b);
            }
        }
        a
    }

    // Whether a rise of so many trackers is refused, and why.
    fn check_rise(&self, t: TrackerId, levels: u32, bytes: u64) -> Result<(), PoolErr>
        requires { IsLive self.now.trackers t }
        ensures { result ≡ answer (risen_refusal levels bytes t self.now.trackers) }
    {
        let mut at = t;
        'way: for _level in 0..levels {
            self.check_room(at, bytes)?;
            at = self.above(at);
        }
        Ok(())
    }

    // A rise that nothing refuses. From the top down, so that each tree on the way fits.
    fn rise(&mut self, t: TrackerId, levels: u32, bytes: u64)
        requires live { IsLive self.old.trackers t }
        requires levels { levels ≤ depth_of self.old.trackers t }
        requires unused { bytes ≤ unused (charge_of self.old) self.old.trackers (up self.old.trackers levels t) }
        requires fits { risen_refusal levels bytes t self.old.trackers ≡ None }
        ensures { self.new ≡ with_trackers (risen levels bytes t self.old.trackers) self.old }
    {
        self.law_fits();
        if levels > 0 {
            let above = self.above(t);
            self.rise(above, levels - 1, bytes);
            self.raise(t, bytes);
        }
    }
}
