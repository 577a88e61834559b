//! Which page is pinned.
ghost use Rattle.std.specs.Prelude.{◌≡◌, ◌↔◌, ◌<◌, ◌≤◌, true, ℕ, None, Some, length, IsOk, IfErr, OnOk};
ghost use Rattle.store_api.specs.Holdings.{unused_of};
ghost use Rattle.tuple_stream.specs.Streamed.{len_in};
ghost use Rattle.tuple_stream.specs.Streams.{HasPageRoom, IsOpenAt, IsShaped};
ghost use Rattle.tuple_stream.specs.Touches.{TellsRows};
ghost use Rattle.tuple_stream.specs.Steps.{CameOf, IsFullOnly, Opens, Rests, scene};

use crate::stream::{Open, Stream};
use reservation_tree::PoolErr;
use store_api::Store;

impl Stream {
    /// Lets the pinned page rest, where there is one. This takes no memory.
    ///
    /// # Errors
    ///
    /// `ScratchFull`: the page has no slots, and too few of the quota are free. It stays pinned.
    #[inline(never)]
    pub fn rest<St: Store>(&mut self, store: &mut St) -> Result<(), PoolErr>
        requires { (t : ℕ) × IsShaped t self.old (St.holds store.old) }
        ensures ok { OnOk result (self.new.pinned ≡ None) }
        ensures told { OnOk result (TellsRows self.new (St.holds store.new) (St.signs store.new).trail) }
        ensures same { self.new ≡ record self.old { pinned = self.new.pinned } }
        ensures went { (t : ℕ) → IsShaped t self.old (St.holds store.old) → Rests t (scene self.old (St.holds store.old) (St.signs store.old)) (scene self.new (St.holds store.new) (St.signs store.new)) }
        ensures full { IfErr result IsFullOnly }
        ensures cause { IfErr result (CameOf (scene self.old (St.holds store.old) (St.signs store.old)) (scene self.new (St.holds store.new) (St.signs store.new))) }
        ensures err { IfErr result (λ _. (self.new ≡ self.old) × (St.holds store.new ≡ St.holds store.old)) }
    {
        let Some(Open { place, buf }) = self.pinned.take() else {
            return Ok(());
        };
        match store.unpin(&self.pages[place], buf) {
            Ok(()) => Ok(()),
            Err((buf, cause)) => {
                self.set_pinned(Open { place, buf });
                Err(cause)
            }
        }
    }

    // Pins the page at this place, and lets another one rest.
    #[inline(always)]
    pub(crate) fn open_at<St: Store>(&mut self, store: &mut St, place: usize) -> Result<(), PoolErr>
        requires stream { (t : ℕ) × IsShaped t self.old (St.holds store.old) × HasPageRoom t self.old (St.holds store.old) }
        requires inside { place < length self.old.pages }
        ensures ok { OnOk result (IsOpenAt place self.new) }
        ensures still { IsOpenAt place self.old → IsOk result × (St.holds store.new ≡ St.holds store.old) × (St.signs store.new ≡ St.signs store.old) }
        ensures same { self.new ≡ record self.old { pinned = self.new.pinned } }
        ensures went { (t : ℕ) → IsShaped t self.old (St.holds store.old) → Opens place t (scene self.old (St.holds store.old) (St.signs store.old)) (scene self.new (St.holds store.new) (St.signs store.new)) }
        ensures cause { IfErr result (CameOf (scene self.old (St.holds store.old) (St.signs store.old)) (scene self.new (St.holds store.new) (St.signs store.new))) }
    {
        if self.is_open_at(place) {
            return Ok(());
        }
        self.rest(store)?;
        self.pin_at(store, place)
    }

    // Whether the page at this place is the one that is pinned.
    #[inline]
    fn is_open_at(&self, place: usize) -> bool
        ensures { (result ≡ true) ↔ IsOpenAt place self.now }
    {
        match &self.pinned {
            Some(page) => page.place == place,
            None => false,
        }
    }

    // Pins the page at this place, where none is pinned.
    #[inline(never)]
    fn pin_at<St: Store>(&mut self, store: &mut St, place: usize) -> Result<(), PoolErr>
        requires stream { (t : ℕ) × IsShaped t self.old (St.holds store.old) × (len_in self.old (St.holds store.old) ≤ unused_of t (St.holds store.old)) }
        requires closed { self.old.pinned ≡ None }
        requires inside { place < length self.old.pages }
        ensures ok { OnOk result (IsOpenAt place self.new) }
        ensures same { self.new ≡ record self.old { pinned = self.new.pinned } }
        ensures went { (t : ℕ) → IsShaped t self.old (St.holds store.old) → Opens place t (scene self.old (St.holds store.old) (St.signs store.old)) (scene self.new (St.holds store.new) (St.signs store.new)) }
        ensures cause { IfErr result (CameOf (scene self.old (St.holds store.old) (St.signs store.old)) (scene self.new (St.holds store.new) (St.signs store.new))) }
    {
        let buf = store.pin(&self.pages[place])?;
        self.set_pinned(Open { place, buf });
        Ok(())
    }

    // Nothing is pinned before.
    pub(crate) fn set_pinned(&mut self, page: Open)
        requires { self.old.pinned ≡ None }
        ensures { self.new ≡ record self.old { pinned = Some page } }
    {
        match self.pinned.replace(page) {
            None => (),
            Some(_) => unreachable!(),
        }
    }
}
