//! Pages go.
ghost use Rattle.std.specs.Prelude.{◌∷◌, ◌≡◌, ◌<◌, ℕ, [], None, Some, length, slice_get};
ghost use Rattle.pool_model.specs.declared.event.Event.TheVariants as event;
ghost use Rattle.store_api.specs.Tokens.{PageToken};
ghost use Rattle.store_api.specs.Changes.{after_destroy};
ghost use Rattle.store_api.specs.Entries.{MadeThese};
ghost use Rattle.store_api.specs.Signs.{Grows};
ghost use Rattle.tuple_stream.specs.Streams.{IsShaped};
ghost use Rattle.tuple_stream.specs.Touches.{Touches};
ghost use Rattle.tuple_stream.specs.Steps.{scene};
ghost use Rattle.tuple_stream.specs.Spending.{Empties};
ghost use Rattle.tuple_stream.specs.Ending.{HasPages, first_buf, behind_first, without_first, with_next};

use crate::stream::{Open, Stream};
use block_arena::Buf;
use store_api::Store;

impl Stream {
    /// Destroys all pages, and with them the rows. This takes no memory.
    pub fn drop_all<St: Store>(&mut self, store: &mut St)
        requires { (t : ℕ) × IsShaped t self.old (St.holds store.old) }
        ensures value { self.new ≡ record { page_blocks = self.old.page_blocks; pages = []; pinned = None; spent = 0; used = 0; count = 0 } }
        ensures went { (t : ℕ) → IsShaped t self.old (St.holds store.old) → Empties t (scene self.old (St.holds store.old) (St.signs store.old)) (scene self.new (St.holds store.new) (St.signs store.new)) }
    {
        while !self.pages.is_empty() {
            self.drop_first(store);
        }
        self.spent = 0;
        self.used = 0;
        self.count = 0;
    }

    // Destroys the first page, with its buffer where it is pinned.
    fn drop_first<St: Store>(&mut self, store: &mut St)
        requires some { 0 < length self.old.pages }
        requires pages { (t : ℕ) × HasPages t self.old (St.holds store.old) }
        ensures value { self.new ≡ without_first self.old }
        ensures holds { (p : PageToken) → slice_get self.old.pages 0 ≡ Some p → St.holds store.new ≡ after_destroy p.name (St.holds store.old) }
        ensures pages { (t : ℕ) → HasPages t self.old (St.holds store.old) → HasPages t self.new (St.holds store.new) }
        ensures touches { (t : ℕ) → HasPages t self.old (St.holds store.old) → Touches t self.old self.new (St.holds store.old) (St.holds store.new) }
        ensures entries { (p : PageToken) → slice_get self.old.pages 0 ≡ Some p → MadeThese (St.holds store.old).session (event.Destroy p.name ∷ []) (St.signs store.old) (St.signs store.new) }
        ensures grows { Grows (St.signs store.old) (St.signs store.new) }
    {
        let buf = self.leave_first();
        let Some(page) = self.pages.pop_front() else {
            unreachable!()
        };
        store.destroy(page, buf);
    }

    // Destroys the first page, of which all rows are spent.
    #[inline(never)]
    pub(crate) fn end_first<St: Store>(&mut self, store: &mut St)
        requires some { 0 < length self.old.pages }
        requires pages { (t : ℕ) × HasPages t self.old (St.holds store.old) }
        ensures value { self.new ≡ with_next self.old }
        ensures holds { (p : PageToken) → slice_get self.old.pages 0 ≡ Some p → St.holds store.new ≡ after_destroy p.name (St.holds store.old) }
        ensures touches { (t : ℕ) → HasPages t self.old (St.holds store.old) → Touches t self.old self.new (St.holds store.old) (St.holds store.new) }
        ensures entries { (p : PageToken) → slice_get self.old.pages 0 ≡ Some p → MadeThese (St.holds store.old).session (event.Destroy p.name ∷ []) (St.signs store.old) (St.signs store.new) }
        ensures grows { Grows (St.signs store.old) (St.signs store.new) }
    {
        self.drop_first(store);
        self.spent = 0;
        if self.pages.is_empty() {
            self.used = 0;
        }
    }

    // The buffer of the first page, where that one is pinned. Another pinned page comes one place nearer.
    fn leave_first(&mut self) -> Option<Buf>
        ensures buffer { result ≡ first_buf self.old.pinned }
        ensures value { self.new ≡ record self.old { pinned = behind_first self.old.pinned } }
    {
        let Some(Open { place, buf }) = self.pinned.take() else {
            return None;
        };
        if place == 0 {
            return Some(buf);
        }
        self.set_pinned(Open {
            place: place - 1,
            buf,
        });
        None
    }
}
