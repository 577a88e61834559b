//! Pages are pinned once less.
ghost use Rattle.std.specs.Prelude.{◌≡◌, ◌≤◌, [], ◌∷◌};
ghost use Rattle.pool_model.specs.declared.event.Event.TheVariants as event;
ghost use Rattle.store_api.specs.Holdings.{page_of};
ghost use Rattle.store_api.specs.Conditions.{IsPage};
ghost use Rattle.session_calls.specs.Ready.{IsReady};
ghost use Rattle.session_calls.specs.Acting.{ActsThese, held_by};

use crate::entering::enter;
use crate::hand::Hand;
use crate::opened::Opened;
use outside::Slot;
use pool_model::Event;
use store_api::Page;

impl<D: Slot + Drop> Hand<D> {
    /// Ends one of several pins of a page, and returns its charge. The page stays pinned.
    pub fn unpin_once<O: Opened>(&mut self, p: &Page)
        requires ready { IsReady D.Slot O.opening O.outset self.old }
        requires page { IsPage p.now (held_by O.opening O.outset self.old) }
        requires pinned { 2 ≤ (page_of p.now.name (held_by O.opening O.outset self.old)).pins }
        ensures acts { ActsThese (event.UnpinOnce p.now.name ∷ []) self.old self.new }
        ensures ready { IsReady D.Slot O.opening O.outset self.new }
    {
        self.state.unpin_once(p);
        let page = p.name();
        enter(&mut self.trail, self.session, Event::UnpinOnce { page });
    }
}
