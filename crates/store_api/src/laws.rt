//! Laws of entries and changes: each is the contract of a function that does nothing.
ghost use Rattle.store_api.specs.EntryLaws.{AllEntriesTell, AllRefusalsTell, FallsUndoGrowths};
ghost use Rattle.store_api.specs.WriteLaws.{CallsWriteOwn, NamesAboveAreNew};
ghost use Rattle.store_api.specs.PinLaws.{PagesComeAndGo, PinsAreCounted};
ghost use Rattle.store_api.specs.EmitterLaws.{EmittersLeaveOthers};
ghost use Rattle.store_api.specs.HoldingLaws.{LacksAsInPool, RefusesOverLimits, SlotsComeBack};

/// After the entries of a call a pool has the page or the buffer as the call left it: pinned, with a pin more or one
/// less, evicted where it couldn't be loaded, new, or another client's. The pages that the entries write are live pages
/// of the call's client. The entries of a refusal tell whether a write failed, a read failed, or a load was stale.
#[tactic(auto, using(crate::proofs::Telling::entries_tell, crate::proofs::Writing::calls_write_own, crate::proofs::Causes::refusals_tell))]
pub fn law_entries()
    ensures tell { AllEntriesTell }
    ensures writes { CallsWriteOwn }
    ensures refusals { AllRefusalsTell }
{}

/// To give back what a client was just given leaves a store as it was, where the query has no room of its own.
pub fn law_give_back()
    ensures { FallsUndoGrowths }
{}

/// A growth is refused exactly where it would pass a limit, of the client, of the query, or of what is above and
/// gives to no other query.
pub fn law_growth()
    ensures law { RefusesOverLimits }
{}

/// The slots that a page took when it first rested are free again when it ends; and a page lacks slots exactly where
/// a pool may refuse to unpin it.
pub fn law_slots()
    ensures back { SlotsComeBack }
    ensures lacks { LacksAsInPool }
{}

/// A name above all names of a trail is the name of no page that was made in it.
#[tactic(auto, using(crate::proofs::Writing::names_above))]
pub fn law_names()
    ensures { NamesAboveAreNew }
{}

/// Each pin of a page is charged, and its charge is returned when the pin ends, or the page. A page that is made and
/// destroyed leaves a store as it was.
#[tactic(auto, using(crate::proofs::Pins::pins_are_counted, crate::proofs::Pins::pages_come_and_go))]
pub fn law_pins()
    ensures counted { PinsAreCounted }
    ensures ended { PagesComeAndGo }
{}

/// After a row of an emitter each other client has its account, its pages and its loans as before. Where the emitter
/// has no client, nothing of the store changed, and its signs neither.
#[tactic(auto, using(crate::proofs::Left::emitters_leave_others))]
pub fn law_emitters()
    ensures { EmittersLeaveOthers }
{}
