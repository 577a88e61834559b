//! Laws: each is the contract of a function that does nothing.
ghost use Rattle.own_entries.specs.CallLaws.{AllCallsTell, CallsRunOn, OutsetsStay};
ghost use Rattle.own_entries.specs.HeldLaws.{LegalHoldingsAreTold, LegalLivesAsTold, LeftIsTold, OwnEntriesDecide};
ghost use Rattle.own_entries.specs.Busy.{LegalBusyPagesAreTold};
ghost use Rattle.own_entries.specs.FitLaws.{LegalHoldingsFit};
ghost use Rattle.own_entries.specs.RefusalLaws.{LegalRefusesAsTold};
ghost use Rattle.own_entries.specs.ClientLaws.{LegalEndsIdle, LegalHoldsOnlyLive, LegalIdleIsWhole};
ghost use Rattle.own_entries.specs.AboveLaws.{LegalAboveIsTold, LegalAloneUnderRoot, LegalRefusesAlone, LegalRootIsTight};

/// The entries of each call of a store change what its session holds as the call's clause says, and those of a call
/// that was refused change nothing. The entries of more calls are told one call after the other, and none of them
/// changes the length of a block, whose session it is, or whether pins show what was left in pages.
#[tactic(auto, using(crate::proofs::Calls::calls_tell, crate::proofs::Calls::calls_run_on, crate::proofs::Outsets::outsets_stay))]
pub fn law_calls()
    ensures tell { AllCallsTell }
    ensures run_on { CallsRunOn }
    ensures stay { OutsetsStay }
{}

/// After every legal history a session holds what its own entries tell, whoever else made entries: its query's
/// tracker and its clients' with their charges, pages with the bytes last left in them, buffers, and free slots.
pub fn law_held()
    ensures { LegalHoldingsAreTold }
{}

/// What a pool has for a session is a function of the session's own entries and the length of a block, whatever
/// others do.
pub fn law_decides()
    ensures { OwnEntriesDecide }
{}

/// A session is live exactly while its own entries say so.
pub fn law_lives()
    ensures { LegalLivesAsTold }
{}

/// What is left in a page that isn't pinned is what the session's last unpin left, in any list of entries.
pub fn law_left()
    ensures { LeftIsTold }
{}

/// Which pages a session is loading, or writing itself, is told by its own entries.
pub fn law_busy()
    ensures { LegalBusyPagesAreTold }
{}

/// What a session holds fits its own limits.
pub fn law_fits()
    ensures { LegalHoldingsFit }
{}

/// A pool refuses a session what the session's own entries tell: a client's growth by the client's limit, then by the
/// query's, and then by the root's; a move to another client by that one's limit; and an unpin for want of slots.
pub fn law_refusals()
    ensures { LegalRefusesAsTold }
{}

/// A number of a tracker, a page or a buffer that the pool doesn't have is new to the session.
pub fn law_fresh()
    ensures { LegalHoldsOnlyLive }
{}

/// A client without pages and loans has its whole reservation unused, and may end, by two entries. A query without
/// clients has its whole reservation as room.
pub fn law_ends()
    ensures whole { LegalIdleIsWhole }
    ensures ends { LegalEndsIdle }
{}

/// The root's reservation is the sum of its children's. So what is above the query of a session that had all memory
/// above it when it was opened is the memory that the query hasn't reserved. Where one maker alone made a history, its
/// query is the root's one child, and its clients' growths are refused exactly as that room says.
pub fn law_tops()
    ensures above { LegalAboveIsTold }
    ensures tight { LegalRootIsTight }
    ensures alone { LegalAloneUnderRoot }
    ensures refused { LegalRefusesAlone }
{}
