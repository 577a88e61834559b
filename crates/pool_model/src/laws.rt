//! Laws over every legal history: each is the contract of a function that does nothing.
ghost use Rattle.pool_model.specs.PoolLaws.{LegalIsSound, LegalFitsTrackers, LegalFitsClients, LegalFitsPages, LegalFitsMemory, LegalFindsRoom, LegalFitsQuotas, AllPinsAreCharged};
ghost use Rattle.pool_model.specs.Frames.{EntriesLeaveRest};
ghost use Rattle.pool_model.specs.Orders.{LegalKeepsQueues};
ghost use Rattle.pool_model.specs.OwnLaws.{LegalSessionsAreTold, LegalContentsAreTold, LegalKeptFailuresRose, FailuresGrow};
ghost use Rattle.pool_model.specs.RefusalLaws.{LegalRefusalsNameOwn};
ghost use Rattle.pool_model.specs.StoredBlocks.{LegalMarksShowContent, LegalVersionsAreTold, MarksAreUnique};
ghost use Rattle.pool_model.specs.HistoryLaws.{LegalFronts, LegalGrows, LegalGrowsSo, StateRunsOn, LegalNamesAreNew, CountsEntries, LegalPagesAsMade, LegalPagesAreOwned, LegalKeepsFailures};

/// Charges and the reservations of children fit each reservation, and each reservation fits its limit.
pub fn law_trackers()
    ensures { LegalFitsTrackers }
{}

/// What a client holds fits its reservation: pinned pages, each once for each pin, pages that are loading, dirty
/// or flying, and buffers. So the pins of one page alone fit it.
#[tactic(auto, using(crate::proofs::Kept::legal_fits_clients, crate::proofs::Kept::legal_fits_pages))]
pub fn law_clients()
    ensures trackers { LegalFitsTrackers }
    ensures clients { LegalFitsClients }
    ensures pages { LegalFitsPages }
{}

/// Each pin of a page is charged the page's length, and a page has its blocks once however often it is pinned.
#[tactic(auto, using(crate::proofs::Pins::all_pins_are_charged))]
pub fn law_pins()
    ensures { AllPinsAreCharged }
{}

/// All blocks in use fit the pool, and a client that has room in its reservation finds as much memory that
/// is free or clean. So a call that has its room never lacks a block.
#[tactic(auto, using(crate::proofs::Kept::legal_fits_memory))]
pub fn law_room()
    ensures memory { LegalFitsMemory }
    ensures room { LegalFindsRoom }
{}

/// The slots in use of a live session are within its quota.
#[tactic(auto, using(crate::proofs::Slots::legal_fits_quotas))]
pub fn law_quotas()
    ensures { LegalFitsQuotas }
{}

/// What each entry keeps, from which the other laws follow.
#[tactic(auto, using(crate::proofs::Kept::legal_sound))]
pub fn law_sound()
    ensures { LegalIsSound }
{}

/// Every front of a legal history is legal. A history grows by entries that may follow it, and by no others,
/// and its state with it.
#[tactic(auto, using(crate::proofs::Fronts::legal_fronts, crate::proofs::Fronts::legal_grows, crate::proofs::Fronts::legal_grows_so, crate::proofs::Fronts::state_runs_on))]
pub fn law_fronts()
    ensures fronts { LegalFronts }
    ensures grows { LegalGrows }
    ensures only { LegalGrowsSo }
    ensures state { StateRunsOn }
{}

/// The names of a history's pages count up, so none comes twice, and each is below the next one.
#[tactic(auto, using(crate::proofs::Names::legal_names_are_new))]
pub fn law_names()
    ensures { LegalNamesAreNew }
{}

/// The state counts the entries.
#[tactic(auto, using(crate::proofs::Names::counts_entries))]
pub fn law_count()
    ensures { CountsEntries }
{}

/// A live page is for whom it was made, with the blocks that it was made with.
#[tactic(auto, using(crate::proofs::Made::legal_pages_as_made))]
pub fn law_made()
    ensures { LegalPagesAsMade }
{}

/// What an entry doesn't name it leaves alone.
#[tactic(auto, using(crate::proofs::Frames::entries_leave_rest))]
pub fn law_rest()
    ensures { EntriesLeaveRest }
{}

/// A live page is for a live client of its session.
pub fn law_owners()
    ensures { LegalPagesAreOwned }
{}

/// What a session keeps of failures is what the history tells: for each client the first failure on its pages
/// since the session's last Ask. So the count of failures on its pages for that client has risen since that Ask.
/// The count never falls, also where a client's number comes again.
#[tactic(auto, using(crate::proofs::Noted::legal_keeps_failures, crate::proofs::Rising::kept_failures_rose, crate::proofs::Rising::failures_grow))]
pub fn law_failures()
    ensures kept { LegalKeepsFailures }
    ensures rose { LegalKeptFailuresRose }
    ensures grow { FailuresGrow }
{}

/// Pages wait in the state's lists as the history tells: a client's dirty ones in the order of their last unpin
/// or failed write, and all clean ones in the order of their last write.
#[tactic(auto, using(crate::proofs::Lined::legal_keeps_queues))]
pub fn law_orders()
    ensures { LegalKeepsQueues }
{}

/// A session is live exactly where its own entries began it and didn't end it, with the query tracker that they
/// name.
#[tactic(auto, using(crate::proofs::Sitting::legal_sessions_are_told))]
pub fn law_sessions()
    ensures { LegalSessionsAreTold }
{}

/// The bytes of a live page are those of its last unpin, and zeros of its length before the first. The entries of
/// its session alone tell them.
pub fn law_contents()
    ensures { LegalContentsAreTold }
{}

/// A refused call names only pages, buffers and trackers that are live and its maker's.
#[tactic(auto, using(crate::proofs::Refused::legal_refusals_name_own))]
pub fn law_refusals()
    ensures { LegalRefusalsNameOwn }
{}

/// A page whose bytes are on scratch has the version of its last write, which began with these bytes.
#[tactic(auto, using(crate::proofs::Written::legal_versions_are_told))]
pub fn law_versions()
    ensures { LegalVersionsAreTold }
{}

/// While fewer entries stand than the greatest u64, what a history stores under one mark is one block.
/// So what was stored under the mark that is wanted of a page is the page's content.
pub fn law_marks()
    ensures unique { MarksAreUnique }
    ensures content { LegalMarksShowContent }
{}
