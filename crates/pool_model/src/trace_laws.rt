//! Laws over traces: each is the contract of a function that does nothing.
ghost use Rattle.pool_model.specs.TraceLaws.{LegalHistoriesHaveTraces, TracesSkipNothing, TraceFronts, TracesGrow, TracesFit};

/// A trace is legal where some legal history has it, entry for entry. So the trace of a legal history is legal, and
/// every front of a legal trace is. A trace grows by the skeletons of entries that may follow, and by no others.
/// After each entry of a legal trace the pool fits its trackers, its clients and its memory.
pub fn law_traces()
    ensures legal { LegalHistoriesHaveTraces }
    ensures whole { TracesSkipNothing }
    ensures fronts { TraceFronts }
    ensures grows { TracesGrow }
    ensures fits { TracesFit }
{}
