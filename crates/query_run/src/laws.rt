//! Laws of queries: each is the contract of a function that does nothing.
ghost use Rattle.query_run.specs.Completing.{Completes, Refuses};
ghost use Rattle.query_run.specs.Spilling.{KeptIsLaid};

/// A query in whose way nothing stands, and which has no answer, was stopped by want of memory.
pub fn law_completes()
    ensures law { Completes }
{}

/// A query whose input is refused says the first refusal in the order of reading, or was stopped by want of memory, where
/// nothing stands in its way before that place: its store suffices for the rows that are read, and neither a source nor the
/// sink failed. Bytes beyond the most of an input may be told before another refusal, so none are there.
pub fn law_refuses()
    ensures law { Refuses }
{}

/// What a query kept took as many bytes of pages as its rows have.
pub fn law_spill()
    ensures law { KeptIsLaid }
{}
