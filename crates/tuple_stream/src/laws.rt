//! Laws of streams: each is the contract of a function that does nothing.
ghost use Rattle.tuple_stream.specs.Bounds.{AllFew, StartsFirst};
ghost use Rattle.tuple_stream.specs.FamilyLaws.{AllCallsAreSteps, AllHold, FamiliesKeepThemselves};

/// A stream has no more pages than rows, and at most one page more than its rows need twice over; where a part of
/// the first page is spent, one page more again.
pub fn law_few_pages()
    ensures law { AllFew }
{}

/// The start is a place of every stream, and all of its rows are behind it.
pub fn law_first_place()
    ensures law { StartsFirst }
{}

/// Streams of one client beside each other: a call of one is a step of them all, and the rows of the others stay.
/// Where rows were added alone until all pages rest, each page was left once, and together they hold all rows.
pub fn law_streams_beside()
    ensures calls { AllCallsAreSteps }
    ensures none { FamiliesKeepThemselves }
    ensures hold { AllHold }
{}
