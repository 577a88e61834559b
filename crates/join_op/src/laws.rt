//! Laws of pairs: each is the contract of a function that does nothing.
ghost use Rattle.join_op.specs.PairLaws.{LeftInParts, NoRightNoPair, PairsByParts, PairsInAnyOrder, RightInParts};
ghost use Rattle.join_op.specs.Starting.{AllStart};

/// Pairs don't depend on the order of rows, and may be found part by part.
pub fn law_pairs()
    ensures order { PairsInAnyOrder }
    ensures left { LeftInParts }
    ensures right { RightInParts }
    ensures none { NoRightNoPair }
    ensures parts { PairsByParts }
{}

/// A join that was started is one over the store of its client, and keeps that nothing was fed.
pub fn law_starts()
    ensures law { AllStart }
{}
