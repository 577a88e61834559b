//! Laws of allocators beside what else happens in their store: each is the contract of a function that does nothing.
ghost use Rattle.sub_alloc.specs.Staying.{StaysBeside, StaysGivenBack, StaysReserved};

/// An allocator stays one of its client's, whatever other clients do, and while its own client's reservation grows or
/// falls.
#[tactic(auto, using(crate::proofs::Beside::of_beside))]
pub fn law_alloc_stays()
    ensures beside { StaysBeside }
    ensures reserved { StaysReserved }
    ensures given_back { StaysGivenBack }
{}
