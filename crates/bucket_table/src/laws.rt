//! Laws of tables: each is the contract of a function that does nothing.
ghost use Rattle.bucket_table.specs.Entering.{LoansLeavePages};
ghost use Rattle.bucket_table.specs.Staying.{StaysBesideFewer, StaysBesideMore, StaysBesideOthers, StaysBesidePages};

/// A table stays one of its store beside whatever else of the store changes: another client's things, its own client's
/// pages, and other loans of any client.
pub fn law_table_stays()
    ensures others { StaysBesideOthers }
    ensures pages { StaysBesidePages }
    ensures more { StaysBesideMore }
    ensures fewer { StaysBesideFewer }
{}

/// Entries of loans leave all pages as they are, and make none.
#[tactic(auto, using(crate::proofs::Entered::loans_leave_pages))]
pub fn law_loans_leave_pages()
    ensures { LoansLeavePages }
{}
