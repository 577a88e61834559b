//! Laws: each is the contract of a function that does nothing.
ghost use Rattle.reservation_tree.specs.Marks.{MarksDiffer};
ghost use Rattle.reservation_tree.specs.Ways.{QueriesStep, ClientsStep, QueriesMove, ClientsMove, MovesToItself};

/// Marks that differ have different bytes.
#[tactic(auto, using(crate::proofs::Marks::marks_differ))]
pub fn law_marks()
    ensures { MarksDiffer }
{}

/// Where a tree has three levels, the root, queries and their clients, each growth, fall and move is at most three
/// single steps, and is refused by the lowest limit that one of them would pass.
pub fn law_ways()
    ensures queries { QueriesStep }
    ensures clients { ClientsStep }
    ensures moves { QueriesMove }
    ensures between { ClientsMove }
    ensures itself { MovesToItself }
{}
