//! Laws of groupings: each is the contract of a function that does nothing.
ghost use Rattle.std.specs.Prelude.{length, ◌<◌, ◌^◌};
ghost use Rattle.partition_stack.specs.Stack.{IsStack};
ghost use Rattle.group_op.specs.Asking.{AsksOwn, FewSlots};
ghost use Rattle.group_op.specs.Making.{FewPages};
ghost use Rattle.group_op.specs.Operator.{entries_in};
ghost use Rattle.group_op.specs.Starting.{AllStart};
ghost use Rattle.group_op.specs.Stored.{LongByKey};

use crate::operator::GroupOp;

/// A grouping that was started is one over the store of its client, and keeps that nothing was fed.
pub fn law_starts()
    ensures law { AllStart }
{}

/// The length of a partial row, by its key.
pub fn law_lengths()
    ensures law { LongByKey }
{}

/// A grouping asks nothing of its store but what is its client's, the block length, and whether pages show what was left in
/// them.
pub fn law_asks_own()
    ensures law { AsksOwn }
{}

/// Its pages, and the slots that they have, are few for the rows that were fed.
pub fn law_few()
    ensures pages { FewPages }
    ensures slots { FewSlots }
{}

impl GroupOp {
    /// What always holds of its partitions.
    pub fn law_stack(&self)
        ensures { IsStack self.now.parts }
    {
        self.parts.law_stack();
    }

    /// Its table has fewer rows than a u32 counts.
    pub fn law_entries(&self)
        ensures { length (entries_in self.now.table) < 2 ^ 32 }
    {
        if let Some(table) = &self.table {
            let _nodes = table.nodes();
        }
    }
}
