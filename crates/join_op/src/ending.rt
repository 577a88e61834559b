//! A join ends.
ghost use Rattle.std.specs.Prelude.{◌≡◌};
ghost use Rattle.store_api.specs.Conditions.{IsIdle};
ghost use Rattle.partition_stack.specs.Leaving.{LeavesOthers};
ghost use Rattle.partition_stack.specs.Making.{MakesFew};
ghost use Rattle.tuple_stream.specs.Families.{AllClosed, slots_in};
ghost use Rattle.join_op.specs.Operator.{IsOperator, over_both};
ghost use Rattle.join_op.specs.SideCalls.{side_at, PinsFirstAt};

use crate::operator::JoinOp;
use store_api::{Client, Store};

impl JoinOp {
    /// Ends the join, and gives its client back, which has no page and no loan from then on. This takes no memory.
    pub fn end<St: Store>(self, store: &mut St) -> Client
        requires { IsOperator self (St.holds store.old) (St.signs store.old) }
        ensures client { result ≡ self.client }
        // Where no page was pinned, none is left before one is pinned again.
        ensures first { AllClosed (side_at St.Store self.left store.old) → AllClosed (side_at St.Store self.right store.old) → PinsFirstAt St.Store store.old store.new }
        ensures idle { IsIdle self.client.tracker (St.holds store.new) }
        ensures few { MakesFew 0 (St.signs store.old) (St.signs store.new) }
        ensures slots { (St.holds store.new).free_slots ≡ slots_in (over_both self.left self.right (St.holds store.old) (St.signs store.old)) }
        ensures leaves { LeavesOthers self.client.tracker (St.holds store.old) (St.holds store.new) (St.signs store.old) (St.signs store.new) }
    {
        let JoinOp {
            client,
            shape: _,
            left_columns: _,
            right_columns: _,
            left,
            right,
            left_rests: _,
            fed: _,
        } = self;
        left.end(store, &client);
        right.end(store, &client);
        client
    }
}
