//! A grouping ends.
ghost use Rattle.std.specs.Prelude.{◌≡◌, []};
ghost use Rattle.pool_model.specs.LookingBack.{names_in};
ghost use Rattle.group_op.specs.Held.{LeavesOthers};
ghost use Rattle.group_op.specs.Operator.{IsOperator};
ghost use Rattle.partition_stack.specs.Leaving.{MayStart};
ghost use Rattle.partition_stack.specs.Stack.{over};
ghost use Rattle.store_api.specs.Conditions.{IsIdle};
ghost use Rattle.store_api.specs.Signs.{Entered};
ghost use Rattle.tuple_stream.specs.Families.{AllClosed, slots_in};
ghost use Rattle.tuple_stream.specs.Trails.{EnteredEvents, PinsFirst};

use crate::operator::GroupOp;
use store_api::{Client, Store};

impl GroupOp {
    /// Ends the grouping, and gives its client back, which has no page and no loan from then on. This takes no memory.
    pub fn end<St: Store>(self, store: &mut St) -> Client
        requires { IsOperator self (St.holds store.old) (St.signs store.old) }
        ensures client { result ≡ self.client }
        // Where no page was pinned, none is left before one is pinned again.
        ensures first { AllClosed (over self.parts (St.holds store.old) (St.signs store.old)) → EnteredEvents PinsFirst (St.signs store.old).trail (St.signs store.new).trail }
        ensures idle { IsIdle self.client.tracker (St.holds store.new) }
        // It is live, with all of its reservation unused, so that another operator may start with it.
        ensures again { MayStart self.client self.parts.page_blocks (St.holds store.new) }
        ensures entries { Entered (λ more. names_in more ≡ []) (St.signs store.old).trail (St.signs store.new).trail }
        ensures slots { (St.holds store.new).free_slots ≡ slots_in (over self.parts (St.holds store.old) (St.signs store.old)) }
        ensures leaves { LeavesOthers self.client.tracker (St.holds store.old) (St.holds store.new) (St.signs store.old) (St.signs store.new) }
    {
        let GroupOp {
            client,
            shape: _,
            parts,
            table,
            fed: _,
            moved: _,
        } = self;
        parts.end(store, &client);
        if let Some(table) = table {
            table.close(store);
        }
        client
    }
}
