// The pairs of a join go to a grouping.

ghost use Rattle.std.specs.Prelude.{◌≡◌, ◌+◌, ◌-◌, ◌*◌, ◌++◌, ◌^◌, ◌<◌, ◌≤◌, [], List, IfErr, IfOk, IfSome, IsOk, None, OnErr, OnOk, Option, Some, length, true};
ghost use Rattle.std.specs.Option.{option_map};
ghost use Rattle.row_codec.specs.declared.values.Value.{Value};
ghost use Rattle.row_codec.specs.Row.{kinds_of};
ghost use Rattle.row_codec.specs.RowBytes.{row_bytes};
ghost use Rattle.store_api.specs.Emitters.{CameOf, slots_with};
ghost use Rattle.tuple_stream.specs.Families.{slots_in as all_slots_in};
ghost use Rattle.tuple_stream.specs.Trails.{EnteredEvents};
ghost use Rattle.partition_stack.specs.Emitting.{IsBeside, LeavesBeside};
ghost use Rattle.partition_stack.specs.Leaving.{LeavesOthers};
ghost use Rattle.partition_stack.specs.Making.{MakesBeside, MakesFew};
ghost use Rattle.partition_stack.specs.Slots.{IsWantBelowOf, IsWantOf, with_more};
ghost use Rattle.partition_stack.specs.Stack.{over};
ghost use Rattle.group_op.specs.Operator.{IsOperator};
ghost use Rattle.join_op.specs.Laid.{HoldsSides};
ghost use Rattle.join_op.specs.Operator as join;
ghost use Rattle.join_op.specs.Pairs.{pairs_of};
ghost use Rattle.query_run.specs.Ending.{cause_of_handed};
ghost use Rattle.query_run.specs.Feeder.{HasEnded, HasStopped, Took, pages_made, slots_for_rows, slots_in};
ghost use Rattle.query_run.specs.Joined.{TookPairs};
ghost use Rattle.query_run.specs.FeederLaws.{slots_few, slots_same, slots_whole, took_same};
ghost use Rattle.query_run.specs.Taking.{join_slots};
ghost use Rattle.query_run.specs.Inside.{OfSides, OfSidesTold};

use crate::feeding::AGGREGATE;
use crate::grouping::of_op;
use group_op::{GroupOp, law_asks_own};
use join_op::JoinOp;
use partition_stack::law_scratch;
use query_plan::{Query, QueryErr};
use reservation_tree::PoolErr;
use row_codec::{Value, encoded_len};
use std::alloc::Global;
use std::marker::{Brand, PhantomData};
use std::mem;
use store_api::{Client, Emit, OpErr, Store};

const MEMORY: OpErr = OpErr::Pool(PoolErr::Memory);

// A grouping on its way, and what it took.
pub(crate) struct Feeder {
    pub(crate) alloc: Global,
    // There is one until it answers an error: then it ends, so that its pages have no slots any more, and its client stays.
    pub(crate) op: Option<GroupOp>,
    pub(crate) client: Option<Client>,
    // The bytes of a page, and those that a row is to have beside its own.
    pub(crate) page: u64,
    pub(crate) extra: u64,
    // How many rows it took.
    pub(crate) taken: u64,
}

impl Feeder {
    // A grouping of a plan that took nothing yet, with pages of so many bytes.
    pub(crate) fn with(alloc: Global, op: GroupOp, plan: &Query, page: u64) -> Feeder
        requires { length plan.now.aggs ≤ 16 }
        ensures op { (result.op ≡ Some op) × (result.client ≡ None) }
        ensures numbers { (result.page ≡ page) × (result.extra ≡ 16 * length plan.now.aggs) × (result.taken ≡ 0) }
    {
        let aggregates = plan.aggs.as_slice().len() as u64;
        Feeder {
            alloc,
            op: Some(op),
            client: None,
            page,
            extra: AGGREGATE * aggregates,
            taken: 0,
        }
    }

    // Whether a row fits a page with what it is to have besides, and can be counted. Where pins show what was left, each pair does
    // of rows that were weighed.
    fn may_take(&self, row: &[Value]) -> bool
        ensures { result ≡ true → self.now.page < 2 ^ 32 → (self.now.taken < 2 ^ 64 - 1) × (length (row_bytes row.now) + self.now.extra ≤ self.now.page) }
    {
        self.taken < u64::MAX && encoded_len(row).saturating_add(self.extra) <= self.page
    }

    // The grouping ends, and its client stays.
    fn stop<St: Store>(&mut self, store: &mut St)
        requires op { IfSome self.old.op (λ op. IsOperator op (St.holds store.old) (St.signs store.old)) }
        requires alone { self.old.client ≡ None }
        ensures none { self.new.op ≡ None }
        ensures numbers { (self.new.taken ≡ self.old.taken) × (self.new.page ≡ self.old.page) }
        ensures client { self.new.client ≡ option_map (λ op. op.client) self.old.op }
        ensures ended { IfSome self.old.op (λ op. HasEnded op (St.holds store.old) (St.holds store.new) (St.signs store.old) (St.signs store.new)) }
    {
        let Some(op) = self.op.take() else {
            return;
        };
        let c = op.end(store);
        // The place is empty as long as there is a grouping.
        if let Some(other) = mem::replace(&mut self.client, Some(c)) {
            store.end_client(other);
        }
    }
}

// Whose grouping it is: its client, the shape of its rows, and the blocks of its pages.
pub(crate) trait Whose {
    ghost use Rattle.std.specs.Prelude.{ℕ};
    ghost use Rattle.store_api.specs.Tokens.{ClientToken};
    ghost use Rattle.store_api.specs.declared.shapes.Shape.{Shape};

    ghost client: { ClientToken };

    ghost shape: { Shape };

    ghost blocks: { ℕ };
}

impl Whose for Brand {
    ghost use Rattle.std.specs.Prelude.{[]};

    ghost client = { record { session = 0; tracker = 0 } };

    ghost shape = { record { kinds = []; keys = []; aggs = [] } };

    ghost blocks = { 0 };
}

// Takes rows for this grouping.
pub(crate) struct FeederOf<B: Whose> {
    pub(crate) feeder: Feeder,
    pub(crate) of: PhantomData<B>,
}

impl<St: Store, B: Whose> Emit<St> for FeederOf<B> {
    ghost took = { λ e h rows. Took B.client B.shape B.blocks e.feeder h rows };

    ghost admits = { λ e row. kinds_of row ≡ B.shape.kinds };

    ghost client = { λ e. Some B.client.tracker };

    ghost faults = { λ e. 0 };

    ghost slots = { λ e h. slots_in e.feeder.op B.client.tracker h };

    ghost slots_for = { λ e rows. slots_for_rows B.shape B.blocks e.feeder.page rows };

    ghost page_blocks = { B.blocks };

    ghost creates = { λ e. pages_made e.feeder.op e.feeder.taken };

    fn row(&mut self, store: &mut St, row: &[Value]) -> Result<(), OpErr> {
        law_asks_own();
        law_scratch();
        let _len = store.block_len();
        if !self.feeder.may_take(row) {
            return Err(MEMORY);
        }
        let alloc = self.feeder.alloc;
        let Some(op) = &mut self.feeder.op else {
            return Err(MEMORY);
        };
        let fed = op.feed(alloc, store, row);
        op.law_stack();
        let Err(e) = fed else {
            self.feeder.taken += 1;
            return Ok(());
        };
        self.feeder.stop(store);
        Err(e)
    }

    ghost asks_own = { λ e old new rows same took. took_same e.feeder.op e.feeder.client B.client B.shape B.blocks e.feeder old new rows same took };

    ghost slots_own = { λ e old new same. slots_same B.client.tracker old new same e.feeder.op };

    ghost slots_fit = { λ e h rows took. slots_few e.feeder.op e.feeder.client B.client B.shape B.blocks e.feeder h rows took };

    ghost slots_whole = { λ e h rows took. slots_whole e.feeder.op e.feeder.client B.client B.shape B.blocks e.feeder h rows took };
}

// Hands the pairs of a join on to a grouping that took no row yet.
pub(crate) fn hand_pairs<B: Whose, St: Store>(
    alloc: Global,
    store: &mut St,
    op: &mut JoinOp,
    feeder: Feeder,
) -> (Result<(), OpErr>, Feeder)
    requires op { join.IsOperator op.old (St.holds store.old) (St.signs store.old) }
    requires feeding { join.IsFeeding op.old }
    requires beside { IsBeside op.old.client.tracker (Some B.client.tracker) (St.holds store.old) }
    requires kinds { B.shape.kinds ≡ op.old.shape.left ++ op.old.shape.right }
    requires none { Took B.client B.shape B.blocks feeder (St.holds store.old) [] }
    requires blocks { B.blocks ≡ op.old.left.page_blocks }
    requires long { 0 < feeder.page }
    ensures ok { OnOk result.0 (OfSidesTold St.Store op.old store.old
        (λ lefts rights. TookPairs (pairs_of op.old.shape lefts rights) (Took B.client B.shape B.blocks result.1 (St.holds store.new)))) }
    ensures any { (rows : List (List Value)) × Took B.client B.shape B.blocks result.1 (St.holds store.new) rows }
    ensures few { OfSidesTold St.Store op.old store.old
        (λ lefts rights. (rows : List (List Value)) × Took B.client B.shape B.blocks result.1 (St.holds store.new) rows × (length rows ≤ length (pairs_of op.old.shape lefts rights))) }
    ensures made { OfSidesTold St.Store op.old store.old
        (λ lefts rights. MakesBeside (15 * (length lefts + length rights)) 0 (pages_made result.1.op result.1.taken) (St.signs store.old) (St.signs store.new)) }
    ensures kept { OnOk result.0 (OfSides St.Store op.old store.old
        (λ start lefts rights. EnteredEvents (HoldsSides op.old.shape lefts rights (over op.new.left (St.holds store.new) (St.signs store.new)) (over op.new.right (St.holds store.new) (St.signs store.new)) (result.1 ≡ feeder)) start (St.signs store.new).trail)) }
    ensures op { join.IsOperator op.new (St.holds store.new) (St.signs store.new) }
    ensures client { op.new.client ≡ op.old.client }
    ensures leaves { LeavesBeside op.old.client.tracker (Some B.client.tracker) (St.holds store.old) (St.holds store.new) (St.signs store.old) (St.signs store.new) }
    ensures cause { IfErr result.0 (CameOf 0 0 (St.signs store.old) (St.signs store.new)) }
    ensures slots { with_more (slots_in result.1.op B.client.tracker (St.holds store.new)) (join_slots op.new (St.holds store.new) (St.signs store.new)) ≡ join_slots op.old (St.holds store.old) (St.signs store.old) }
    ensures want { IfErr result.0 (IsWantOf B.blocks (join_slots op.old (St.holds store.old) (St.signs store.old))) }
    ensures enough { IfErr result.0 (λ e. OfSidesTold St.Store op.old store.old
        (λ lefts rights. IsWantBelowOf (join.slots_for op.old (St.holds store.old) lefts rights + slots_for_rows B.shape B.blocks feeder.page (pairs_of op.old.shape lefts rights)) (join_slots op.old (St.holds store.old) (St.signs store.old)) e)) }
{
    let mut taker = FeederOf::<B> {
        feeder,
        of: PhantomData,
    };
    let result = op.finish(alloc, store, &mut taker);
    let FeederOf { feeder, of: _ } = taker;
    (result, feeder)
}

// The grouping, where all rows were handed on and none was refused. Else it ends, and its client comes back.
pub(crate) fn into_grouping<B: Whose, St: Store>(
    store: &mut St,
    feeder: Feeder,
    handed: Result<(), OpErr>,
) -> Result<GroupOp, (QueryErr, Client)>
    requires took { (rows : List (List Value)) × Took B.client B.shape B.blocks feeder (St.holds store.old) rows }
    ensures ok { IfOk result (λ op. (feeder.op ≡ Some op) × (feeder.client ≡ None)) }
    ensures handed { OnOk result (IsOk handed) }
    ensures same { OnOk result ((St.holds store.new ≡ St.holds store.old) × (St.signs store.new ≡ St.signs store.old)) }
    ensures err { IfErr result (λ e. (e.0 ≡ cause_of_handed handed) × HasStopped B.client e.1 (St.holds store.new)) }
    ensures leaves { LeavesOthers B.client.tracker (St.holds store.old) (St.holds store.new) (St.signs store.old) (St.signs store.new) }
    ensures made { MakesFew 0 (St.signs store.old) (St.signs store.new) }
    ensures slots { IfOk result (λ op. all_slots_in (over op.parts (St.holds store.new) (St.signs store.new)) ≡ slots_with (slots_in feeder.op B.client.tracker (St.holds store.old)) (St.holds store.old)) }
    ensures free { OnErr result ((St.holds store.new).free_slots ≡ slots_with (slots_in feeder.op B.client.tracker (St.holds store.old)) (St.holds store.old)) }
{
    law_asks_own();
    let op = match still_there::<B, St>(store, feeder) {
        Ok(op) => op,
        Err(client) => return Err((why(handed), client)),
    };
    let Err(e) = handed else {
        return Ok(op);
    };
    let client = op.end(store);
    Err((of_op(e), client))
}

// The grouping, or its client.
fn still_there<B: Whose, St: Store>(_store: &St, feeder: Feeder) -> Result<GroupOp, Client>
    requires { (rows : List (List Value)) × Took B.client B.shape B.blocks feeder (St.holds _store.now) rows }
    ensures ok { IfOk result (λ op. (feeder.op ≡ Some op) × (feeder.client ≡ None)) }
    ensures err { IfErr result (λ client. (feeder.op ≡ None) × (feeder.client ≡ Some client)) }
{
    let Feeder {
        alloc: _,
        op,
        client,
        page: _,
        extra: _,
        taken: _,
    } = feeder;
    match (op, client) {
        (Some(op), None) => Ok(op),
        (None, Some(client)) => Err(client),
        _ => unreachable!(),
    }
}

// Why rows that were handed on went to no grouping.
fn why(handed: Result<(), OpErr>) -> QueryErr
    ensures { result ≡ cause_of_handed handed }
{
    match handed {
        Ok(()) => QueryErr::Pool(PoolErr::Memory),
        Err(e) => of_op(e),
    }
}
