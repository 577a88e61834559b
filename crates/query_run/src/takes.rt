// What takes the rows of an input: a grouping, or one side of a join.

ghost use Rattle.std.specs.Prelude.{◌*◌, ◌++◌, ◌∷◌, ℕ, List, [], IfErr, OnOk, length};
ghost use Rattle.row_codec.specs.declared.values.Kind.{Kind};
ghost use Rattle.row_codec.specs.declared.values.Value.{Value};
ghost use Rattle.reservation_tree.specs.declared.errors.PoolErr.{PoolErr};
ghost use Rattle.store_api.specs.Holdings.{Holdings};
ghost use Rattle.store_api.specs.Signs.{Signs};
ghost use Rattle.group_op.specs.Operator.{page_of as group_page};
ghost use Rattle.join_op.specs.Operator.{page_of as join_page};
ghost use Rattle.query_run.specs.Feeding.{MayBeTaken};
ghost use Rattle.query_run.specs.Taking.{GroupFeeds, GroupGoes, GroupMakes, GroupStands, GroupStops, GroupWants, JoinGoes, JoinMakes, JoinStands, JoinStops, LeftFeeds, LeftStands, LeftWants, RightFeeds, RightWants, TakesStill};

use group_op::GroupOp;
use join_op::JoinOp;
use reservation_tree::PoolErr;
use row_codec::Value;
use std::alloc::Global;
use store_api::{OpErr, Store};

// Takes the rows of an input that pass.
pub(crate) trait Takes<St: Store> {
    // The kinds of the rows, how many bytes a row is to have beside its own, and the length of a page.
    ghost kinds: { Self → List Kind };

    ghost extra: { Self → ℕ };

    ghost page: { Self → Holdings → ℕ };

    // It is one over the store and may be given rows.
    ghost stands: { Self → Holdings → Signs → Type 0 };

    // It took these rows since it was another value, over another state of the store.
    ghost feeds: { Self → Self → List (List Value) → Holdings → Holdings → Signs → Signs → Type 0 };

    // What it left since then.
    ghost goes: { Self → Self → Holdings → Holdings → Signs → Signs → Type 0 };

    // The pages that it made since then are few for these rows.
    ghost makes: { Self → Self → List (List Value) → Holdings → Signs → Signs → Type 0 };

    // How the store may stop it since a state of the store.
    ghost stops: { Self → Holdings → Signs → Signs → PoolErr → Type 0 };

    // For want of slots it stops it only so, while these rows come.
    ghost wants: { Self → List (List Value) → Holdings → Signs → PoolErr → Type 0 };

    // Takes a row. Behind an error it can only end.
    fn take(&mut self, alloc: Global, store: &mut St, row: &[Value]) -> Result<(), PoolErr>
        requires stands { stands self.old (St.holds store.old) (St.signs store.old) }
        requires row { MayBeTaken (kinds self.old) (extra self.old) (page self.old (St.holds store.old)) row.now }
        ensures ok { OnOk result ((first : Self) (rows : List (List Value)) (h : Holdings) (s : Signs) → feeds first self.old rows h (St.holds store.old) s (St.signs store.old) → feeds first self.new (rows ++ row.now ∷ []) h (St.holds store.new) s (St.signs store.new)) }
        ensures stands { stands self.new (St.holds store.new) (St.signs store.new) }
        ensures goes { (first : Self) (h : Holdings) (s : Signs) → goes first self.old h (St.holds store.old) s (St.signs store.old) → goes first self.new h (St.holds store.new) s (St.signs store.new) }
        ensures few { (first : Self) (rows : List (List Value)) (h : Holdings) (s : Signs) → feeds first self.old rows h (St.holds store.old) s (St.signs store.old) → makes first self.old rows h s (St.signs store.old) → makes first self.new (rows ++ row.now ∷ []) h s (St.signs store.new) }
        ensures still { TakesStill (kinds self.old) (kinds self.new) (extra self.old) (extra self.new) (page self.old (St.holds store.old)) (page self.new (St.holds store.new)) }
        ensures cause { IfErr result (λ e. (first : Self) (h : Holdings) (s : Signs) → goes first self.old h (St.holds store.old) s (St.signs store.old) → stops first h s (St.signs store.new) e) }
        ensures enough { IfErr result (λ e. (first : Self) (rows : List (List Value)) (h : Holdings) (s : Signs) → feeds first self.old rows h (St.holds store.old) s (St.signs store.old) → goes first self.old h (St.holds store.old) s (St.signs store.old) → wants first (rows ++ row.now ∷ []) h s e) };
}

impl<St: Store> Takes<St> for GroupOp {
    ghost kinds = { λ op. op.shape.kinds };

    ghost extra = { λ op. 16 * length op.shape.aggs };

    ghost page = { group_page };

    ghost stands = { GroupStands };

    ghost feeds = { GroupFeeds };

    ghost goes = { GroupGoes };

    ghost makes = { GroupMakes };

    ghost stops = { GroupStops };

    ghost wants = { GroupWants };

    fn take(&mut self, alloc: Global, store: &mut St, row: &[Value]) -> Result<(), PoolErr> {
        match self.feed(alloc, store, row) {
            Ok(()) => Ok(()),
            Err(OpErr::Pool(e)) => Err(e),
            Err(OpErr::Sink) => unreachable!(),
        }
    }
}

// The left side of a join, of which no right row came yet.
pub(crate) struct Lefts {
    pub(crate) op: JoinOp,
}

impl<St: Store> Takes<St> for Lefts {
    ghost kinds = { λ e. e.op.shape.left };

    ghost extra = { λ e. 0 };

    ghost page = { λ e. join_page e.op };

    ghost stands = { λ e. LeftStands e.op };

    ghost feeds = { λ a b. LeftFeeds a.op b.op };

    ghost goes = { λ a b. JoinGoes a.op b.op };

    ghost makes = { λ a b rows h. JoinMakes rows };

    ghost stops = { λ e. JoinStops e.op };

    ghost wants = { λ e. LeftWants e.op };

    fn take(&mut self, alloc: Global, store: &mut St, row: &[Value]) -> Result<(), PoolErr> {
        match self.op.feed_left(alloc, store, row) {
            Ok(()) => Ok(()),
            Err(OpErr::Pool(e)) => Err(e),
            Err(OpErr::Sink) => unreachable!(),
        }
    }
}

// The right side of a join.
pub(crate) struct Rights {
    pub(crate) op: JoinOp,
}

impl<St: Store> Takes<St> for Rights {
    ghost kinds = { λ e. e.op.shape.right };

    ghost extra = { λ e. 0 };

    ghost page = { λ e. join_page e.op };

    ghost stands = { λ e. JoinStands e.op };

    ghost feeds = { λ a b. RightFeeds a.op b.op };

    ghost goes = { λ a b. JoinGoes a.op b.op };

    ghost makes = { λ a b rows h. JoinMakes rows };

    ghost stops = { λ e. JoinStops e.op };

    ghost wants = { λ e. RightWants e.op };

    fn take(&mut self, alloc: Global, store: &mut St, row: &[Value]) -> Result<(), PoolErr> {
        match self.op.feed_right(alloc, store, row) {
            Ok(()) => Ok(()),
            Err(OpErr::Pool(e)) => Err(e),
            Err(OpErr::Sink) => unreachable!(),
        }
    }
}
