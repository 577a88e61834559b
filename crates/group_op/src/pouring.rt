//! The groups of one grouping go to another.
ghost use Rattle.std.specs.Prelude.{◌≡◌, ◌⊎◌, ◌≤◌, ◌++◌, ◌∷◌, [], List, None, Some, refl, IfErr, IsErrOf, OnErr, OnOk, true};
ghost use Rattle.outside.specs.Counts.{Rose};
ghost use Rattle.std.proofs.Common.{zero-le};
ghost use Rattle.row_codec.specs.declared.values.Value.{Value};
ghost use Rattle.row_codec.specs.Order.{path_order};
ghost use Rattle.row_codec.specs.Row.{kinds_of};
ghost use Rattle.store_api.specs.Emitters.{CameOf};
ghost use Rattle.store_api.specs.Signs.{WasAnswered};
ghost use Rattle.group_rows.specs.Partials.{groups_by};
ghost use Rattle.group_op.specs.Operator.{Holds, IsFeeding, IsOperator, IsSame};
ghost use Rattle.group_op.specs.Pouring.{HandedOver, HasPoured, HasPouredAll, LeavesStore, Lent, MayHandOver, TakesRow, WasAnsweredBy, faults_so_far, lent_by};
ghost use Rattle.group_op.specs.Stored.{grouping_of, partial_kinds};

use crate::operator::GroupOp;
use reservation_tree::PoolErr;
use row_codec::{Value, encoded_len};
use std::alloc::Global;
use std::marker::{Brand, PhantomData};
use store_api::{Emit, OpErr, Store};

// A grouping to which partial rows go, and its store.
pub(crate) struct Inlet<'a, St> {
    pub(crate) alloc: Global,
    pub(crate) into: &'a mut GroupOp,
    pub(crate) beside: &'a mut St,
    // Why nothing more is fed, once its store refused a call or memory was wanting.
    pub(crate) stopped: Option<PoolErr>,
}

// The grouping takes a partial row, where it fits a page.
fn take_part<St: Store>(
    alloc: Global,
    into: &mut GroupOp,
    beside: &mut St,
    row: &[Value],
) -> Result<(), PoolErr>
    requires op { IsOperator into.old (St.holds beside.old) (St.signs beside.old) }
    requires feeding { IsFeeding into.old }
    requires kinds { kinds_of row.now ≡ partial_kinds into.old.shape }
    ensures ok { OnOk result (TakesRow row.now into.old (St.holds beside.old) (St.signs beside.old) into.new (St.holds beside.new) (St.signs beside.new)) }
    ensures same { IsSame into.old into.new }
    ensures leaves { LeavesStore into.old into.new (St.holds beside.old) (St.holds beside.new) (St.signs beside.old) (St.signs beside.new) }
    ensures cause { IfErr result (λ e. WasAnswered e (St.signs beside.old) (St.signs beside.new)) }
{
    let page = u64::from(into.parts.page_blocks()) * u64::from(beside.block_len());
    if encoded_len(row) > page {
        return Err(PoolErr::Memory);
    }
    match into.feed_partial(alloc, beside, row) {
        Ok(()) => Ok(()),
        Err(e) => Err(pool_err(e)),
    }
}

// What a store answered.
fn pool_err(e: OpErr) -> PoolErr
    ensures { (e ≡ OpErr.Pool result) ⊎ (e ≡ OpErr.Sink) }
{
    match e {
        OpErr::Pool(e) => e,
        OpErr::Sink => PoolErr::Memory,
    }
}

impl<'a, St: Store> Inlet<'a, St> {
    // Takes a row. Once it is stopped, none is fed any more. What the store answered is kept apart, since who hands the rows on
    // may be told answers of its own store only.
    fn take(&mut self, row: &[Value]) -> Result<(), OpErr>
        requires op { IsOperator self.old.into.now (St.holds self.old.beside.now) (St.signs self.old.beside.now) }
        requires feeding { IsFeeding self.old.into.now }
        requires kinds { kinds_of row.now ≡ partial_kinds self.old.into.now.shape }
        ensures ok { OnOk result ((was : Lent) (rows : List (List Value)) → HasPoured rows was (lent_by St.Store self.old) self.old.stopped → HasPoured (rows ++ row.now ∷ []) was (lent_by St.Store self.new) self.new.stopped) }
        ensures err { OnErr result ((was : Lent) (rows : List (List Value)) → HasPoured rows was (lent_by St.Store self.old) self.old.stopped → HasPoured rows was (lent_by St.Store self.new) self.new.stopped) }
        ensures fault { IsErrOf result OpErr.Sink → Rose (faults_so_far self.old.stopped) (faults_so_far self.new.stopped) }
        ensures pool { IfErr result (λ e. (e ≡ OpErr.Sink) ⊎ (e ≡ OpErr.Pool PoolErr.Memory)) }
        ensures never_falls { faults_so_far self.old.stopped ≤ faults_so_far self.new.stopped }
    {
        if self.stopped.is_some() {
            return Err(OpErr::Pool(PoolErr::Memory));
        }
        let alloc = self.alloc;
        let Err(e) = take_part(alloc, self.into, self.beside, row) else {
            return Ok(());
        };
        self.stopped = Some(e);
        Err(OpErr::Sink)
    }
}

// What it was before the first row.
pub(crate) trait Before {
    ghost use Rattle.group_op.specs.Pouring.{Lent};

    ghost was: { Lent };
}

impl Before for Brand {
    ghost use Rattle.group_op.specs.Pouring.{nowhere};

    ghost was = { nowhere };
}

// Takes rows for this one.
pub(crate) struct InletOf<'a, St, B: Before> {
    pub(crate) inlet: Inlet<'a, St>,
    pub(crate) of: PhantomData<B>,
}

impl<'a, St: Store, B: Before> Emit<St> for InletOf<'a, St, B> {
    ghost took = { λ e h rows. HasPoured rows B.was (lent_by St.Store e.inlet) e.inlet.stopped };

    ghost admits = { λ e row. kinds_of row ≡ partial_kinds B.was.op.shape };

    ghost client = { λ e. None };

    ghost faults = { λ e. faults_so_far e.inlet.stopped };

    ghost slots = { λ e h. 0 };

    ghost slots_for = { λ e rows. 0 };

    ghost page_blocks = { 0 };

    ghost creates = { λ e. 0 };

    #[tactic(auto, using(store_api::proofs::Growing::grows_refl, store_api::proofs::Untouched::others_stay))]
    fn row(&mut self, _store: &mut St, row: &[Value]) -> Result<(), OpErr> {
        self.inlet.take(row)
    }

    ghost asks_own = { λ e old new rows same took. took };

    ghost slots_own = { λ e old new same. refl };

    ghost slots_fit = { λ e h rows took. zero-le };

    ghost slots_whole = { λ e h rows took. (0, refl) };
}

// Hands the groups on to an inlet that took no row yet.
fn pour<'a, B: Before, St: Store>(
    alloc: Global,
    store: &mut St,
    op: &mut GroupOp,
    inlet: Inlet<'a, St>,
) -> (Result<(), OpErr>, Inlet<'a, St>)
    requires op { IsOperator op.old (St.holds store.old) (St.signs store.old) }
    requires feeding { IsFeeding op.old }
    requires shape { B.was.op.shape ≡ op.old.shape }
    requires none { HasPoured [] B.was (lent_by St.Store inlet) inlet.stopped }
    requires going { inlet.stopped ≡ None }
    ensures ok { OnOk result.0 ((fed : List (List Value)) → Holds fed op.old (St.holds store.old) (St.signs store.old) → (St.holds store.old).told ≡ true → HasPouredAll op.old.shape (groups_by path_order (grouping_of op.old.shape) fed) B.was (lent_by St.Store result.1) result.1.stopped) }
    ensures any { (rows : List (List Value)) × HasPoured rows B.was (lent_by St.Store result.1) result.1.stopped }
    ensures into { result.1.into.ghost_name ≡ inlet.entry.into.ghost_name }
    ensures beside { result.1.beside.ghost_name ≡ inlet.entry.beside.ghost_name }
    ensures client { op.new.client ≡ op.old.client }
    ensures leaves { LeavesStore op.old op.new (St.holds store.old) (St.holds store.new) (St.signs store.old) (St.signs store.new) }
    ensures cause { IfErr result.0 (CameOf 0 (faults_so_far result.1.stopped) (St.signs store.old) (St.signs store.new)) }
{
    let mut taker = InletOf::<'a, St, B> {
        inlet,
        of: PhantomData,
    };
    let result = op.finish(alloc, store, &mut taker);
    let InletOf { inlet, of: _ } = taker;
    (result, inlet)
}

impl GroupOp {
    /// Hands the groups of all rows that were fed on to another grouping of this shape, beside a store of its own. That one
    /// holds them as partial rows, and takes more rows. This one can only end from then on.
    ///
    /// # Errors
    ///
    /// One of the stores answered so in this call, or there was no memory. From then on both can only end.
    pub fn hand_over<St: Store>(
        &mut self,
        alloc: Global,
        store: &mut St,
        into: &mut GroupOp,
        beside: &mut St,
    ) -> Result<(), PoolErr>
        requires op { IsOperator self.old (St.holds store.old) (St.signs store.old) }
        requires other { IsOperator into.old (St.holds beside.old) (St.signs beside.old) }
        requires may { MayHandOver self.old (St.holds store.old) into.old (St.holds beside.old) }
        ensures ok { OnOk result (HandedOver self.old (St.holds store.old) (St.signs store.old) into.old (St.holds beside.old) (St.signs beside.old) into.new (St.holds beside.new) (St.signs beside.new)) }
        ensures client { self.new.client ≡ self.old.client }
        ensures leaves { LeavesStore self.old self.new (St.holds store.old) (St.holds store.new) (St.signs store.old) (St.signs store.new) }
        ensures same { IsSame into.old into.new }
        ensures other { LeavesStore into.old into.new (St.holds beside.old) (St.holds beside.new) (St.signs beside.old) (St.signs beside.new) }
        ensures cause { IfErr result (WasAnsweredBy (St.signs store.old) (St.signs store.new) (St.signs beside.old) (St.signs beside.new)) }
    {
        let inlet = Inlet {
            alloc,
            into,
            beside,
            stopped: None,
        };
        let (handed, inlet) = pour::<Brand, St>(alloc, store, self, inlet);
        let Inlet {
            alloc: _,
            into,
            beside,
            stopped,
        } = inlet;
        stay(into, beside);
        match stopped {
            Some(e) => Err(e),
            None => match handed {
                Ok(()) => Ok(()),
                Err(e) => Err(pool_err(e)),
            },
        }
    }
}

// Both references end here: what is behind them is what the inlet left there.
fn stay<St>(_into: &mut GroupOp, _beside: &mut St)
    ensures into { _into.new ≡ _into.old }
    ensures beside { _beside.new ≡ _beside.old }
{}
