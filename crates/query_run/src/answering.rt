// Rows of groups become the lines of an answer.

ghost use Rattle.std.specs.Prelude.{◌≡◌, ◌≤◌, ℕ, List, ◌∷◌, ◌++◌, [], Option, Some, None, ⊤, refl, length, map, ◌⊎◌, IfErr, IsErrOf, OnErr, OnOk};
ghost use Rattle.std.proofs.Common.{zero-le};
ghost use Rattle.outside.specs.Counts.{Rose};
ghost use Rattle.row_codec.specs.declared.values.Value.{Value};
ghost use Rattle.row_codec.specs.declared.values.Agg.TheVariants.{Sum};
ghost use Rattle.query_run.specs.Writing.{Begun, HasTaken, lines_now, written};

use crate::parts::Part;
use group_rows::take_row;
use outside::Sink;
use query_plan::QueryErr;
use reservation_tree::PoolErr;
use row_codec::{Agg, Value};
use std::alloc::Global;
use std::marker::{Brand, PhantomData};
use store_api::{Emit, OpErr, Store};

const MEMORY: OpErr = OpErr::Pool(PoolErr::Memory);

// The lines of an answer on their way to a sink.
pub(crate) struct AnswerLines<'a, K> {
    pub(crate) alloc: Global,
    pub(crate) sink: &'a mut K,
    pub(crate) part: Part,
    // Why nothing more is written, once the sink failed or memory was wanting.
    pub(crate) stopped: Option<QueryErr>,
    pub(crate) rows: u64,
    // The sum of each of these columns over all rows.
    pub(crate) sums: Vec<Agg>,
    pub(crate) totals: Vec<i128>,
}

impl<'a, K: Sink> AnswerLines<'a, K> {
    // Takes a row: its line, and its numbers. Behind an error nothing more is taken.
    fn take(&mut self, row: &[Value]) -> Result<(), OpErr>
        requires { length self.old.totals.items ≡ length self.old.sums.items }
        ensures ok { OnOk result ((before : Begun) (rows : List (List Value)) → self.old.sums.items ≡ map Sum before.columns → HasTaken before rows (lines_now K.Sink self.old) → HasTaken before (rows ++ row.now ∷ []) (lines_now K.Sink self.new)) }
        ensures err { OnErr result ((before : Begun) (rows : List (List Value)) → HasTaken before rows (lines_now K.Sink self.old) → HasTaken before rows (lines_now K.Sink self.new)) }
        ensures fault { IsErrOf result OpErr.Sink → Rose (K.faults self.old.sink.now) (K.faults self.new.sink.now) }
        ensures pool { IfErr result (λ e. (e ≡ OpErr.Sink) ⊎ (e ≡ OpErr.Pool PoolErr.Memory)) }
        ensures never_falls { K.faults self.old.sink.now ≤ K.faults self.new.sink.now }
        ensures name { self.new.sink.ghost_name ≡ self.old.sink.ghost_name }
        ensures sums { self.new.sums ≡ self.old.sums }
    {
        if self.stopped.is_some() {
            return Err(MEMORY);
        }
        let Some(rows) = self.rows.checked_add(1) else {
            return Err(MEMORY);
        };
        let alloc = self.alloc;
        if let Err(e) = self.part.push(alloc, row, self.sink) {
            let why = op_err(&e);
            self.stopped = Some(e);
            return Err(why);
        }
        self.rows = rows;
        take_row(self.totals.as_mut_slice(), row, self.sums.as_slice());
        Ok(())
    }
}

// What a text that wasn't written is to who handed the row on.
fn op_err(e: &QueryErr) -> OpErr
    ensures sink { result ≡ OpErr.Sink → e.now ≡ QueryErr.SinkFault }
    ensures other { (result ≡ OpErr.Sink) ⊎ (result ≡ OpErr.Pool PoolErr.Memory) }
{
    match e {
        QueryErr::SinkFault => OpErr::Sink,
        _ => MEMORY,
    }
}

// What stood before an answer, and which reference to the sink its lines have.
pub(crate) trait Start {
    ghost before: { Begun };

    ghost name: { ℕ };
}

impl Start for Brand {
    ghost use Rattle.std.specs.Prelude.{None, []};

    ghost before = { record { contents = None; faults = record { count = 0; first = None }; front = []; columns = [] } };

    ghost name = { 0 };
}

// Takes rows for these lines.
pub(crate) struct Taker<'a, K, B: Start> {
    pub(crate) lines: AnswerLines<'a, K>,
    pub(crate) of: PhantomData<B>,
}

impl<'a, St: Store, K: Sink, B: Start> Emit<St> for Taker<'a, K, B> {
    ghost took = { λ e h rows. (e.lines.sink.ghost_name ≡ B.name) × (e.lines.sums.items ≡ map Sum B.before.columns) × HasTaken B.before rows (lines_now K.Sink e.lines) };

    ghost admits = { λ e row. ⊤ };

    ghost client = { λ e. None };

    ghost faults = { λ e. K.faults e.lines.sink.now };

    ghost slots = { λ e h. 0 };

    ghost slots_for = { λ e rows. 0 };

    ghost page_blocks = { 0 };

    ghost creates = { λ e. 0 };

    #[tactic(auto, using(store_api::proofs::Growing::grows_refl, store_api::proofs::Untouched::others_stay))]
    fn row(&mut self, _store: &mut St, row: &[Value]) -> Result<(), OpErr> {
        self.lines.take(row)
    }

    ghost asks_own = { λ e old new rows same took. took };

    ghost slots_own = { λ e old new same. refl };

    ghost slots_fit = { λ e h rows took. zero-le };

    ghost slots_whole = { λ e h rows took. (0, refl) };
}
