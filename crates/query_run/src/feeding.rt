// The rows of an input go to an operator.

ghost use Rattle.std.specs.Prelude.{◌≡◌, ◌≢◌, ◌*◌, ◌-◌, ◌≤◌, ◌<◌, ◌^◌, ◌∷◌, ◌++◌, [], List, IfErr, IfOk, OnErr, OnOk, filter, length, min};
ghost use Rattle.std.specs.Io.KnownBytes.{IsAtEnd};
ghost use Rattle.row_codec.specs.declared.values.Value.{Value};
ghost use Rattle.row_codec.specs.Row.{kinds_of};
ghost use Rattle.scan_filter.specs.Passes.{passes as passes_all};
ghost use Rattle.store_api.specs.Holdings.{Holdings};
ghost use Rattle.store_api.specs.Signs.{Signs};
ghost use Rattle.query_run.specs.Causes.{OfPool, cause_of_input};
ghost use Rattle.query_run.specs.Feeding.{AreFirstOf, HasFed, OfTaken, RefusesRow};
ghost use Rattle.query_run.specs.Input.{weight_of};
ghost use Rattle.query_run.specs.Plans.{IsSide, kinds_of_columns};
ghost use Rattle.query_run.specs.Refused.{SaysOfSide, input_over};
ghost use Rattle.query_run.specs.Taking.{TakesStill};
ghost use Rattle.query_run.specs.Through.{taken_of};

use crate::takes::Takes;
use csv_edge::{InputErr, Rows};
use outside::Source;
use query_plan::{Query, QueryErr, Side, SidePlan};
use reservation_tree::PoolErr;
use row_codec::{Value, encoded_len};
use scan_filter::passes;
use std::alloc::Global;
use store_api::Store;

// The most records of an input, the header among them.
pub(crate) const MOST_RECORDS: u64 = 2147483648;

// The most bytes of an input.
pub(crate) const MOST_BYTES: u64 = 1099511627776;

// What an aggregate adds to the weight of a row.
pub(crate) const AGGREGATE: u64 = 16;

// How many rows were read, and how many of them passed the filter.
#[derive(Clone, Copy)]
pub(crate) struct Fed {
    pub(crate) read: u64,
    pub(crate) kept: u64,
}

// Reads what is left of the source of a side to its end, and feeds the rows that pass to an operator. A page has `page` bytes.
pub(crate) fn feed_side<St: Store, T: Takes<St>, S: Source>(
    alloc: Global,
    store: &mut St,
    op: &mut T,
    plan: &Query,
    side: Side,
    asked: &SidePlan,
    page: u64,
    source: &mut S,
) -> Result<Fed, QueryErr>
    requires asked { IsSide asked.now }
    requires aggs { length plan.now.aggs ≤ 16 }
    requires kinds { T.kinds op.old ≡ kinds_of_columns asked.now.columns }
    requires extra { T.extra op.old ≤ 16 * length plan.now.aggs }
    requires stands { T.stands op.old (St.holds store.old) (St.signs store.old) }
    requires feeds { T.feeds op.old op.old [] (St.holds store.old) (St.holds store.old) (St.signs store.old) (St.signs store.old) }
    requires goes { T.goes op.old op.old (St.holds store.old) (St.holds store.old) (St.signs store.old) (St.signs store.old) }
    requires makes { T.makes op.old op.old [] (St.holds store.old) (St.signs store.old) (St.signs store.old) }
    requires memory { (after : Signs) → T.stops op.old (St.holds store.old) (St.signs store.old) after PoolErr.Memory }
    requires none { T.wants op.old [] (St.holds store.old) (St.signs store.old) PoolErr.Memory }
    requires page { page ≡ T.page op.old (St.holds store.old) }
    requires short { page < 2 ^ 32 }
    ensures ok { IfOk result (λ fed. HasFed plan.now side asked.now page (S.remaining source.old) fed (λ rows. T.feeds op.old op.new rows (St.holds store.old) (St.holds store.new) (St.signs store.old) (St.signs store.new))) }
    ensures read { OnOk result (IsAtEnd (S.remaining source.new)) }
    ensures input { IfErr result (SaysOfSide plan.now side asked.now page (input_over S.Source source.old source.new)) }
    ensures cause { IfErr result (λ e. e ≢ QueryErr.SinkFault) }
    ensures pool { IfErr result (OfPool (T.stops op.old (St.holds store.old) (St.signs store.old) (St.signs store.new))) }
    ensures enough { IfErr result (OfPool (λ e. OfTaken plan.now asked.now page (S.remaining source.old) (λ rows. T.wants op.old rows (St.holds store.old) (St.signs store.old) e))) }
    ensures few { OfTaken plan.now asked.now page (S.remaining source.old) (λ rows. T.makes op.old op.new rows (St.holds store.old) (St.signs store.old) (St.signs store.new)) }
    ensures stands { T.stands op.new (St.holds store.new) (St.signs store.new) }
    ensures goes { T.goes op.old op.new (St.holds store.old) (St.holds store.new) (St.signs store.old) (St.signs store.new) }
    ensures source_kept { S.faults source.old ≤ S.faults source.new }
{
    let mut row = Vec::new(alloc);
    let mut rows = Rows::of(source);
    let columns = asked.columns.as_slice();
    if let Err(e) = rows.start(alloc, columns, MOST_RECORDS, MOST_BYTES) {
        return Err(cause_of(side, e));
    }
    let mut fed = Fed { read: 0, kept: 0 };
    loop {
        match rows.next_into(&mut row) {
            Ok(true) => (),
            Ok(false) => return Ok(fed),
            Err(e) => return Err(cause_of(side, e)),
        }
        fed.read += 1;
        if feed_row(alloc, store, op, plan, side, asked, page, fed.read, &row)? {
            fed.kept += 1;
        }
    }
}

// Weighs a row, and feeds it if it passes the filter: whether it did. It is the record of this number.
#[inline(always)]
fn feed_row<St: Store, T: Takes<St>>(
    alloc: Global,
    store: &mut St,
    op: &mut T,
    plan: &Query,
    side: Side,
    asked: &SidePlan,
    page: u64,
    number: u64,
    row: &[Value],
) -> Result<bool, QueryErr>
    requires asked { IsSide asked.now }
    requires aggs { length plan.now.aggs ≤ 16 }
    requires takes { T.kinds op.old ≡ kinds_of_columns asked.now.columns }
    requires extra { T.extra op.old ≤ 16 * length plan.now.aggs }
    requires stands { T.stands op.old (St.holds store.old) (St.signs store.old) }
    requires page { page ≡ T.page op.old (St.holds store.old) }
    requires short { page < 2 ^ 32 }
    requires kinds { kinds_of row.now ≡ kinds_of_columns asked.now.columns }
    ensures light { OnOk result (weight_of plan.now row.now ≤ page) }
    ensures feeds { IfOk result (λ passed. (passed ≡ passes_all asked.now.preds row.now) × ((first : T) (rows : List (List Value)) (h : Holdings) (s : Signs) → T.feeds first op.old rows h (St.holds store.old) s (St.signs store.old) → T.feeds first op.new (rows ++ filter (passes_all asked.now.preds) (row.now ∷ [])) h (St.holds store.new) s (St.signs store.new))) }
    ensures few { OnOk result ((first : T) (rows : List (List Value)) (h : Holdings) (s : Signs) → T.feeds first op.old rows h (St.holds store.old) s (St.signs store.old) → T.makes first op.old rows h s (St.signs store.old) → T.makes first op.new (rows ++ filter (passes_all asked.now.preds) (row.now ∷ [])) h s (St.signs store.new)) }
    ensures few_then { OnErr result ((first : T) (rows : List (List Value)) (h : Holdings) (s : Signs) → T.feeds first op.old rows h (St.holds store.old) s (St.signs store.old) → T.makes first op.old rows h s (St.signs store.old) → (some : List (List Value)) × AreFirstOf some (taken_of plan.now asked.now page (row.now ∷ [])) × T.makes first op.new (rows ++ some) h s (St.signs store.new)) }
    ensures refused { IfErr result (RefusesRow plan.now side page number row.now) }
    ensures pool { IfErr result (λ e. (first : T) (h : Holdings) (s : Signs) → T.goes first op.old h (St.holds store.old) s (St.signs store.old) → OfPool (T.stops first h s (St.signs store.new)) e) }
    ensures enough { IfErr result (λ e. (first : T) (rows : List (List Value)) (h : Holdings) (s : Signs) → T.feeds first op.old rows h (St.holds store.old) s (St.signs store.old) → T.goes first op.old h (St.holds store.old) s (St.signs store.old) → OfPool (λ why. (some : List (List Value)) × AreFirstOf some (taken_of plan.now asked.now page (row.now ∷ [])) × T.wants first (rows ++ some) h s why) e) }
    ensures stands { T.stands op.new (St.holds store.new) (St.signs store.new) }
    ensures goes { (first : T) (h : Holdings) (s : Signs) → T.goes first op.old h (St.holds store.old) s (St.signs store.old) → T.goes first op.new h (St.holds store.new) s (St.signs store.new) }
    ensures still { TakesStill (T.kinds op.old) (T.kinds op.new) (T.extra op.old) (T.extra op.new) (T.page op.old (St.holds store.old)) (T.page op.new (St.holds store.new)) }
{
    let bytes = weight(plan, row);
    if bytes > page {
        return Err(QueryErr::RowTooLong {
            side,
            number,
            bytes,
        });
    }
    if !passes(asked.preds.as_slice(), row) {
        return Ok(false);
    }
    match op.take(alloc, store, row) {
        Ok(()) => Ok(true),
        Err(e) => Err(QueryErr::Pool(e)),
    }
}

// What a row weighs, or the greatest number of 64 bits.
pub(crate) fn weight(plan: &Query, row: &[Value]) -> u64
    requires { length plan.now.aggs ≤ 16 }
    ensures { result ≡ min (weight_of plan.now row.now) (2 ^ 64 - 1) }
{
    let aggregates = plan.aggs.as_slice().len() as u64;
    let once = encoded_len(row).saturating_add(AGGREGATE * aggregates);
    let operators = if plan.right.is_some() && !plan.group.as_slice().is_empty() {
        2
    } else {
        1
    };
    once.saturating_mul(operators)
}

// What the refusal of an input is to the query that reads it.
pub(crate) fn cause_of(side: Side, e: InputErr) -> QueryErr
    ensures { result ≡ cause_of_input side e }
{
    match e {
        InputErr::Fault => QueryErr::SourceFault { side },
        InputErr::Header => QueryErr::BadHeader { side },
        InputErr::Csv { number } => QueryErr::BadCsv { side, number },
        InputErr::Field { number, column } => QueryErr::BadField {
            side,
            number,
            column,
        },
        InputErr::TooLarge => QueryErr::TooLarge { side },
        InputErr::Memory => QueryErr::Pool(PoolErr::Memory),
    }
}
