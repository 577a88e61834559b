// The rows of an input that pass a plan's filter, in batches.

ghost use Rattle.std.specs.Prelude.{◌≡◌, ◌*◌, ◌++◌, ◌<◌, ◌≤◌, All, List, IfErr, IfOk, OnOk, length};
ghost use Rattle.std.specs.List.{flat_map};
ghost use Rattle.row_codec.specs.declared.values.Value.{Value};
ghost use Rattle.query_run.specs.Batches.{MayBeFed, first_rows, rows_in};
ghost use Rattle.query_run.specs.Feeding.{MayBeTaken};
ghost use Rattle.query_run.specs.Passing.{HasGiven, HasGivenAll, HasGone, HasStepped, MayGiveMore, StopsReading};
ghost use Rattle.query_run.specs.Plans.{kinds_of_columns};

use crate::batches::{Batch, MOST_ROWS, Spent};
use crate::feeding::{cause_of, weight};
use csv_edge::Rows;
use fragments::Giver;
use outside::Source;
use query_plan::{Query, QueryErr, Side};
use row_codec::{Memory, Value};
use scan_filter::passes;
use std::alloc::Global;
use std::marker::{Brand, PhantomData};
use std::sync::Wait;

// Which input is read.
pub(crate) trait Reads {
    ghost use Rattle.query_run.specs.Passing.{Input};

    ghost input: { Input };
}

impl Reads for Brand {
    ghost use Rattle.query_run.specs.Passing.{no_input};

    ghost input = { no_input };
}

// How far the reading has come.
#[derive(Clone, Copy, PartialEq, Eq)]
pub enum Stage {
    Reading,
    Ended,
    Stopped,
}

// What a step of the reading has found.
#[derive(Clone, Copy, PartialEq, Eq)]
pub enum Found {
    Passes,
    Fails,
    End,
}

// Rows of an input on their way to fragments. Each is weighed in the order of reading, so that the first refusal is the one that a
// single thread answers.
#[derive(Drop)]
pub struct PassingRows<'a, 'p, 'q, S, R, B> {
    pub(crate) rows: Rows<'a, S>,
    pub(crate) plan: &'p Query,
    pub(crate) page: u64,
    pub(crate) read: u64,
    pub(crate) kept: u64,
    pub(crate) stage: Stage,
    pub(crate) alloc: Global,
    pub(crate) rt: &'q R,
    pub(crate) spent: &'q Spent,
    pub(crate) of: PhantomData<B>,
}

impl<'a, 'p, 'q, S: Source, R: Wait, B: Reads> Giver<Batch<'q, R>, QueryErr>
    for PassingRows<'a, 'p, 'q, S, R, B> {
    ghost ready = { MayGiveMore S.Source B.input };

    ghost gave = { λ a g batches. HasGiven S.Source B.input g (flat_map rows_in batches) };

    ghost ended = { λ a g batches. HasGivenAll S.Source B.input g (flat_map rows_in batches) };

    ghost went = { HasGone S.Source B.input };

    ghost stops = { λ a g e. StopsReading S.Source B.input g e };

    ghost gives = { λ g batch. MayBeFed (kinds_of_columns B.input.plan.left.columns) (16 * length B.input.plan.aggs) B.input.page batch };

    fn next(&mut self) -> Result<Option<Batch<'q, R>>, QueryErr> {
        if self.stage != Stage::Reading {
            return Ok(None);
        }
        let mut rows = match self.spent.pop(self.rt) {
            Some(rows) => rows,
            None => Vec::new(self.alloc),
        };
        let len = self.fill(&mut rows)?;
        if len == 0 {
            return Ok(None);
        }
        Ok(Some(Batch {
            rows,
            len,
            alloc: self.alloc,
            rt: self.rt,
            spent: self.spent,
        }))
    }
}

impl<'a, 'p, 'q, S: Source, R: Wait, B: Reads> PassingRows<'a, 'p, 'q, S, R, B> {
    // Fills rows with those that pass, until there are enough of them or the input ends: how many there are.
    fn fill(&mut self, rows: &mut Vec<Vec<Value>>) -> Result<usize, QueryErr>
        requires ready { MayGiveMore S.Source B.input self.old }
        requires reading { self.old.stage ≡ Stage.Reading }
        ensures len { IfOk result (λ len. len ≤ length rows.new.items) }
        ensures given { IfOk result (λ len. (passing : List (List Value)) → HasGiven S.Source B.input self.old passing → HasGiven S.Source B.input self.new (passing ++ first_rows len rows.new.items)) }
        ensures fed { IfOk result (λ len. All (MayBeTaken (kinds_of_columns B.input.plan.left.columns) (16 * length B.input.plan.aggs) B.input.page) (first_rows len rows.new.items)) }
        ensures none { IfOk result (λ len. len ≡ 0 → self.new.stage ≡ Stage.Ended) }
        ensures ready { MayGiveMore S.Source B.input self.new }
        ensures gone { (from : PassingRows S R B) → HasGone S.Source B.input from self.old → HasGone S.Source B.input from self.new }
        ensures cause { IfErr result (λ e. HasGone S.Source B.input self.old self.old → StopsReading S.Source B.input self.new e) }
    {
        let alloc = self.alloc;
        let mut len = 0;
        while len < MOST_ROWS {
            one_behind(alloc, rows, len)?;
            match self.step(&mut rows[len])? {
                Found::Passes => len += 1,
                Found::Fails => (),
                Found::End => return Ok(len),
            }
        }
        Ok(len)
    }

    // Reads a row, and weighs it: whether it passes, or the input has ended.
    fn step(&mut self, row: &mut Vec<Value>) -> Result<Found, QueryErr>
        requires ready { MayGiveMore S.Source B.input self.old }
        requires reading { self.old.stage ≡ Stage.Reading }
        ensures step { IfOk result (λ found. HasStepped S.Source B.input self.old self.new found row.new.items) }
        ensures fed { IfOk result (λ found. found ≡ Found.Passes → MayBeTaken (kinds_of_columns B.input.plan.left.columns) (16 * length B.input.plan.aggs) B.input.page row.new.items) }
        ensures ready { MayGiveMore S.Source B.input self.new }
        ensures gone { (from : PassingRows S R B) → HasGone S.Source B.input from self.old → HasGone S.Source B.input from self.new }
        ensures cause { IfErr result (λ e. HasGone S.Source B.input self.old self.old → StopsReading S.Source B.input self.new e) }
    {
        let found = match self.rows.next_into(row) {
            Ok(found) => found,
            Err(e) => {
                self.stage = Stage::Stopped;
                return Err(cause_of(Side::Left, e));
            }
        };
        if !found {
            self.stage = Stage::Ended;
            return Ok(Found::End);
        }
        self.read += 1;
        let bytes = weight(self.plan, row);
        if bytes > self.page {
            self.stage = Stage::Stopped;
            return Err(QueryErr::RowTooLong {
                side: Side::Left,
                number: self.read,
                bytes,
            });
        }
        if !passes(self.plan.left.preds.as_slice(), row) {
            return Ok(Found::Fails);
        }
        self.kept += 1;
        Ok(Found::Passes)
    }
}

// A row to be filled stands behind the first ones, of which there are so many.
fn one_behind(alloc: Global, rows: &mut Vec<Vec<Value>>, len: usize) -> Result<(), Memory>
    requires { len ≤ length rows.old.items }
    ensures behind { OnOk result (len < length rows.new.items) }
    ensures same { first_rows len rows.new.items ≡ first_rows len rows.old.items }
{
    if len == rows.len() {
        rows.push(Vec::new(alloc))?;
    }
    Ok(())
}
