// Rows that go to a fragment together.

ghost use Rattle.std.specs.Prelude.{◌≡◌, ◌≤◌, length};
ghost use Rattle.query_run.specs.Batches.{rows_in};

use crossbeam_queue::ArrayQueue;
use row_codec::Value;
use std::alloc::Global;
use std::sync::Wait;

// The most rows of a batch.
pub(crate) const MOST_ROWS: usize = 64;

// Lists of rows that were fed, which are filled again.
pub(crate) type Spent = ArrayQueue<Vec<Vec<Value>>>;

// Some rows: the first `len` of the list. The others are there to be filled.
#[derive(Drop)]
pub struct Batch<'q, R> {
    pub(crate) rows: Vec<Vec<Value>>,
    pub(crate) len: usize,
    pub(crate) alloc: Global,
    pub(crate) rt: &'q R,
    pub(crate) spent: &'q Spent,
}

impl<'q, R: Wait> Batch<'q, R> {
    // Lets its rows be filled again. Where there are more than enough, they go.
    pub(crate) fn give_back(self) {
        let Batch {
            rows,
            len: _,
            alloc: _,
            rt,
            spent,
        } = self;
        let _ = spent.push(rt, rows);
    }
}
