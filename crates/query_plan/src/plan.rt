//! What a document asks for.

use crate::file_name::FileName;
use crate::listed::Listed;
use row_codec::{Agg, Column};
use scan_filter::Pred;

/// The pool, and the queries that share it.
#[derive(Debug, Drop)]
pub struct Plan {
    /// Bytes of a block, a power of two from 64 to 65536.
    pub block_len: u32,
    /// Blocks of the pool, at least 1; together at most 2147483648 bytes.
    pub blocks: u32,
    /// Writers that run beside the queries, at most 8.
    pub writers: u32,
    /// There exactly where the run is to be recorded.
    pub trace: Option<TracePlan>,
    /// From 1 to 16, in the order of the document.
    pub queries: Listed<Query>,
}

/// The record of a run: its first events, as text.
#[derive(Debug, Drop)]
pub struct TracePlan {
    /// Where the text goes.
    pub output: FileName,
    /// The most events that are recorded, from 1 to 1048576.
    pub entries: u32,
}

/// One query: it groups, joins, or joins and groups what it joined.
#[derive(Debug, Drop)]
pub struct Query {
    /// Blocks of a page, a power of two from 1 to 256.
    pub page_blocks: u32,
    /// The most bytes that each session of the query may reserve.
    pub limit: u64,
    /// Scratch slots that are set aside for each session of the query.
    pub quota: u32,
    /// Where the answer goes.
    pub output: FileName,
    pub left: SidePlan,
    /// There exactly where the query joins.
    pub right: Option<SidePlan>,
    /// Columns of the left and of the right input that are equal in a joined row, from 0.
    pub on: Listed<(usize, usize)>,
    /// Columns of the row that is grouped, from 0; none where the query does not group.
    pub group: Listed<usize>,
    /// What is computed over each group.
    pub aggs: Listed<Agg>,
    /// How many threads feed the groups beside the one that reads, from 1 to 8; with 1 the reading thread does all.
    /// More than 1 only where the query groups and doesn't join.
    pub fragments: u32,
}

/// One input of a query.
#[derive(Debug, Drop)]
pub struct SidePlan {
    pub file: FileName,
    /// From 1 to 64; other columns of the file are passed over.
    pub columns: Listed<Column>,
    /// What a row has to meet.
    pub preds: Listed<Pred>,
}

/// Which input of a query.
#[derive(Clone, Copy, Debug, PartialEq, Eq)]
pub enum Side {
    Left,
    Right,
}
