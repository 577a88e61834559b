// A query as it is written: its columns are names.

use crate::file_name::FileName;
use crate::listed::Listed;
use row_codec::{Bytes, Column, Value};
use scan_filter::Cmp;

/// A query whose keys were read.
#[derive(Drop)]
pub(crate) struct Draft {
    pub page_blocks: u32,
    pub limit: u64,
    pub quota: u32,
    pub output: FileName,
    pub left: SideDraft,
    pub right: Option<SideDraft>,
    pub on: Listed<(Bytes, Bytes)>,
    pub group: Listed<Bytes>,
    pub aggs: Listed<AggDraft>,
    pub fragments: u32,
}

/// One input, with its filter.
#[derive(Drop)]
pub(crate) struct SideDraft {
    pub file: FileName,
    pub columns: Listed<Column>,
    pub filter: Listed<FilterDraft>,
}

/// A comparison of a column with a fixed value.
#[derive(Drop)]
pub(crate) struct FilterDraft {
    pub column: Bytes,
    pub op: Cmp,
    pub value: Value,
}

/// What is computed of a column.
#[derive(Drop)]
pub(crate) enum AggDraft {
    Count,
    Sum(Bytes),
    Min(Bytes),
    Max(Bytes),
}

/// The name of an aggregate.
#[derive(Clone, Copy)]
pub(crate) enum AggWord {
    Count,
    Sum,
    Min,
    Max,
}
