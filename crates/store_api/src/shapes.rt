//! What operators are told of their rows. Columns count from 0.

use crate::listed::Listed;
use row_codec::{Agg, Kind};

/// A grouping: the kinds of its rows, the columns of its keys, and what is computed over each group.
#[derive(Drop)]
pub struct Shape {
    pub kinds: Listed<Kind>,
    pub keys: Listed<usize>,
    pub aggs: Listed<Agg>,
}

/// A join: the kinds of the rows of both sides, and the columns that are to be equal, a left one and a right
/// one each.
#[derive(Drop)]
pub struct JoinShape {
    pub left: Listed<Kind>,
    pub right: Listed<Kind>,
    pub on: Listed<(usize, usize)>,
}
