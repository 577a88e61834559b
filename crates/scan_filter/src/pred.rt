// What is asked of one column.

use row_codec::Value;

/// How two values are compared: the row's value stands on the left.
#[derive(Clone, Copy, Debug, PartialEq, Eq)]
pub enum Cmp {
    Eq,
    Ne,
    Lt,
    Le,
    Gt,
    Ge,
}

/// A comparison of the value in a column, counted from 0, with a fixed value.
#[derive(Debug, Drop, PartialEq, Eq)]
pub struct Pred {
    pub column: usize,
    pub op: Cmp,
    pub value: Value,
}
