//! Why a row was not inserted.

use thiserror::Error;

/// The node area has no room for the row.
#[derive(Clone, Copy, Debug, PartialEq, Eq, Error)]
#[error("the table is full")]
pub struct Full;
