//! What sessions are asked for.

/// So many sessions, all alike, and all of them or none.
#[derive(Clone, Copy, Debug, PartialEq, Eq)]
pub struct Ask {
    /// How many bytes each may reserve.
    pub limit: u64,
    /// How many slots the pages of each may take.
    pub quota: u32,
    /// How many bytes each has reserved from the start.
    pub least: u64,
    /// How many there are, at least 1.
    pub count: u32,
}
