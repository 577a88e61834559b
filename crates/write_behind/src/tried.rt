//! What one try of a writer came to.

/// What one try of a writer came to.
#[derive(Clone, Copy, Debug, PartialEq, Eq)]
pub enum Tried {
    /// The page of this name was stored, and is clean.
    Done(u64),
    /// A store of the page of this name failed, and it is dirty with its bytes.
    Failed(u64),
    /// No page was dirty.
    Nothing,
    /// Writers have to end.
    Closed,
}
