//! What a book knows of one buffer.

/// Whose a live buffer is, and how many blocks it has.
#[derive(Clone, Copy, Debug, PartialEq, Eq)]
pub struct Lent {
    pub client: u32,
    pub blocks: u32,
}
