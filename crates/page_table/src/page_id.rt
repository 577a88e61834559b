//! What a page is called.

/// A page's name, which is never used again, and the key under which the table finds it.
#[derive(Clone, Copy, Debug, PartialEq, Eq)]
pub struct PageId {
    pub name: u64,
    pub key: u32,
}
