//! A slot of the table: a page's name, and its entry.

/// An entry under the name that no one but the table writes.
#[derive(Drop)]
pub(crate) struct Row<T> {
    pub(crate) name: u64,
    pub(crate) entry: T,
}
