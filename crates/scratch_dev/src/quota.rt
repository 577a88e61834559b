//! A number of slots that are set aside.

/// The slots of a quota: those that are free, and those that are in rows. Together they are its size.
#[derive(Clone, Copy)]
pub(crate) struct Quota {
    pub(crate) free: u32,
    pub(crate) lent: u32,
}
