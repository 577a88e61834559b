//! What the calls of one owner take that may write pages first.
use block_arena::Buf;
use std::alloc::Global;
use store_api::{Client, Loan, Page};

/// A client, and so many bytes of its reservation.
pub struct Shrinking<'a> {
    pub client: &'a Client,
    pub bytes: u64,
}

/// Two clients, and so many bytes of reservation from the one to the other.
pub struct Passing<'a> {
    pub from: &'a Client,
    pub to: &'a Client,
    pub bytes: u64,
}

/// A client, and so many blocks for it, which have so many bytes.
pub struct Coming<'a> {
    pub alloc: Global,
    pub client: &'a Client,
    pub blocks: u32,
    pub bytes: u64,
}

/// A loan, and the client that it is to be charged to.
pub struct Handing<'a> {
    pub loan: Loan,
    pub to: &'a Client,
}

/// A page, with its buffer where it is pinned.
pub struct Ending {
    pub page: Page,
    pub buf: Option<Buf>,
}
