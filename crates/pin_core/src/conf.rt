//! With what a pool opens.

/// The numbers with which a pool opens.
#[derive(Clone, Copy, Debug, PartialEq, Eq)]
pub struct PoolConf {
    /// How many blocks it has: 1 to 1048576, and at most 2147483648 bytes together.
    pub blocks: u32,
    /// The length of a block in bytes: a power of two, from 64 to 65536.
    pub block_len: u32,
    /// The name of its first page.
    pub first_name: u64,
    /// How blocks lie in slots: 1 for bare ones, 2 for blocks behind their marks.
    pub profile: u32,
    /// How many of its first entries a pool keeps that sessions share: any number. Memory for all of them is taken when
    /// it opens. 0 keeps none, and needs none.
    pub trace: u32,
}
