//! Rows are put on their chains.
ghost use Rattle.std.specs.Prelude.{◌≡◌, ◌+◌, ◌*◌, ◌%◌, ◌^◌, ◌<◌, ◌≤◌, List, length};
ghost use Rattle.std.specs.Int.{w32, to_be_bytes};
ghost use Rattle.block_arena.specs.Bytes.{written};
ghost use Rattle.bucket_table.specs.Regions.{cut, link_at, with_bytes};
ghost use Rattle.bucket_table.specs.Tables.{Node};
ghost use Rattle.bucket_table.specs.Rethreading.{HasRows, Rethreads};

use crate::area::Area;
use crate::chains::Chains;
use crate::hashing::RowHash;

// Puts a node in front of the chain of this hash.
#[inline]
pub(crate) fn thread(heads: &mut Area, nodes: &mut Area, chains: Chains, node: usize, hash: u64)
    requires heads { 4 * chains.len ≤ length heads.old.bytes }
    requires few { 4 * chains.len < 2 ^ 32 }
    requires inside { node + 4 ≤ length nodes.old.bytes }
    requires short { length nodes.old.bytes < 2 ^ 32 }
    ensures head { heads.new ≡ with_bytes (written (4 * (hash % chains.len)) (to_be_bytes w32 (node + 1)) heads.old.bytes) heads.old }
    ensures link { nodes.new ≡ with_bytes (written node (to_be_bytes w32 (link_at heads.old.bytes (4 * (hash % chains.len)))) nodes.old.bytes) nodes.old }
{
    let head = 4 * chains.place(hash as usize);
    let next = heads.link(head);
    nodes.set_link(node, next);
    heads.set_link(head, node as u32 + 1);
}

// The hash of the row of so many bytes at a place. A row that straddles blocks is copied first.
fn hash_of_row<H: RowHash>(
    nodes: &Area,
    at: usize,
    len: usize,
    hasher: &H,
    scratch: &mut [u8],
) -> u64
    requires some { 0 < len }
    requires inside { at + len ≤ length nodes.now.bytes }
    requires scratch { len ≤ length scratch.old }
    ensures value { result ≡ H.hash hasher.now (cut at len nodes.now.bytes) }
    ensures scratch { length scratch.new ≡ length scratch.old }
{
    if let Some(row) = nodes.piece(at, len) {
        return hasher.hash_row(row);
    }
    let row = &mut scratch[..len];
    nodes.read(at, row);
    hasher.hash_row(row)
}

// Puts all rows on the chains of their hashes, of which there are so many: the oldest first, so that the newest one of a
// chain comes to its front. `scratch` has room for each of them.
pub(crate) fn rethread<H: RowHash>(
    heads: &mut Area,
    nodes: &mut Area,
    chains: Chains,
    used: usize,
    hasher: &H,
    scratch: &mut [u8],
)
    requires rows { (rows : List Node) × HasRows rows used (length scratch.old) nodes.old.bytes }
    requires heads { 4 * chains.len ≤ length heads.old.bytes }
    requires few { 4 * chains.len < 2 ^ 32 }
    ensures { (rows : List Node) → HasRows rows used (length scratch.old) nodes.old.bytes → Rethreads (H.hash hasher.now) rows chains.len used heads.old nodes.old heads.new nodes.new }
{
    heads.zero();
    let mut node = 0;
    while node < used {
        let len = nodes.link(node + 4) as usize + 4;
        let hash = hash_of_row(nodes, node + 4, len, hasher, scratch);
        thread(heads, nodes, chains, node, hash);
        node += 4 + len;
    }
}
