//! A row is looked up by some of its bytes.
ghost use Rattle.std.specs.Prelude.{◌≡◌, ◌+◌, ◌%◌, ◌<◌, ◌≤◌, ◌↔◌, true, length, IfSome};
ghost use Rattle.bucket_table.specs.Tables.{HasNode, next_on_chain, part_of, row_of};
ghost use Rattle.bucket_table.specs.Looking.{newest_showing};
ghost use Rattle.bucket_table.specs.Regions.{cut, link_at};
ghost use Rattle.bucket_table.specs.Threads.{node_in};

use crate::finding::node_of;
use crate::numbers::spelled;
use crate::same::are_same;
use crate::table::BucketTable;

// What a look at a node shows: the next one on its chain, and whether the bytes that are looked for stand in its row.
#[derive(Clone, Copy)]
struct Look {
    next: Option<u32>,
    shows: bool,
}

// Looks at a node in its first bytes, which reach to the end of those that are looked for.
#[inline]
fn look_in(front: &[u8], at: usize, end: usize, bytes: &[u8]) -> Look
    requires end { at + length bytes.now ≡ end }
    requires head { 8 ≤ length front.now }
    requires reach { 4 + end ≤ length front.now }
    ensures next { result.next ≡ node_in (link_at front.now 0) }
    ensures shows { result.shows ≡ true ↔ (end ≤ link_at front.now 4 + 4) × (cut (4 + at) (length bytes.now) front.now ≡ bytes.now) }
{
    let next = node_of(spelled(&front[..4]));
    let len = spelled(&front[4..8]) as usize + 4;
    if end > len {
        return Look { next, shows: false };
    }
    let shows = are_same(&front[4 + at..4 + end], bytes);
    Look { next, shows }
}

impl BucketTable {
    // Looks at a node once, for both.
    #[inline(always)]
    fn look_at(&self, node: u32, at: usize, bytes: &[u8]) -> Look
        requires node { HasNode node self.now.nodes }
        requires some { 0 < length bytes.now }
        ensures next { result.next ≡ next_on_chain node self.now.nodes }
        ensures shows { result.shows ≡ true ↔ (part_of at (length bytes.now) (row_of node self.now.nodes) ≡ bytes.now) }
    {
        let end = at.saturating_add(bytes.len());
        let count = end.max(4).saturating_add(4);
        match self.nodes.piece(node as usize, count) {
            Some(front) => look_in(front, at, end, bytes),
            None => self.look_across(node, at, bytes),
        }
    }

    // The same, of a node that may lie in several blocks.
    #[inline(never)]
    fn look_across(&self, node: u32, at: usize, bytes: &[u8]) -> Look
        requires { HasNode node self.now.nodes }
        ensures next { result.next ≡ next_on_chain node self.now.nodes }
        ensures shows { result.shows ≡ true ↔ (part_of at (length bytes.now) (row_of node self.now.nodes) ≡ bytes.now) }
    {
        Look {
            next: self.find_next(node),
            shows: self.shows_at(node, at, bytes),
        }
    }

    /// The newest node on the chain of this hash whose row shows these bytes, from a place in it on. This takes no
    /// memory and copies nothing.
    #[inline(always)]
    pub fn find_row(&self, hash: u64, at: usize, bytes: &[u8]) -> Option<u32>
        ensures value { result ≡ newest_showing (hash % self.now.heads) at bytes.now self.now.nodes }
        ensures node { IfSome result (λ node. HasNode node self.now.nodes) }
        ensures shows { IfSome result (λ node. part_of at (length bytes.now) (row_of node self.now.nodes) ≡ bytes.now) }
    {
        let _heads = &self.heads;
        let mut next = self.find_first(hash);
        if bytes.is_empty() {
            return next;
        }
        while let Some(node) = next {
            let look = self.look_at(node, at, bytes);
            if look.shows {
                return Some(node);
            }
            next = look.next;
        }
        None
    }
}
