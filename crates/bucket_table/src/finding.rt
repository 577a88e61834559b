//! The nodes of one chain, the newest first.
ghost use Rattle.std.specs.Prelude.{◌≡◌, ◌%◌, IfSome};
ghost use Rattle.bucket_table.specs.Tables.{HasNode, newest_on, next_on_chain};
ghost use Rattle.bucket_table.specs.Threads.{node_in};

use crate::table::BucketTable;

// The node to which a link goes.
#[inline]
pub(crate) fn node_of(link: u32) -> Option<u32>
    ensures { result ≡ node_in link }
{
    link.checked_sub(1)
}

impl BucketTable {
    /// The newest node on the chain of this hash.
    #[inline]
    pub fn find_first(&self, hash: u64) -> Option<u32>
        ensures value { result ≡ newest_on (hash % self.now.heads) self.now.nodes }
        ensures node { IfSome result (λ node. HasNode node self.now.nodes) }
    {
        node_of(self.heads.link(4 * self.chains.place(hash as usize)))
    }

    /// The next node on the chain of this one, which came before it.
    #[inline]
    pub fn find_next(&self, node: u32) -> Option<u32>
        requires { HasNode node self.now.nodes }
        ensures value { result ≡ next_on_chain node self.now.nodes }
        ensures node { IfSome result (λ next. HasNode next self.now.nodes) }
    {
        node_of(self.nodes.link(node as usize))
    }
}
