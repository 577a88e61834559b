//! An entry of the table, and the two ways to change one.
ghost use Rattle.std.specs.Prelude.{◌<◌, length};
ghost use Rattle.index_list.specs.Threads.{threads_of, Joins, Notes};

/// What the table says of a node, or of a list's end.
#[derive(Clone, Copy, Drop)]
pub(crate) struct Link {
    /// The entry that follows: a node, or a list's end.
    pub(crate) next: u32,
    /// The entry that this one follows.
    pub(crate) prev: u32,
    /// The list that the node is on, or `NOWHERE`.
    pub(crate) list: u32,
}

/// The number of no list. What a node on no list says of other entries means nothing.
pub(crate) const NOWHERE: u32 = u32::MAX;

/// Lets the entry `after` follow the entry `before`.
#[inline]
pub(crate) fn join(links: &mut [Link], before: u32, after: u32)
    requires before_in { before < length links.old }
    requires after_in { after < length links.old }
    ensures { Joins (threads_of links.old) (threads_of links.new) before after }
{
    links[before as usize].next = after;
    links[after as usize].prev = before;
}

/// Notes which list the node is on.
#[inline]
pub(crate) fn note(links: &mut [Link], node: u32, list: u32)
    requires { node < length links.old }
    ensures { Notes (threads_of links.old) (threads_of links.new) node list }
{
    links[node as usize].list = list;
}
