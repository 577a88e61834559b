//! How much memory a session of a query asks for at least, and how many sessions a query has.

ghost use Rattle.std.specs.Prelude.{◌≡◌, ◌≤◌, ◌^◌};
ghost use Rattle.query_plan.specs.Sizes.{least_of, sessions_of, slots_of};

use crate::plan::Query;

// Pages that an operator needs to partition its input.
const OPERATOR_PAGES: u64 = 20;

/// The least reservation of each session, in bytes: 20 pages for an operator. A query that joins and groups has
/// two operators, each other query has one.
pub fn least(q: &Query, block_len: u32) -> u64
    requires page { q.now.page_blocks ≤ 256 }
    requires block { block_len ≤ 65536 }
    ensures least { result ≡ least_of q.now block_len }
{
    let page = u64::from(q.page_blocks) * u64::from(block_len);
    let groups = !q.group.as_slice().is_empty();
    let operators = if q.right.is_some() && groups { 2 } else { 1 };
    operators * OPERATOR_PAGES * page
}

/// How many sessions a query has: one, or where it has several fragments one for each of them and one for the thread
/// that reads.
pub fn sessions(q: &Query) -> u64
    ensures sessions { result ≡ sessions_of q.now }
    ensures few { result ≤ 2 ^ 32 }
{
    if q.fragments <= 1 {
        1
    } else {
        u64::from(q.fragments) + 1
    }
}

/// How many slots the sessions of a query set aside together.
pub fn slots_of(q: &Query) -> u64
    ensures { result ≡ slots_of q.now }
{
    u64::from(q.quota) * sessions(q)
}
