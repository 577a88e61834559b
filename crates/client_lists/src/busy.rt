//! The clients that have a dirty page, on one list of their own.
ghost use Rattle.std.specs.Prelude.{◌≡◌, ◌<◌, length};
ghost use Rattle.client_lists.specs.Inside.{Settles};

use index_list::Lists;

/// The number of the one list.
pub(crate) const BUSY: u32 = 0;

/// Lets the client stand among the busy ones exactly where it has a dirty page.
#[inline]
pub(crate) fn settle(busy: &mut Lists, client: u32, has_dirty: bool)
    requires one { length busy.old.lists ≡ 1 }
    requires client_in { client < busy.old.nodes }
    ensures { Settles client has_dirty busy.old busy.new }
{
    let stands = busy.list_of(client).is_some();
    if stands == has_dirty {
        return;
    }
    if has_dirty {
        busy.push_back(BUSY, client);
    } else {
        busy.remove(client);
    }
}
