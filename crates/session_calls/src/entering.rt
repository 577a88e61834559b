//! A history grows.
ghost use Rattle.std.specs.Prelude.{◌≡◌, ◌++◌, ◌∷◌, []};
ghost use Rattle.pin_core.specs.calls.Evictions.{evictions};

use crate::log::Log;
use pin_core::EvictedPages;
use pool_model::Event;
use std::marker::Brand;

/// This event of the maker was entered.
#[inline]
pub fn enter(trail: &mut Log, maker: u32, event: Event)
    ensures { trail.new ≡ trail.old ++ record { maker = maker; event = event } ∷ [] }
{
    trail.enter::<Brand>(maker, &event);
}

// These pages were evicted, one after the other.
#[inline]
pub(crate) fn enter_evicted(trail: &mut Log, maker: u32, gone: &EvictedPages)
    ensures { trail.new ≡ trail.old ++ evictions maker gone.now }
{
    for page in gone.names() {
        enter(trail, maker, Event::Evict { page: *page });
    }
}
