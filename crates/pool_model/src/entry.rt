//! The entries of a history.

use crate::event::Event;
use crate::maker::Maker;

/// An event and its maker. A history is a list of entries, the oldest first, and numbers them from 0.
#[derive(Drop)]
pub struct Entry {
    pub maker: Maker,
    pub event: Event,
}
