//! The account of one client.
use reservation_tree::TrackerId;

/// The tracker of one client, and what it may still charge, in bytes.
#[derive(Clone, Copy, Debug, PartialEq, Eq)]
pub struct ClientAccount {
    pub tracker: TrackerId,
    pub unused: u64,
}
