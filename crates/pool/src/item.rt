//! What the list under the turn lock has.
use pool_model::Entry;
use session_calls::Count;

/// One item of the list: an entry of the history, and whether a session came or went by it; or what slots counted.
pub enum Item {
    /// A session came or went, by whoever has the door.
    Seated { entry: Entry },
    /// Anything else that was done in the pool.
    Made { entry: Entry },
    /// Slots went out with a job of this maker.
    Went { maker: u32, count: Count },
    /// Writers have to end, by whoever has the door.
    Stop,
}
