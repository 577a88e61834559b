//! What a seat knows. No value of these types is made: they stand in contracts and proofs alone.

use std::collections::LinkedList;

/// Whose seat it is.
pub enum Role {
    /// The seat that splits and joins. It counts the seats that are out.
    First(u64),
    /// A seat that was split off.
    Other,
}

/// Where a seat stands between two turns.
pub enum Stage {
    /// It has no ticket.
    Idle,
    /// It has this ticket, which is not served yet.
    Waiting(u64),
    /// Its ticket is served. Whoever has the seat has the value.
    Turn(u64),
    /// It was joined to the first seat, and is gone.
    Spent,
}

/// What a seat knows. Entries run from the oldest to the newest.
pub struct View<E> {
    pub role: Role,
    pub stage: Stage,
    /// A beginning of the one list.
    pub seen: LinkedList<E>,
    /// The entries that were added in the seat's own turns.
    pub made: LinkedList<E>,
    /// The shorter of the two lists that met in the last join. Empty before that, and again from the next turn on.
    pub told: LinkedList<E>,
    /// The rights of the seat that had this shorter list: no entry of `seen` behind it needs one of them. Entries of a
    /// later turn may, so each turn empties both fields.
    pub spared: LinkedList<u32>,
    /// An entry that needs one of these stands in `seen`, or nowhere.
    pub rights: LinkedList<u32>,
}
