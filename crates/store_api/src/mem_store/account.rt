//! What a store in memory keeps of a client.
ghost use Rattle.std.specs.Prelude.{◌≤◌};

#[derive(Clone, Copy)]
pub(crate) struct MemAccount {
    pub(crate) limit: u64,
    pub(crate) reservation: u64,
    pub(crate) unused: u64,
    ghost charge: { unused ≤ reservation },
    ghost room: { reservation ≤ limit },
}
