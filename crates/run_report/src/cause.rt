//! Why something was refused.

use query_plan::{PlanErr, Side};
use reservation_tree::Mark;
use row_codec::Bytes;

/// What came before a refusal. `side` tells which input of a query it was, `number` which record
/// of that input, as the one who read it counts them.
#[derive(Debug, Drop, PartialEq, Eq)]
pub enum Cause {
    /// The words are no command.
    Words,
    /// The bytes of the plan are no plan. `PlanErr::Memory` prints as `Memory` does.
    Plan {
        error: PlanErr,
    },
    /// The plan could not be read.
    PlanInput,
    /// An input could not be read.
    Input {
        side: Side,
    },
    /// An input has no header, or a declared column does not stand in it exactly once.
    Header {
        side: Side,
    },
    /// A record that is no CSV, or has not as many fields as the header.
    Csv {
        side: Side,
        number: u64,
    },
    /// A field that is no value of its column's kind; `name` is the column's, any bytes.
    Field {
        side: Side,
        number: u64,
        name: Bytes,
    },
    /// An input of more bytes, or more records, than is allowed.
    Large {
        side: Side,
    },
    /// A row that is too long; `weight` is what it weighs, in bytes.
    Row {
        side: Side,
        number: u64,
        weight: u64,
    },
    /// The least reservation was refused, by the root tracker or by the query's own. So many bytes
    /// were wanted, and that tracker had room for so many.
    Reservation {
        root: bool,
        wanted: u64,
        room: u64,
    },
    /// A page needs `need` scratch slots, and `free` were free of the query's quota.
    Scratch {
        need: u32,
        free: u32,
    },
    /// No page name is left.
    Names,
    /// A page could not be written; `entry` is where the history has that failure, from 0.
    Write {
        entry: u64,
    },
    /// A page could not be read; `entry` is where the history has that failure, from 0.
    Read {
        entry: u64,
    },
    /// A block came back that is not the one that was last stored there: its mark is `found`, and that one's is `wanted`.
    Stale {
        wanted: Mark,
        found: Mark,
    },
    /// The answer could not be written.
    Output,
    /// No memory was left.
    Memory,
}
