//! With what a pool opened, for contracts alone.
use std::marker::Brand;

/// Names with what a pool opened, for contracts alone: its numbers; what stands above the queries of its sessions, and whether
/// each slot told what it held; and what its slots counted. Who has a pool alone may name nothing of that. Beside it stands at
/// which turn lock its sessions sit: whoever borrows a session as a store tells of it what the clauses of a store tell, and not at
/// which lock it still sits, but a name in its type does. A call at `Brand` picks it; where none is picked nothing is named.
pub trait Opened {
    ghost use Rattle.std.specs.Prelude.{Bool, Option};
    ghost use Rattle.atomic_table.specs.Seated.{TableId};
    ghost use Rattle.pool_model.specs.State.{Opening};
    ghost use Rattle.own_entries.specs.OwnHoldings.{Outset};
    ghost use Rattle.pin_core.specs.declared.tally.Tally.{Tally};

    ghost opening: { Opening };

    ghost outset: { Outset };

    ghost first: { Tally };

    // Whether these are what the pool opened with.
    ghost named: { Bool };

    ghost table: { Option TableId };
}

impl Opened for Brand {
    ghost use Rattle.std.specs.Prelude.{None, false};
    ghost use Rattle.store_api.specs.Holdings.{Shared};
    ghost use Rattle.session_calls.specs.Outgoing.{no_tally};

    ghost opening = { record { blocks = 0; block_len = 0; marked = false; first_name = 0; slots = 0; faults = 0; stores = 0 } };

    ghost outset = { record { above = Shared; told = false } };

    ghost first = { no_tally };

    ghost named = { false };

    ghost table = { None };
}
