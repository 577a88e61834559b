//! An emitter with a client, for tests.
ghost use Rattle.std.specs.Prelude.{◌≡◌, ◌≤◌, length, Some, ⊤, refl};
ghost use Rattle.std.proofs.Common.{zero-le};
ghost use Rattle.store_api.specs.Holdings.{unused_of};
ghost use Rattle.store_api.specs.Conditions.{IsIdle};
ghost use Rattle.store_api.specs.OwnLaws.{still_pays, still_idle};

use reservation_tree::PoolErr;
use row_codec::Value;
use std::alloc::Global;
use store_api::{Client, Emit, OpErr, Store};

/// How many rows it took. For each row it makes a page of one block under its client, and destroys it. Between rows
/// its client has no page and no loan, and a block's length unused.
pub(crate) struct PageRows {
    pub(crate) alloc: Global,
    pub(crate) client: Client,
    pub(crate) rows: u64,
}

impl<St: Store> Emit<St> for PageRows {
    ghost took = { λ e h rows. (length rows ≡ e.rows) × (h.block_len ≤ unused_of e.client.tracker h) × IsIdle e.client.tracker h };

    ghost admits = { λ e row. ⊤ };

    ghost client = { λ e. Some e.client.tracker };

    ghost faults = { λ e. 0 };

    ghost slots = { λ e h. 0 };

    ghost slots_for = { λ e rows. 0 };

    ghost page_blocks = { 1 };

    ghost creates = { λ e. e.rows };

    #[tactic(auto, using(store_api::proofs::Growing::grows_trans, store_api::proofs::Growing::grows_refl))]
    fn row(&mut self, store: &mut St, _row: &[Value]) -> Result<(), OpErr> {
        let Some(rows) = self.rows.checked_add(1) else {
            return Err(OpErr::Pool(PoolErr::Memory));
        };
        let (page, buf) = store.create(self.alloc, &self.client, 1)?;
        store.destroy(page, Some(buf));
        self.rows = rows;
        Ok(())
    }

    ghost asks_own = { λ e old new rows same took. (took.0, still_pays e.client.tracker old new same took.1, still_idle e.client.tracker old new same took.2) };

    ghost slots_own = { λ e old new same. refl };

    ghost slots_fit = { λ e h rows took. zero-le };

    ghost slots_whole = { λ e h rows took. (0, refl) };
}
