//! An emitter that counts its rows, for tests.
ghost use Rattle.std.specs.Prelude.{◌≡◌, length, None, ⊤, refl};
ghost use Rattle.std.proofs.Common.{zero-le};

use reservation_tree::PoolErr;
use row_codec::Value;
use store_api::{Emit, OpErr, Store};

/// How many rows it took. It has no client.
#[derive(Clone, Copy, Debug, PartialEq, Eq)]
pub(crate) struct RowCount {
    pub(crate) rows: u64,
}

impl<St: Store> Emit<St> for RowCount {
    ghost took = { λ e h rows. length rows ≡ e.rows };

    ghost admits = { λ e row. ⊤ };

    ghost client = { λ e. None };

    ghost faults = { λ e. 0 };

    ghost slots = { λ e h. 0 };

    ghost slots_for = { λ e rows. 0 };

    ghost page_blocks = { 0 };

    ghost creates = { λ e. 0 };

    #[tactic(auto, using(store_api::proofs::Growing::grows_refl, store_api::proofs::Untouched::others_stay))]
    fn row(&mut self, _store: &mut St, _row: &[Value]) -> Result<(), OpErr> {
        match self.rows.checked_add(1) {
            Some(rows) => {
                self.rows = rows;
                Ok(())
            }
            None => Err(OpErr::Pool(PoolErr::Memory)),
        }
    }

    ghost asks_own = { λ e old new rows same took. took };

    ghost slots_own = { λ e old new same. refl };

    ghost slots_fit = { λ e h rows took. zero-le };

    ghost slots_whole = { λ e h rows took. (0, refl) };
}
