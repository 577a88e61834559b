//! An emitter: it takes the rows of an operator, one at a time, and keeps those that are asked for.
//!
//! It has no client, so it keeps them in memory of the process. One that has a client keeps rows on pages of the same store:
//! its members then tell which client, how many slots its pages may take, and how many pages it made.

ghost use Rattle.std.specs.Prelude.{◌≡◌, length, None, ⊤, refl};
ghost use Rattle.std.proofs.Common.{zero-le};

use reservation_tree::PoolErr;
use row_codec::{Bytes, Value};
use std::alloc::Global;
use store_api::{Emit, OpErr, Store};

/// A group that is kept.
#[derive(Drop)]
pub struct Group {
    pub shop: Bytes,
    pub sales: i128,
    pub amount: i128,
}

/// Keeps the groups of this amount and more, and counts all.
#[derive(Drop)]
pub struct Having {
    pub alloc: Global,
    pub least: i128,
    pub groups: Vec<Group>,
    pub seen: u64,
}

impl Having {
    pub fn new(alloc: Global, least: i128) -> Having
        ensures { result.seen ≡ 0 }
    {
        Having {
            alloc,
            least,
            groups: Vec::new(alloc),
            seen: 0,
        }
    }

    // Keeps the group whose row this is, if its amount is enough.
    fn keep(&mut self, row: &[Value]) -> Result<(), PoolErr>
        ensures { self.new.seen ≡ self.old.seen }
    {
        let [Value::Text(shop), Value::Wide(sales), Value::Wide(amount)] = row else {
            return Ok(());
        };
        if *amount < self.least {
            return Ok(());
        }
        let Ok(shop) = Bytes::of(self.alloc, shop.as_slice()) else {
            return Err(PoolErr::Memory);
        };
        let group = Group {
            shop,
            sales: *sales,
            amount: *amount,
        };
        if self.groups.push(group).is_err() {
            return Err(PoolErr::Memory);
        }
        Ok(())
    }
}

impl<St: Store> Emit<St> for Having {
    // What a contract knows of the rows that it took: it counts them.
    ghost took = { λ e h rows. length rows ≡ e.seen };

    ghost admits = { λ e row. ⊤ };

    ghost client = { λ e. None };

    ghost faults = { λ e. 0 };

    ghost slots = { λ e h. 0 };

    ghost slots_for = { λ e rows. 0 };

    ghost page_blocks = { 0 };

    ghost creates = { λ e. 0 };

    #[tactic(auto, using(store_api::proofs::Growing::grows_refl, store_api::proofs::Untouched::others_stay))]
    fn row(&mut self, _store: &mut St, row: &[Value]) -> Result<(), OpErr> {
        let Some(seen) = self.seen.checked_add(1) else {
            return Err(OpErr::Pool(PoolErr::Memory));
        };
        if self.keep(row).is_err() {
            return Err(OpErr::Pool(PoolErr::Memory));
        }
        self.seen = seen;
        Ok(())
    }

    ghost asks_own = { λ e old new rows same took. took };

    ghost slots_own = { λ e old new same. refl };

    ghost slots_fit = { λ e h rows took. zero-le };

    ghost slots_whole = { λ e h rows took. (0, refl) };
}
