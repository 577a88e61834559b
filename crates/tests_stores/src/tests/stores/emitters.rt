//! Emitters beside a store in memory.
ghost use Rattle.std.specs.Prelude.{◌≡◌, ◌-◌, ◌≤◌};
ghost use Rattle.store_api.specs.Holdings.{unused_of};
ghost use Rattle.store_api.specs.Conditions.{IsLiveClient, IsIdle};

use super::page_rows::PageRows;
use super::row_count::RowCount;
use std::alloc::Global;
use std::test::Fail;
use store_api::{Client, Emit, MemStore, OpErr, Store, Value};

#[test]
fn an_emitter_takes_a_row_beside_a_store(rt: HostRuntime) -> Result<(), Fail> {
    let mut store = MemStore::open(rt.alloc(), 64, 1280, 1280)?;
    let mut counted = RowCount { rows: 0 };
    let answer = counted.row(&mut store, &[Value::Int(4)]);
    store.close();
    assert_eq!(rt; (answer, counted), (Ok(()), RowCount { rows: 1 }));
    Ok(())
}

// How many rows an emitter with this client took, to which one is given. The client ends.
fn taken_by<St: Store>(store: &mut St, alloc: Global, client: Client) -> Result<u64, OpErr>
    requires client { IsLiveClient client (St.holds store.old) }
    requires unused { (St.holds store.old).block_len ≤ unused_of client.tracker (St.holds store.old) }
    requires idle { IsIdle client.tracker (St.holds store.old) }
    ensures { (St.holds store.new).live_clients ≡ (St.holds store.old).live_clients - 1 }
{
    let mut taker = PageRows {
        alloc,
        client,
        rows: 0,
    };
    let answer = taker.row(store, &[Value::Int(4)]);
    let PageRows {
        alloc: _,
        client,
        rows,
    } = taker;
    store.end_client(client);
    answer?;
    Ok(rows)
}

// The client has a block's length of reservation.
fn taken<St: Store>(store: &mut St, alloc: Global) -> Result<u64, OpErr>
    requires { (St.holds store.old).block_len ≤ 64 }
    ensures { (St.holds store.new).live_clients ≡ (St.holds store.old).live_clients }
{
    let c = store.add_client(64)?;
    if let Err(e) = store.reserve(&c, 64) {
        store.end_client(c);
        return Err(OpErr::Pool(e));
    }
    taken_by(store, alloc, c)
}

#[test]
fn an_emitter_pays_for_its_pages_with_its_own_client(rt: HostRuntime) -> Result<(), Fail> {
    let mut store = MemStore::open(rt.alloc(), 64, 1280, 1280)?;
    let rows = taken(&mut store, rt.alloc());
    store.close();
    assert_eq!(rt; rows, Ok(1));
    Ok(())
}
