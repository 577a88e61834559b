//! The rows of a table go to an emitter, in the order of their keys.
ghost use Rattle.std.specs.Prelude.{◌≡◌, ℕ, [], ◌∷◌, All, IfErr, List, OnErr, OnOk};
ghost use Rattle.row_codec.specs.declared.values.Value.{Value};
ghost use Rattle.row_reading.specs.Reading as spelled;
ghost use Rattle.store_api.specs.Emitters.{CameOf, HasClient};
ghost use Rattle.bucket_table.specs.Tables.{HasNode, row_of};
ghost use Rattle.partition_stack.specs.Slots.{KeepSlots};
ghost use Rattle.group_rows.specs.Tables.{HaveDistinctKeys};
ghost use Rattle.group_op.specs.Emission.{AdmitsAll, AdmitsKinds, Emitted, EmittedFront, Stood, WentOn};
ghost use Rattle.group_op.specs.Held.{AreEntries, rows_of};
ghost use Rattle.group_op.specs.InOrder.{groups_in, said_at};
ghost use Rattle.group_op.specs.Stored.{IsPartialRow, partial_at, partial_kinds, partials_at};

use crate::ordering::places_in_order;
use crate::reading::Reading;
use crate::stored::kinds_of;
use bucket_table::BucketTable;
use reservation_tree::PoolErr;
use row_codec::{Kind, Memory};
use row_reading::decode_into;
use std::alloc::Global;
use store_api::{Emit, OpErr, Shape, Store};

// Hands the rows of the table on, one for each key, in the order of the keys where these are distinct.
pub(crate) fn emit_table<St: Store, E: Emit<St>>(
    alloc: Global,
    store: &mut St,
    emit: &mut E,
    shape: &Shape,
    table: &BucketTable,
) -> Result<(), OpErr>
    requires entries { (len : ℕ) × AreEntries shape.now len table.now }
    requires admits { AdmitsKinds shape.now (E.admits emit.old) }
    requires client { HasClient (E.client emit.old) (St.holds store.old) }
    requires stands { (rows : List (List Value)) × E.took emit.old (St.holds store.old) rows }
    ensures ok { OnOk result (HaveDistinctKeys (partials_at shape.now (rows_of table.now)) → Emitted shape.now (E.took emit.old (St.holds store.old)) (E.took emit.new (St.holds store.new)) (groups_in shape.now table.now)) }
    ensures err { OnErr result (HaveDistinctKeys (partials_at shape.now (rows_of table.now)) → EmittedFront shape.now (E.took emit.old (St.holds store.old)) (E.took emit.new (St.holds store.new)) (groups_in shape.now table.now)) }
    ensures took { WentOn (E.took emit.old (St.holds store.old)) (E.took emit.new (St.holds store.new)) }
    ensures still { table.now.nodes ≡ [] → St.signs store.new ≡ St.signs store.old }
    ensures cause { IfErr result (CameOf (E.faults emit.old) (E.faults emit.new) (St.signs store.old) (St.signs store.new)) }
    ensures stood { Stood (E.admits emit.old) (E.admits emit.new) (E.client emit.old) (E.client emit.new) (E.faults emit.old) (E.faults emit.new) (E.creates emit.old) (E.creates emit.new) (St.holds store.old) (St.holds store.new) (St.signs store.old) (St.signs store.new) }
    ensures slots { KeepSlots (E.client emit.old) (St.holds store.old).free_slots (St.holds store.new).free_slots (E.slots emit.old (St.holds store.old)) (E.slots emit.new (St.holds store.new)) }
{
    let Ok(places) = places_in_order(alloc, shape, table) else {
        return Err(OpErr::Pool(PoolErr::Memory));
    };
    emit_places(alloc, store, emit, shape, table, &places)
}

// Hands the rows at these places on, one after the other.
fn emit_places<St: Store, E: Emit<St>>(
    alloc: Global,
    store: &mut St,
    emit: &mut E,
    shape: &Shape,
    table: &BucketTable,
    places: &[u32],
) -> Result<(), OpErr>
    requires entries { (len : ℕ) × AreEntries shape.now len table.now }
    requires nodes { All (λ place. HasNode place table.now.nodes) places.now }
    requires admits { AdmitsAll shape.now (E.admits emit.old) (said_at shape.now table.now.nodes places.now) }
    requires client { HasClient (E.client emit.old) (St.holds store.old) }
    requires stands { (rows : List (List Value)) × E.took emit.old (St.holds store.old) rows }
    ensures ok { OnOk result (Emitted shape.now (E.took emit.old (St.holds store.old)) (E.took emit.new (St.holds store.new)) (said_at shape.now table.now.nodes places.now)) }
    ensures err { OnErr result (EmittedFront shape.now (E.took emit.old (St.holds store.old)) (E.took emit.new (St.holds store.new)) (said_at shape.now table.now.nodes places.now)) }
    ensures still { places.now ≡ [] → St.signs store.new ≡ St.signs store.old }
    ensures cause { IfErr result (CameOf (E.faults emit.old) (E.faults emit.new) (St.signs store.old) (St.signs store.new)) }
    ensures stood { Stood (E.admits emit.old) (E.admits emit.new) (E.client emit.old) (E.client emit.new) (E.faults emit.old) (E.faults emit.new) (E.creates emit.old) (E.creates emit.new) (St.holds store.old) (St.holds store.new) (St.signs store.old) (St.signs store.new) }
    ensures slots { KeepSlots (E.client emit.old) (St.holds store.old).free_slots (St.holds store.new).free_slots (E.slots emit.old (St.holds store.old)) (E.slots emit.new (St.holds store.new)) }
{
    let Ok(kinds) = kinds_of(alloc, shape) else {
        return Err(OpErr::Pool(PoolErr::Memory));
    };
    let mut spare = Reading::new(alloc);
    for place in places {
        emit_place(alloc, store, emit, shape, table, *place, &kinds, &mut spare)?;
    }
    Ok(())
}

// Hands one row on.
fn emit_place<St: Store, E: Emit<St>>(
    alloc: Global,
    store: &mut St,
    emit: &mut E,
    shape: &Shape,
    table: &BucketTable,
    place: u32,
    kinds: &[Kind],
    spare: &mut Reading,
) -> Result<(), OpErr>
    requires kinds { kinds.now ≡ partial_kinds shape.now }
    requires node { HasNode place table.now.nodes }
    requires formed { IsPartialRow shape.now (row_of place table.now.nodes) }
    requires admits { AdmitsAll shape.now (E.admits emit.old) (partial_at shape.now (row_of place table.now.nodes) ∷ []) }
    requires client { HasClient (E.client emit.old) (St.holds store.old) }
    requires stands { (rows : List (List Value)) × E.took emit.old (St.holds store.old) rows }
    ensures ok { OnOk result (Emitted shape.now (E.took emit.old (St.holds store.old)) (E.took emit.new (St.holds store.new)) (partial_at shape.now (row_of place table.now.nodes) ∷ [])) }
    ensures err { OnErr result (EmittedFront shape.now (E.took emit.old (St.holds store.old)) (E.took emit.new (St.holds store.new)) (partial_at shape.now (row_of place table.now.nodes) ∷ [])) }
    ensures cause { IfErr result (CameOf (E.faults emit.old) (E.faults emit.new) (St.signs store.old) (St.signs store.new)) }
    ensures stood { Stood (E.admits emit.old) (E.admits emit.new) (E.client emit.old) (E.client emit.new) (E.faults emit.old) (E.faults emit.new) (E.creates emit.old) (E.creates emit.new) (St.holds store.old) (St.holds store.new) (St.signs store.old) (St.signs store.new) }
    ensures slots { KeepSlots (E.client emit.old) (St.holds store.old).free_slots (St.holds store.new).free_slots (E.slots emit.old (St.holds store.old)) (E.slots emit.new (St.holds store.new)) }
{
    let Ok(()) = read_place(alloc, table, place, kinds, spare) else {
        return Err(OpErr::Pool(PoolErr::Memory));
    };
    emit.row(store, &spare.values)
}

// Reads the values of a row of these kinds.
fn read_place(
    alloc: Global,
    table: &BucketTable,
    place: u32,
    kinds: &[Kind],
    spare: &mut Reading,
) -> Result<(), Memory>
    requires { HasNode place table.now.nodes }
    ensures { OnOk result (spare.new.values.items ≡ spelled.values_at kinds.now (row_of place table.now.nodes)) }
{
    let Ok(()) = table.row_at(place, &mut spare.row) else {
        return Err(Memory);
    };
    if !decode_into(
        alloc,
        kinds,
        &spare.row,
        &mut spare.values,
        &mut spare.texts,
    )? {
        return Err(Memory);
    }
    Ok(())
}
