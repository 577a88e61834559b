//! The nodes of a table in the order of their keys.
ghost use Rattle.std.specs.Prelude.{◌≡◌, ℕ, All, IfOk, map, reverse, true};
ghost use Rattle.row_codec.specs.KeyInside.{path_number};
ghost use Rattle.bucket_table.specs.Tables.{HasNode};
ghost use Rattle.group_rows.specs.Tables.{HaveDistinctKeys};
ghost use Rattle.group_op.specs.Held.{AreEntries, rows_of};
ghost use Rattle.group_op.specs.InOrder.{AreInOrder, Rises};
ghost use Rattle.group_op.specs.Stored.{key_at, partials_at};

use crate::keying::key_of_partial;
use bucket_table::BucketTable;
use row_codec::{Memory, PathKey, path_number};
use std::alloc::Global;
use store_api::Shape;

// The nodes of the table by path, and those of one path by the bytes of their keys: in the order of their keys, where
// these are distinct.
pub(crate) fn places_in_order(
    alloc: Global,
    shape: &Shape,
    table: &BucketTable,
) -> Result<Vec<u32>, Memory>
    requires entries { (len : ℕ) × AreEntries shape.now len table.now }
    ensures nodes { IfOk result (λ places. All (λ place. HasNode place table.now.nodes) places.items) }
    ensures order { IfOk result (λ places. HaveDistinctKeys (partials_at shape.now (rows_of table.now)) → AreInOrder shape.now table.now places.items) }
{
    let mut pathed = pathed_places(alloc, shape, table)?;
    pathed.sort_unstable();
    // Two keys of one path are rare: then all are compared again by their bytes too.
    if !rises(&pathed) {
        return places_by_key(alloc, shape, table);
    }
    let mut places = Vec::new(alloc);
    for entry in &pathed {
        places.push(entry.1)?;
    }
    Ok(places)
}

// Whether each path is below the next one.
fn rises(pathed: &[(u64, u32)]) -> bool
    ensures { result ≡ true → Rises pathed.now }
{
    for at in 1..pathed.len() {
        if pathed[at - 1].0 >= pathed[at].0 {
            return false;
        }
    }
    true
}

// Each node with the path of its key, the oldest first.
fn pathed_places(
    alloc: Global,
    shape: &Shape,
    table: &BucketTable,
) -> Result<Vec<(u64, u32)>, Memory>
    requires entries { (len : ℕ) × AreEntries shape.now len table.now }
    ensures { IfOk result (λ pathed. pathed.items ≡ reverse (map (λ n. (path_number (key_at shape.now n.row), n.place)) table.now.nodes)) }
{
    let mut pathed = Vec::new(alloc);
    let mut row = Vec::new(alloc);
    let mut key = Vec::new(alloc);
    let mut next = table.first_node();
    while let Some(node) = next {
        let Ok(()) = table.row_at(node, &mut row) else {
            return Err(Memory);
        };
        if !key_of_partial(&row, shape, &mut key)? {
            unreachable!()
        }
        pathed.push((path_number(&key), node))?;
        next = table.next_node(node);
    }
    Ok(pathed)
}

// The same nodes in the same order, by their whole keys.
fn places_by_key(alloc: Global, shape: &Shape, table: &BucketTable) -> Result<Vec<u32>, Memory>
    requires entries { (len : ℕ) × AreEntries shape.now len table.now }
    ensures nodes { IfOk result (λ places. All (λ place. HasNode place table.now.nodes) places.items) }
    ensures order { IfOk result (λ places. HaveDistinctKeys (partials_at shape.now (rows_of table.now)) → AreInOrder shape.now table.now places.items) }
{
    let mut keyed = keyed_places(alloc, shape, table)?;
    keyed.sort_unstable();
    let mut places = Vec::new(alloc);
    for entry in &keyed {
        places.push(entry.1)?;
    }
    Ok(places)
}

// Each node with its key, the oldest first.
fn keyed_places(
    alloc: Global,
    shape: &Shape,
    table: &BucketTable,
) -> Result<Vec<(PathKey, u32)>, Memory>
    requires entries { (len : ℕ) × AreEntries shape.now len table.now }
    ensures { IfOk result (λ keyed. keyed.items ≡ reverse (map (λ n. (key_at shape.now n.row, n.place)) table.now.nodes)) }
{
    let mut keyed = Vec::new(alloc);
    let mut row = Vec::new(alloc);
    let mut key = Vec::new(alloc);
    let mut next = table.first_node();
    while let Some(node) = next {
        let Ok(()) = table.row_at(node, &mut row) else {
            return Err(Memory);
        };
        if !key_of_partial(&row, shape, &mut key)? {
            unreachable!()
        }
        keyed.push((PathKey::of(alloc, &key)?, node))?;
        next = table.next_node(node);
    }
    Ok(keyed)
}
