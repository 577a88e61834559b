//! A pair goes to an emitter as a row of values.
ghost use Rattle.std.specs.Prelude.{◌≡◌, ◌∷◌, [], OnOk};
ghost use Rattle.row_reading.specs.Reading.{IsRowOf};
ghost use Rattle.store_api.specs.Handing.{MayHand};
ghost use Rattle.join_op.specs.Chunks.{pair_at};
ghost use Rattle.join_op.specs.PairCalls.{HandsPairs};

use reservation_tree::PoolErr;
use row_codec::{Memory, Value};
use row_reading::decode_into;
use std::alloc::Global;
use store_api::{Emit, JoinShape, OpErr, Store};

// Memory that the values of each pair take again.
#[derive(Drop)]
pub(crate) struct Pair {
    // The values of the left row, and behind them those of the right one.
    pub(crate) values: Vec<Value>,
    // Those of the right row, until they stand there.
    pub(crate) behind: Vec<Value>,
    // Memory of texts.
    pub(crate) texts: Vec<Vec<u8>>,
}

impl Pair {
    pub(crate) fn new(alloc: Global) -> Pair {
        Pair {
            values: Vec::new(alloc),
            behind: Vec::new(alloc),
            texts: Vec::new(alloc),
        }
    }
}

// Hands a pair on: the values of the left row, and behind them those of the right one.
pub(crate) fn emit_pair<St: Store, E: Emit<St>>(
    alloc: Global,
    store: &mut St,
    shape: &JoinShape,
    left: &[u8],
    right: &[u8],
    pair: &mut Pair,
    emit: &mut E,
) -> Result<(), OpErr>
    requires left { IsRowOf shape.now.left left.now }
    requires right { IsRowOf shape.now.right right.now }
    requires may { MayHand St.Store E.Emit (pair_at shape.now left.now right.now ∷ []) emit.old store.old }
    ensures { HandsPairs St.Store E.Emit (pair_at shape.now left.now right.now ∷ []) emit.old emit.new store.old store.new result }
{
    let Ok(()) = read_pair(alloc, shape, left, right, pair) else {
        return Err(OpErr::Pool(PoolErr::Memory));
    };
    emit.row(store, &pair.values)
}

// Reads the values of both rows, those of the left one first.
fn read_pair(
    alloc: Global,
    shape: &JoinShape,
    left: &[u8],
    right: &[u8],
    pair: &mut Pair,
) -> Result<(), Memory>
    ensures ok { OnOk result (pair.new.values.items ≡ pair_at shape.now left.now right.now) }
{
    let Ok(true) = decode_into(
        alloc,
        shape.left.as_slice(),
        left,
        &mut pair.values,
        &mut pair.texts,
    ) else {
        return Err(Memory);
    };
    let Ok(true) = decode_into(
        alloc,
        shape.right.as_slice(),
        right,
        &mut pair.behind,
        &mut pair.texts,
    ) else {
        return Err(Memory);
    };
    pair.values.append(&mut pair.behind)?;
    Ok(())
}
