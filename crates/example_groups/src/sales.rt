//! The rows, and their shape.

ghost use Rattle.std.specs.Prelude.{IfOk};
ghost use Rattle.store_api.specs.Shapes.{IsShape};

use reservation_tree::PoolErr;
use row_codec::{Agg, Bytes, Kind, Value};
use std::alloc::{AllocError, Global};
use store_api::{Listed, OpErr, Shape};

/// So many sales there are. Each is sold by the shop of its number, counted modulo 200, for as much as its number says.
pub const SALES: u32 = 700;

const SHOPS: u32 = 200;

/// Rows of a shop and an amount, grouped by the shop: how many there are, and the sum of the amounts. Columns count from 0.
pub fn shape(alloc: Global) -> Result<Shape, AllocError>
    ensures { IfOk result (λ shape. IsShape shape) }
{
    let kinds = Vec::from_slice(alloc, &[Kind::Text, Kind::Int])?;
    let keys = Vec::from_slice(alloc, &[0])?;
    let aggs = Vec::from_slice(alloc, &[Agg::Count, Agg::Sum(1)])?;
    Ok(Shape {
        kinds: Listed::of(kinds),
        keys: Listed::of(keys),
        aggs: Listed::of(aggs),
    })
}

/// The sale with this number.
pub fn sale(alloc: Global, number: u32) -> Result<Vec<Value>, OpErr> {
    let digit = |unit: u32| b'0' + (number % SHOPS / unit % 10) as u8;
    let shop = [
        b's',
        b'h',
        b'o',
        b'p',
        b' ',
        digit(100),
        digit(10),
        digit(1),
    ];
    let Ok(shop) = Bytes::of(alloc, &shop) else {
        return Err(OpErr::Pool(PoolErr::Memory));
    };
    let values = [Value::Text(shop), Value::Int(i64::from(number))];
    match Vec::from_array(alloc, values) {
        Ok(row) => Ok(row),
        Err(_) => Err(OpErr::Pool(PoolErr::Memory)),
    }
}
