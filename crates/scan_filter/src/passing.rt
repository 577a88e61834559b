// Which rows pass.

ghost use Rattle.std.specs.Prelude.{◌≡◌, All, Some};
ghost use Rattle.row_codec.specs.Row.{kind_of};
ghost use Rattle.scan_filter.specs.Passes.{FitsRow, holds, holds_if, holds_of, passes as passes_all, value_order};

use crate::pred::{Cmp, Pred};
use row_codec::Value;
use std::cmp::Ordering;

/// Whether all predicates hold of the row. Numbers compare as numbers, texts by their bytes.
#[inline]
pub fn passes(preds: &[Pred], row: &[Value]) -> bool
    requires kinds { All (FitsRow row.now) preds.now }
    ensures value { result ≡ passes_all preds.now row.now }
{
    for pred in preds {
        if !holds(pred, row) {
            return false;
        }
    }
    true
}

// A column that isn't there never compares; the kinds that are asked for leave no such column.
fn holds(pred: &Pred, row: &[Value]) -> bool
    requires { FitsRow row.now pred.now }
    ensures { result ≡ holds row.now pred.now }
{
    match row.get(pred.column) {
        Some(value) => compares(pred.op, value, &pred.value),
        None => false,
    }
}

fn compares(op: Cmp, left: &Value, right: &Value) -> bool
    requires { kind_of left.now ≡ kind_of right.now }
    ensures { result ≡ holds_if op (value_order left.now right.now) }
{
    holds_of(op, order_of(left, right))
}

fn order_of(left: &Value, right: &Value) -> Ordering
    requires { kind_of left.now ≡ kind_of right.now }
    ensures { value_order left.now right.now ≡ Some result }
{
    match (left, right) {
        (Value::Int(a), Value::Int(b)) => a.cmp(b),
        (Value::Text(a), Value::Text(b)) => a.as_slice().cmp(b.as_slice()),
        (Value::Wide(a), Value::Wide(b)) => a.cmp(b),
        _ => unreachable!(),
    }
}

fn holds_of(op: Cmp, order: Ordering) -> bool
    ensures { result ≡ holds_of op order }
{
    match op {
        Cmp::Eq => order == Ordering::Equal,
        Cmp::Ne => order != Ordering::Equal,
        Cmp::Lt => order == Ordering::Less,
        Cmp::Le => order != Ordering::Greater,
        Cmp::Gt => order == Ordering::Greater,
        Cmp::Ge => order != Ordering::Less,
    }
}
