//! The numbers of an entry, combined in place. An entry has a number for each aggregate, in their order.
ghost use Rattle.std.specs.Int.{int_wrap, w128};
ghost use Rattle.std.specs.Prelude.{◌≡◌, ◌+ℤ◌, ◌+◌, drop, length, map};
ghost use Rattle.group_rows.specs.Aggregates.{combined_number, number_at, number_of, own_number};
ghost use Rattle.group_rows.specs.Partials.{combined_numbers};

use row_codec::{Agg, Value};

/// The sum of two numbers, modulo 2^128.
#[tactic(auto, using(std::proofs::lemmas::Int::wraps))]
fn sum(a: i128, b: i128) -> i128
    ensures { result ≡ int_wrap w128 (a +ℤ b) }
{
    a.wrapping_add(b)
}

/// Two numbers of an aggregate combined. Sums wrap modulo 2^128.
pub fn combined(agg: Agg, a: i128, b: i128) -> i128
    ensures { result ≡ combined_number agg a b }
{
    match agg {
        Agg::Count => sum(a, b),
        Agg::Sum(_) => sum(a, b),
        Agg::Min(_) => a.min(b),
        Agg::Max(_) => a.max(b),
    }
}

/// The number in a column of a row; 0 where there is a text or nothing.
fn number(row: &[Value], column: usize) -> i128
    ensures { result ≡ number_at column row.now }
{
    match row.get(column) {
        Some(Value::Int(number)) => i128::from(*number),
        Some(Value::Wide(number)) => *number,
        _ => 0,
    }
}

/// What a row has for an aggregate: 1 for a count, the number in its column for the others, or 0 where the column has
/// a text or is outside of the row.
pub fn own(agg: Agg, row: &[Value]) -> i128
    ensures { result ≡ own_number agg row.now }
{
    match agg {
        Agg::Count => 1,
        Agg::Sum(column) | Agg::Min(column) | Agg::Max(column) => number(row, column),
    }
}

/// Combines the numbers of a partial row into an entry of the same key. Sums wrap modulo 2^128.
pub fn combine_into(entry: &mut [i128], partial: &[i128], aggs: &[Agg])
    requires entry { length entry.old ≡ length aggs.now }
    requires partial { length partial.now ≡ length aggs.now }
    ensures combined { entry.new ≡ combined_numbers aggs.now entry.old partial.now }
{
    for k in 0..aggs.len() {
        entry[k] = combined(aggs[k], entry[k], partial[k]);
    }
}

/// Combines a row into an entry of the same key: 1 for a count, the number in its column for the other
/// aggregates, or 0 where a column has a text or is outside of the row.
pub fn take_row(entry: &mut [i128], row: &[Value], aggs: &[Agg])
    requires entry { length entry.old ≡ length aggs.now }
    ensures combined { entry.new ≡ combined_numbers aggs.now entry.old (map (λ agg. own_number agg row.now) aggs.now) }
{
    for k in 0..aggs.len() {
        entry[k] = combined(aggs[k], entry[k], own(aggs[k], row));
    }
}

/// Combines a partial row, as the row of values that it is stored as, into an entry of the same key. The
/// first `keys` values are those of the key; a number for each aggregate follows.
pub fn combine_row(entry: &mut [i128], row: &[Value], keys: usize, aggs: &[Agg])
    requires entry { length entry.old ≡ length aggs.now }
    requires row { length row.now ≡ keys + length aggs.now }
    ensures combined { entry.new ≡ combined_numbers aggs.now entry.old (map number_of (drop keys row.now)) }
{
    for k in 0..aggs.len() {
        entry[k] = combined(aggs[k], entry[k], number(row, keys + k));
    }
}
