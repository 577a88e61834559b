//! Numbers of a partial row are added to an entry of its key, where it stands.
ghost use Rattle.std.specs.Prelude.{◌≡◌, ◌+◌, ◌≤◌, ◌<◌, length, take, drop};
ghost use Rattle.std.specs.Int.{w128, cast_signed, cast_unsigned};
ghost use Rattle.std.specs.Prelude.{FitsSigned};
ghost use Rattle.row_codec.specs.RowReading.{number_in};
ghost use Rattle.store_api.specs.Shapes.{IsShape};
ghost use Rattle.group_rows.specs.Aggregates.{combined_number};
ghost use Rattle.bucket_table.specs.Tables.{HasNode, row_of, with_nodes, with_row};
ghost use Rattle.group_op.specs.Held.{StandBehind};
ghost use Rattle.group_op.specs.Stored.{IsPartialRow, joined, key_at};

use bucket_table::BucketTable;
use group_rows::combined;
use row_codec::{Agg, law_row_back};
use store_api::Shape;

// The number that sixteen bytes of a row spell.
#[tactic(auto, using(bucket_table::proofs::Spelling::number_of_16))]
pub(crate) fn wide_at(row: &[u8], at: usize) -> u128
    requires { at + 16 ≤ length row.now }
    ensures { result ≡ number_in (take 16 (drop at row.now)) }
{
    let (_before, rest) = row.split_at(at);
    let Some((wide, _behind)) = rest.split_first_chunk::<16>() else {
        unreachable!()
    };
    u128::from_be_bytes(*wide)
}

// Two numbers of an aggregate combined, as sixteen bytes spell them.
fn sum_of(agg: Agg, entry: u128, number: u128) -> u128
    ensures value { result ≡ cast_unsigned w128 (combined_number agg (cast_signed w128 entry) (cast_signed w128 number)) }
    ensures fits { FitsSigned w128 (combined_number agg (cast_signed w128 entry) (cast_signed w128 number)) }
{
    combined(agg, entry.cast_signed(), number.cast_signed()).cast_unsigned()
}

// Adds the numbers of a partial row to those of an entry of the same key.
#[inline(always)]
pub(crate) fn add_numbers(table: &mut BucketTable, node: u32, row: &[u8], shape: &Shape)
    requires shape { IsShape shape.now }
    requires node { HasNode node table.old.nodes }
    requires behind { StandBehind table.old.nodes }
    requires entry { IsPartialRow shape.now (row_of node table.old.nodes) }
    requires row { IsPartialRow shape.now row.now }
    requires key { key_at shape.now (row_of node table.old.nodes) ≡ key_at shape.now row.now }
    ensures { table.new ≡ with_nodes (with_row node (joined shape.now (row_of node table.old.nodes) row.now) table.old.nodes) table.old }
{
    law_row_back();
    let aggs = shape.aggs.as_slice();
    let head = row.len() - 16 * aggs.len();
    for k in 0..aggs.len() {
        let at = head + 16 * k;
        let agg = aggs[k];
        let number = wide_at(row, at);
        table.change_number_at(node, at, |entry| sum_of(agg, entry, number));
    }
}
