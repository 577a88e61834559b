use group_rows::{combine_into, combine_row, take_row};
use row_codec::{Agg, Bytes, Value};
use std::alloc::Global;
use std::process::Abort;
use std::test::Fail;

#[test]
fn numbers_combine_by_their_aggregates(rt: HostRuntime) -> Result<(), Fail> {
    let alloc = rt.alloc();
    let aggs = [Agg::Count, Agg::Sum(1), Agg::Min(1), Agg::Max(1)];
    let table = [
        ([1, 2, 2, 2], [1, -3, -3, -3], [2, -1, -3, 2]),
        ([2, -1, -3, 2], [3, 9, -4, 11], [5, 8, -4, 11]),
        ([1, i128::MAX, 5, 5], [1, 1, 1, 1], [2, i128::MIN, 1, 5]),
    ];
    for (before, partial, after) in table {
        let mut entry = before;
        combine_into(&mut entry, &partial, &aggs);
        assert_eq!(rt; entry.as_slice(), after.as_slice());

        let mut row = Vec::new(alloc);
        row.push(Value::Text(Bytes::of(alloc, b"key")?))?;
        for number in partial {
            row.push(Value::Wide(number))?;
        }
        let mut entry = before;
        assert_eq!(rt; row.len(), 5);
        combine_row(&mut entry, &row, 1, &aggs);
        assert_eq!(rt; entry.as_slice(), after.as_slice());
    }
    Ok(())
}

#[test]
fn a_row_adds_one_and_the_numbers_of_its_columns(rt: HostRuntime) -> Result<(), Fail> {
    let alloc = rt.alloc();
    let aggs = [
        Agg::Count,
        Agg::Sum(1),
        Agg::Min(1),
        Agg::Max(1),
        Agg::Max(0),
        Agg::Min(2),
    ];
    let mut entry = [1, 2, 2, 2, 0, 0];
    let table = [(-3, [2, -1, -3, 2, 0, 0]), (9, [3, 8, -3, 9, 0, 0])];
    for (number, after) in table {
        let mut row = Vec::new(alloc);
        row.push(Value::Text(Bytes::of(alloc, b"key")?))?;
        row.push(Value::Int(number))?;
        take_row(&mut entry, &row, &aggs);
        assert_eq!(rt; entry.as_slice(), after.as_slice());
    }
    Ok(())
}
