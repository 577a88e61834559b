//! Partial rows that are more than fit in memory are fed to a grouping.
use super::MEMORY;
use super::groups::all_four;
use super::partials::{Row, of_halves, of_rows};
use std::alloc::Global;
use std::test::Fail;
use store_api::OpErr;

// Two rows of each of a hundred keys, the second ones behind all first ones: a key's number, and 150 less.
fn two_of_each(alloc: Global) -> Result<Vec<Row>, OpErr> {
    let mut rows = Vec::new(alloc);
    for less in [0, 150] {
        for key in 0..100 {
            if rows.push(([key, b'k'], i64::from(key) - less)).is_err() {
                return Err(MEMORY);
            }
        }
    }
    Ok(rows)
}

#[test]
fn partial_rows_come_back_from_partitions(rt: HostRuntime) -> Result<(), Fail> {
    let shape = all_four(rt.alloc())?;
    let rows = two_of_each(rt.alloc())?;
    let halves = rows.split_at(rows.len() / 2);
    // A hundred partial rows take more than 60 pages, so that most of them go to partitions.
    let answer = of_halves(rt.alloc(), 20, &shape, halves)?;
    assert_eq!(rt; answer.len(), 100);
    for (texts, numbers) in &answer {
        let number = i128::from(texts[0]);
        let worked = [2, 2 * number - 150, number - 150, number];
        assert_eq!(rt; *numbers, worked, "key {number}");
    }
    let whole = of_rows(rt.alloc(), &shape, &rows)?;
    assert_eq!(rt; answer.as_slice(), whole.as_slice());
    Ok(())
}
