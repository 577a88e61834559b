use row_codec::{Bytes, Value};
use scan_filter::{Cmp, Pred, passes};
use std::test::Fail;

#[test]
fn a_row_passes_where_every_predicate_holds(rt: HostRuntime) -> Result<(), Fail> {
    let row = [
        Value::Int(-3),
        Value::Text(Bytes::of(rt.alloc(), b"b\xff")?),
        Value::Wide(1 << 100),
    ];
    assert!(rt; passes(&[], &row));
    // Each comparison with the numbers -4, -3 and 5, and the texts `aaa`, `b`, `b\xff` and `b\xff\0`.
    let wanted = [
        (Cmp::Eq, [false, true, false], [false, false, true, false]),
        (Cmp::Ne, [true, false, true], [true, true, false, true]),
        (Cmp::Lt, [false, false, true], [false, false, false, true]),
        (Cmp::Le, [false, true, true], [false, false, true, true]),
        (Cmp::Gt, [true, false, false], [true, true, false, false]),
        (Cmp::Ge, [true, true, false], [true, true, true, false]),
    ];
    for (op, numbers, texts) in wanted {
        for (number, want) in [-4, -3, 5].into_iter().zip(numbers) {
            let number = Pred {
                column: 0,
                op,
                value: Value::Int(number),
            };
            assert_eq!(rt; passes(&[number], &row), want);
        }
        let others = [
            b"aaa".as_slice(),
            b"b".as_slice(),
            b"b\xff".as_slice(),
            b"b\xff\0".as_slice(),
        ];
        for (other, want) in others.into_iter().zip(texts) {
            let text = Pred {
                column: 1,
                op,
                value: Value::Text(Bytes::of(rt.alloc(), other)?),
            };
            assert_eq!(rt; passes(&[text], &row), want);
        }
    }
    Ok(())
}
