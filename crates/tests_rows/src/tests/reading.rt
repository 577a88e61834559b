use row_codec::{Bytes, Kind, Value};
use row_reading::{decode_into, key_into, law_rows_back};
use std::test::Fail;

// A row of -2, "ab" and the wide number 1.
const ROW: [u8; 34] = [
    0, 0, 0, 30, 255, 255, 255, 255, 255, 255, 255, 254, 0, 0, 0, 2, 97, 98, 0, 0, 0, 0, 0, 0, 0,
    0, 0, 0, 0, 0, 0, 0, 0, 1,
];

// The same with a byte more.
const LONGER: [u8; 35] = [
    0, 0, 0, 30, 255, 255, 255, 255, 255, 255, 255, 254, 0, 0, 0, 2, 97, 98, 0, 0, 0, 0, 0, 0, 0,
    0, 0, 0, 0, 0, 0, 0, 0, 1, 0,
];

#[test]
fn a_row_and_its_key_are_read_and_other_bytes_refused(rt: HostRuntime) -> Result<(), Fail> {
    let alloc = rt.alloc();
    law_rows_back();
    let kinds = [Kind::Int, Kind::Text, Kind::Wide];
    let mut values = Vec::new(alloc);
    let mut texts = Vec::new(alloc);
    let mut key = Vec::new(alloc);
    let rows = [
        (ROW.as_slice(), true),
        (&ROW[..33], false),
        (LONGER.as_slice(), false),
        (&ROW[..0], false),
    ];
    for (row, is_one) in rows {
        let read = decode_into(alloc, &kinds, row, &mut values, &mut texts)?;
        assert_eq!(rt; read, is_one, "{row:?}");
        let found = key_into(row, &kinds, &[1], &mut key)?;
        assert_eq!(rt; found, is_one, "{row:?}");
    }

    assert!(rt; decode_into(alloc, &kinds, &ROW, &mut values, &mut texts)?);
    let text = Bytes::of(alloc, b"ab")?;
    let shown = [Value::Int(-2), Value::Text(text), Value::Wide(1)];
    assert_eq!(rt; values.as_slice(), shown.as_slice());
    assert!(rt; key_into(&ROW, &kinds, &[1], &mut key)?);
    assert_eq!(rt; key.as_slice(), [2, 0, 0, 0, 2, 97, 98].as_slice());
    Ok(())
}
