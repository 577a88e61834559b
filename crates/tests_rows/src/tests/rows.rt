use row_codec::{
    Bytes, Kind, Memory, PathKey, Value, decode_row, encode_row, encoded_len, hash64, key_bytes,
    law_row_back, nibble, path_cmp,
};
use std::alloc::{AllocError, Global};
use std::cmp::Ordering;
use std::collections::BTreeMap;
use std::process::Abort;
use std::test::Fail;

// The row has these bytes, as many as was foretold.
fn is_spelled(rt: &impl Abort, alloc: Global, row: &[Value], bytes: &[u8]) -> Result<(), Memory> {
    let mut out = Vec::new(alloc);
    spell(rt, row, &mut out)?;
    assert_eq!(rt; out.as_slice(), bytes);
    Ok(())
}

fn spell(rt: &impl Abort, row: &[Value], out: &mut Vec<u8>) -> Result<(), Memory> {
    let len = encoded_len(row);
    assert!(rt; len < 4294967296);
    encode_row(row, out)?;
    assert_eq!(rt; out.len() as u64, len);
    Ok(())
}

// What is read from these bytes: whether it is this row, and how many bytes it has.
fn read(
    alloc: Global,
    kinds: &[Kind],
    bytes: &[u8],
    row: &[Value],
) -> Result<Option<(bool, usize)>, Memory> {
    let found = decode_row(alloc, kinds, bytes)?;
    Ok(found.map(|(read, len)| (read.as_slice() == row, len)))
}

// The key of one text.
fn text_key(rt: &impl Abort, alloc: Global, text: &[u8]) -> Result<Vec<u8>, Memory> {
    let mut out = Vec::new(alloc);
    put_text_key(rt, alloc, text, &mut out)?;
    Ok(out)
}

fn put_text_key(
    rt: &impl Abort,
    alloc: Global,
    text: &[u8],
    out: &mut Vec<u8>,
) -> Result<(), Memory> {
    let row = [Value::Text(Bytes::of(alloc, text)?)];
    let len = encoded_len(&row);
    assert!(rt; len < 4294967296);
    key_bytes(&row, &[0], out)
}

fn holds_what_it_was_filled_with(rt: &impl Abort, text: &mut Bytes) -> Result<(), Memory> {
    for bytes in [b"a longer one".as_slice(), b"", b"\xff\x00", b"c"] {
        text.refill(bytes)?;
        assert_eq!(rt; text.as_slice(), bytes);
    }
    Ok(())
}

#[test]
fn a_text_holds_the_bytes_it_was_filled_with_last(rt: HostRuntime) -> Result<(), Fail> {
    let mut text = Bytes::of(rt.alloc(), b"ab")?;
    holds_what_it_was_filled_with(&rt, &mut text)?;
    Ok(())
}

#[test]
fn a_row_has_these_bytes_and_is_not_read_from_fewer(rt: HostRuntime) -> Result<(), Fail> {
    let alloc = rt.alloc();
    let bytes = [0, 0, 0, 14, 0, 0, 0, 0, 0, 0, 1, 2, 0, 0, 0, 2, 97, 98];
    let row = [Value::Int(258), Value::Text(Bytes::of(alloc, b"ab")?)];
    comes_back(&rt, alloc, &row, &bytes)?;
    Ok(())
}

fn comes_back(
    rt: &impl Abort,
    alloc: Global,
    row: &[Value],
    bytes: &[u8; 18],
) -> Result<(), Memory> {
    is_spelled(rt, alloc, row, bytes)?;
    let kinds = [Kind::Int, Kind::Text];
    let fewer = read(alloc, &kinds, &bytes[..17], row)?;
    let all = read(alloc, &kinds, bytes, row)?;
    assert_eq!(rt; (fewer, all), (None, Some((true, 18))));
    Ok(())
}

#[test]
fn numbers_are_in_twos_complement_from_the_top(rt: HostRuntime) -> Result<(), Fail> {
    let alloc = rt.alloc();
    is_spelled(
        &rt,
        alloc,
        &[Value::Int(-2)],
        &[0, 0, 0, 8, 255, 255, 255, 255, 255, 255, 255, 254],
    )?;

    let mut bytes = [255u8; 20];
    bytes[..4].copy_from_slice(&[0, 0, 0, 16]);
    let row = [Value::Wide(-1)];
    is_spelled(&rt, alloc, &row, &bytes)?;
    let all = read(alloc, &[Kind::Wide], &bytes, &row)?;
    assert_eq!(rt; all, Some((true, 20)));
    law_row_back();
    Ok(())
}

fn put_pair_key(rt: &impl Abort, alloc: Global, out: &mut Vec<u8>) -> Result<(), Memory> {
    let row = [Value::Int(258), Value::Text(Bytes::of(alloc, b"ab")?)];
    let len = encoded_len(&row);
    assert!(rt; len < 4294967296);
    key_bytes(&row, &[0, 1], out)
}

#[test]
fn a_key_has_these_bytes(rt: HostRuntime) -> Result<(), Fail> {
    let mut out = Vec::new(rt.alloc());
    put_pair_key(&rt, rt.alloc(), &mut out)?;
    assert_eq!(rt;
        out.as_slice(),
        [1, 0, 0, 0, 0, 0, 0, 1, 2, 2, 0, 0, 0, 2, 97, 98].as_slice()
    );
    Ok(())
}

#[test]
fn a_hash_is_as_published(rt: HostRuntime) -> Result<(), Fail> {
    let rows = [
        (b"".as_slice(), 0xcbf29ce484222325),
        (b"a".as_slice(), 0xaf63dc4c8601ec8c),
        (b"foobar".as_slice(), 0x85944171f73967e8),
    ];
    for (bytes, hash) in rows {
        assert_eq!(rt; hash64(bytes), hash);
    }
    for (level, digit) in [(0, 0xc), (1, 8), (2, 0xc), (14, 0xf), (15, 0xa)] {
        assert_eq!(rt;
            nibble(0xaf63dc4c8601ec8c, level),
            digit,
            "at level {level}"
        );
    }
    Ok(())
}

fn text_hash(rt: &impl Abort, alloc: Global, text: &[u8]) -> Result<u64, Memory> {
    let key = text_key(rt, alloc, text)?;
    Ok(hash64(&key))
}

#[test]
fn a_text_key_stands_by_the_low_byte_of_its_hash(rt: HostRuntime) -> Result<(), Fail> {
    let alloc = rt.alloc();
    let rows = [
        (b"a".as_slice(), 0x19),
        (b"b".as_slice(), 0x00),
        (b"c".as_slice(), 0xb3),
        (b"d".as_slice(), 0x32),
        (b"".as_slice(), 0x15),
        (b"a,b".as_slice(), 0xa9),
        (b"q\"q".as_slice(), 0x9a),
        (b"x\ny".as_slice(), 0x31),
        (b"R0".as_slice(), 0x55),
        (b"R1".as_slice(), 0xa2),
        (b"R2".as_slice(), 0xef),
        (b"R3".as_slice(), 0x3c),
        (b"R4".as_slice(), 0x89),
    ];
    for (text, low) in rows {
        let hash = text_hash(&rt, alloc, text)?;
        assert_eq!(rt; (hash % 256, u64::from(nibble(hash, 0))), (low, low % 16));
    }
    Ok(())
}

// Puts four texts by their keys, the last of which stays in `key`.
fn put_texts(
    rt: &impl Abort,
    alloc: Global,
    key: &mut PathKey,
    texts: &mut BTreeMap<PathKey, u8>,
) -> Result<(), Memory> {
    for text in [b"a", b"b", b"c", b"d"] {
        set_to_text(rt, alloc, key, text)?;
        texts.insert(key.copy(alloc)?, text[0])?;
    }
    Ok(())
}

fn set_to_text(
    rt: &impl Abort,
    alloc: Global,
    key: &mut PathKey,
    text: &[u8],
) -> Result<(), Memory> {
    let bytes = text_key(rt, alloc, text)?;
    key.set(&bytes)
}

fn in_order(alloc: Global, texts: &BTreeMap<PathKey, u8>) -> Result<Vec<u8>, AllocError> {
    texts.values().copied().collect(alloc)
}

// The key of "b" against that of "d", and in the map.
fn finds_b(
    rt: &impl Abort,
    alloc: Global,
    last: &PathKey,
    texts: &BTreeMap<PathKey, u8>,
) -> Result<(), Memory> {
    let b = text_key(rt, alloc, b"b")?;
    let orders = (path_cmp(&b, last.as_slice()), path_cmp(&b, &b));
    let found = texts.get(&PathKey::from_vec(b)).copied();
    assert_eq!(rt; orders, (Ordering::Less, Ordering::Equal));
    assert_eq!(rt; found, Some(b'b'));
    Ok(())
}

fn stand_in_order(
    rt: &impl Abort,
    alloc: Global,
    key: &mut PathKey,
    texts: &mut BTreeMap<PathKey, u8>,
) -> Result<(), Memory> {
    put_texts(rt, alloc, key, texts)?;
    finds_b(rt, alloc, key, texts)?;
    let order = in_order(alloc, texts)?;
    assert_eq!(rt; order.as_slice(), b"bdca".as_slice());
    assert_eq!(rt;
        Bytes::from_vec(order).into_vec().as_slice(),
        b"bdca".as_slice()
    );
    Ok(())
}

#[test]
fn keys_stand_in_the_order_of_their_paths(rt: HostRuntime) -> Result<(), Fail> {
    let alloc = rt.alloc();
    let mut key = PathKey::of(alloc, b"")?;
    let mut texts = BTreeMap::new(alloc);
    stand_in_order(&rt, alloc, &mut key, &mut texts)?;
    assert_eq!(rt; key.into_vec().as_slice(), [2, 0, 0, 0, 1, b'd'].as_slice());
    Ok(())
}
