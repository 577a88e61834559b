use outside::Source;
use std::test::Fail;
use table_gen::TableSource;

#[test]
fn the_table_is_the_same_in_any_chunking(rt: HostRuntime) -> Result<(), Fail> {
    let rows = [
        (3, 2, 5, 64, b"k,v\n3,0\n0,1\n".as_slice()),
        (3, 2, 5, 1, b"k,v\n3,0\n0,1\n".as_slice()),
        (3, 2, 5, 7, b"k,v\n3,0\n0,1\n".as_slice()),
        (9, 0, 1, 3, b"k,v\n".as_slice()),
        (u64::MAX, 2, u64::MAX, 64, b"k,v\n0,0\n7,1\n".as_slice()),
    ];
    for (start, count, groups, chunk, want) in rows {
        let mut source = TableSource::new(start, count, groups);
        let mut given = Vec::new(rt.alloc());
        let mut buf = [0u8; 64];
        for _ in 0..16u8 {
            let size = source.read(&mut buf[..chunk]).unwrap_or(0);
            given.extend_from_slice(&buf[..size])?;
        }
        assert_eq!(rt; given.as_slice(), want, "{chunk} at a time");
    }
    Ok(())
}
