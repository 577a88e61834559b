use csv_edge::{InputErr, Lines, Rows, row_text, write_whole};
use outside::{MemSink, MemSource, Sink};
use row_codec::{Bytes, Column, Kind, Memory, Value};
use std::alloc::Global;
use std::process::Abort;
use std::test::Fail;

// Limits that no input here passes.
const ANY: u64 = 1 << 40;

fn column(alloc: Global, name: &str, kind: Kind) -> Result<Column, Memory> {
    Ok(Column {
        name: Bytes::of(alloc, name.as_bytes())?,
        kind,
    })
}

// A column `k` of texts.
fn texts(alloc: Global) -> Result<[Column; 1], Memory> {
    Ok([column(alloc, "k", Kind::Text)?])
}

// A column `k` of texts, and one `v` of ints.
fn texts_and_ints(alloc: Global) -> Result<[Column; 2], Memory> {
    Ok([
        column(alloc, "k", Kind::Text)?,
        column(alloc, "v", Kind::Int)?,
    ])
}

// How an input is read: bytes of a read, reads that fail, the limits, and how many values the list of the rows had before.
#[derive(Clone, Copy)]
struct Reading<'a> {
    chunk: usize,
    fails: &'a [u64],
    max_records: u64,
    max_bytes: u64,
    had: usize,
}

fn plainly() -> Reading<'static> {
    Reading {
        chunk: 5,
        fails: &[],
        max_records: ANY,
        max_bytes: ANY,
        had: 0,
    }
}

// A list as another input may leave it: of any length, with other kinds and longer texts.
fn left_over(alloc: Global, len: usize) -> Result<Vec<Value>, Memory> {
    let mut row = Vec::new(alloc);
    for at in 0..len {
        if at % 2 == 0 {
            row.push(Value::Int(9))?;
        } else {
            row.push(Value::Text(Bytes::of(alloc, b"a longer text")?))?;
        }
    }
    Ok(row)
}

// The lines of the rows up to the end or a refusal.
fn rest(
    rows: &mut Rows<MemSource>,
    lines: &mut Lines,
    row: &mut Vec<Value>,
) -> Result<Option<InputErr>, Fail> {
    for _ in 0..u64::MAX {
        match rows.next_into(row) {
            Ok(true) => lines.push(row)?,
            Ok(false) => return Ok(None),
            Err(e) => return Ok(Some(e)),
        }
    }
    Ok(None)
}

// The lines of a source's rows, and then how its reading ended. Whatever it was, nothing may follow.
fn lines_of(
    alloc: Global,
    columns: &[Column],
    src: &mut MemSource,
    how: &Reading,
) -> Result<(Vec<u8>, Option<InputErr>), Fail> {
    let mut rows = Rows::of(src);
    let mut lines = Lines::new(alloc);
    let refusal = match rows.start(alloc, columns, how.max_records, how.max_bytes) {
        Ok(()) => rest(&mut rows, &mut lines, &mut left_over(alloc, how.had)?)?,
        Err(e) => Some(e),
    };
    match rows.next() {
        Ok(None) => Ok((lines.finish()?, refusal)),
        _ => Err(Fail::from("something comes behind the end")),
    }
}

// The same of an input.
fn told(
    alloc: Global,
    columns: &[Column],
    input: &[u8],
    how: &Reading,
) -> Result<(Vec<u8>, Option<InputErr>), Fail> {
    let mut src = MemSource::over(alloc, input, how.chunk.max(1), how.fails)?;
    lines_of(alloc, columns, &mut src, how)
}

// Sees that the input has these lines, and how its reading ends.
fn check<R: Abort + AllocGlobal>(
    rt: &R,
    columns: &[Column],
    input: &[u8],
    how: &Reading,
    lines: &[u8],
    refusal: Option<InputErr>,
) -> Result<(), Fail> {
    let (text, why) = told(rt.alloc(), columns, input, how)?;
    assert_eq!(rt; text.as_slice(), lines, "{input:?}");
    assert_eq!(rt; why, refusal, "{input:?}");
    Ok(())
}

#[test]
fn rows_and_the_place_of_a_refusal(rt: HostRuntime) -> Result<(), Fail> {
    let table: [(&[u8], &[u8], Option<InputErr>); 8] = [
        (b"k\r\na\r\nb", b"a\nb\n", None),
        (b"", b"", Some(InputErr::Header)),
        (b"k,k\na,b\n", b"", Some(InputErr::Header)),
        (b"x,k\n1,a\n\n2,b\n", b"a\nb\n", None),
        (
            b"k,v\na,1\nb\nc,2\n",
            b"a\n",
            Some(InputErr::Csv { number: 2 }),
        ),
        (
            b"k\n\"a,b\"\n\"q\"\"q\"\n\"x\ny\"\n\"\"\n",
            b"\"a,b\"\n\"q\"\"q\"\n\"x\ny\"\n\"\"\n",
            None,
        ),
        (b"\xef\xbb\xbf\"k\"\na\n", b"a\n", None),
        (
            b"\xef\xbb\xbf\xef\xbb\xbfk\na\n",
            b"",
            Some(InputErr::Header),
        ),
    ];
    let columns = texts(rt.alloc())?;
    for (input, lines, refusal) in table {
        check(&rt, &columns, input, &plainly(), lines, refusal)?;
    }
    Ok(())
}

#[test]
fn columns_in_any_order_and_the_first_refusal(rt: HostRuntime) -> Result<(), Fail> {
    const FIELD: Option<InputErr> = Some(InputErr::Field {
        number: 1,
        column: 1,
    });
    let table: [(&[u8], &[u8], Option<InputErr>); 4] = [
        (
            b"v,z,k\n+7,q,a\n-9,q,a\n007,q,b\n",
            b"a,7\na,-9\nb,7\n",
            None,
        ),
        (b"k,v\na,\n", b"", FIELD),
        (b"k,v\na,x\nb\n", b"", FIELD),
        (b"k,v\na\nb,x\n", b"", Some(InputErr::Csv { number: 1 })),
    ];
    let columns = texts_and_ints(rt.alloc())?;
    for (input, lines, refusal) in table {
        check(&rt, &columns, input, &plainly(), lines, refusal)?;
    }
    Ok(())
}

#[test]
fn a_row_takes_the_place_of_what_its_list_had(rt: HostRuntime) -> Result<(), Fail> {
    let columns = texts_and_ints(rt.alloc())?;
    for had in [0, 1, 2, 5] {
        let how = Reading { had, ..plainly() };
        let lines = b"ab,7\n,-1\nc,0\n";
        check(&rt, &columns, b"k,v\nab,7\n,-1\nc,0\n", &how, lines, None)?;
    }
    Ok(())
}

#[test]
fn a_row_comes_in_a_list_of_its_own(rt: HostRuntime) -> Result<(), Fail> {
    let mut src = MemSource::over(rt.alloc(), b"k\na\n", 5, &[])?;
    let mut rows = Rows::of(&mut src);
    assert!(rt;
        rows.start(rt.alloc(), &texts(rt.alloc())?, ANY, ANY)
            .is_ok()
    );
    let Ok(Some(row)) = rows.next() else {
        return Err(Fail::from("no row"));
    };
    assert_eq!(rt; row_text(rt.alloc(), &row)?.as_slice(), b"a\n".as_slice());
    Ok(())
}

#[test]
fn fields_that_spell_an_int(rt: HostRuntime) -> Result<(), Fail> {
    const REFUSED: Option<InputErr> = Some(InputErr::Field {
        number: 1,
        column: 0,
    });
    let table: [(&[u8], &[u8], Option<InputErr>); 9] = [
        (b"v\n-0", b"0\n", None),
        (
            b"v\n9223372036854775807\n-9223372036854775808",
            b"9223372036854775807\n-9223372036854775808\n",
            None,
        ),
        (b"v\n+00000000000000000000000012", b"12\n", None),
        (b"v\n9223372036854775808", b"", REFUSED),
        (b"v\n-9223372036854775809", b"", REFUSED),
        (b"v\n340282366920938463463374607431768211457", b"", REFUSED),
        (b"v\n+", b"", REFUSED),
        (b"v\n 7", b"", REFUSED),
        (b"v\n+-7", b"", REFUSED),
    ];
    let columns = [column(rt.alloc(), "v", Kind::Int)?];
    for (input, lines, refusal) in table {
        check(&rt, &columns, input, &plainly(), lines, refusal)?;
    }
    Ok(())
}

#[test]
fn limits_of_records_and_bytes(rt: HostRuntime) -> Result<(), Fail> {
    const LARGE: Option<InputErr> = Some(InputErr::TooLarge);
    let table: [(&[u8], u64, u64, &[u8], Option<InputErr>); 6] = [
        (b"k\na\nb\n", 3, 6, b"a\nb\n", None),
        (b"k\na\nb\n", 2, 6, b"a\n", LARGE),
        (b"k\na\nb\n", 0, 6, b"", LARGE),
        (b"k\na\nb\n", 3, 5, b"", LARGE),
        (b"", 0, 0, b"", Some(InputErr::Header)),
        (
            b"k\na\nb,c\n",
            2,
            9,
            b"a\n",
            Some(InputErr::Csv { number: 2 }),
        ),
    ];
    let columns = texts(rt.alloc())?;
    for (input, max_records, max_bytes, lines, refusal) in table {
        let how = Reading {
            max_records,
            max_bytes,
            ..plainly()
        };
        check(&rt, &columns, input, &how, lines, refusal)?;
    }
    Ok(())
}

// A header, a record of so many bytes, and then the rest.
fn long_input(alloc: Global, len: usize, rest: &[u8]) -> Result<Vec<u8>, Fail> {
    let mut input = Vec::from_slice(alloc, b"k\n")?;
    input.resize(len.saturating_add(2), b'a')?;
    input.extend_from_slice(rest)?;
    Ok(input)
}

// What the lines of such an input's rows are behind the long one.
fn told_behind(alloc: Global, len: usize, rest: &[u8], chunk: usize) -> Result<Vec<u8>, Fail> {
    let input = long_input(alloc, len, rest)?;
    let how = Reading { chunk, ..plainly() };
    let (text, why) = told(alloc, &texts(alloc)?, input.as_slice(), &how)?;
    if why.is_some() || text.len() <= len {
        return Err(Fail::from("refused"));
    }
    Ok(Vec::from_slice(alloc, &text.as_slice()[len + 1..])?)
}

#[test]
fn an_input_is_cut_behind_newlines_outside_quotes(rt: HostRuntime) -> Result<(), Fail> {
    // Behind the first record and its newline the input has 1048576 bytes, or one less.
    let table: [(usize, usize, &[u8], &[u8]); 5] = [
        // A mark at the front of a later piece is passed over, and so are quotes behind it.
        (1048573, 1048576, b"\n\xef\xbb\xbf\"b\"\nc\n", b"b\nc\n"),
        // Where no piece begins, a mark is text.
        (
            1048572,
            1048576,
            b"\n\xef\xbb\xbfb\nc\n",
            b"\xef\xbb\xbfb\nc\n",
        ),
        (1048572, 7, b"\r\n\xef\xbb\xbfb\n", b"b\n"),
        (1048572, 1048576, b"\n\"x\ny\"\nc\n", b"\"x\ny\"\nc\n"),
        (1048570, 7, b"\n\"\"\"\n\"\n\"z\"\n", b"\"\"\"\n\"\nz\n"),
    ];
    for (len, chunk, rest, lines) in table {
        let text = told_behind(rt.alloc(), len, rest, chunk)?;
        assert_eq!(rt; text.as_slice(), lines, "{len} {rest:?} {chunk}");
    }
    Ok(())
}

#[test]
fn any_chunking_gives_the_same_rows(rt: HostRuntime) -> Result<(), Fail> {
    let columns = texts_and_ints(rt.alloc())?;
    for chunk in [1, 2, 3, 64] {
        let how = Reading { chunk, ..plainly() };
        let input = b"\xef\xbb\xbfv,\"k\"\n1,\"a\nb\"\r\n-2,c";
        check(&rt, &columns, input, &how, b"\"a\nb\",1\nc,-2\n", None)?;
    }
    Ok(())
}

#[test]
fn a_read_that_fails_ends_the_rows(rt: HostRuntime) -> Result<(), Fail> {
    // Where the second piece can't be read, the rows of the first one came before.
    let table: [(usize, usize, &[u64], usize); 2] = [
        (20, 5, &[1], 0),
        (1048573, 16384, &[65], 1048574),
    ];
    for (len, chunk, fails, told_len) in table {
        let input = long_input(rt.alloc(), len, b"\nb\n")?;
        let how = Reading {
            chunk,
            fails,
            ..plainly()
        };
        let (text, why) = told(rt.alloc(), &texts(rt.alloc())?, &input, &how)?;
        assert_eq!(rt; (text.len(), why), (told_len, Some(InputErr::Fault)));
    }
    Ok(())
}

#[test]
fn values_as_a_line(rt: HostRuntime) -> Result<(), Fail> {
    let row = [
        Value::Text(Bytes::of(rt.alloc(), b"a \"b\"")?),
        Value::Int(-9223372036854775808),
        Value::Wide(18446744073709551614),
    ];
    let want = b"\"a \"\"b\"\"\",-9223372036854775808,18446744073709551614\n";
    assert_eq!(rt; row_text(rt.alloc(), &row)?.as_slice(), want.as_slice());
    Ok(())
}

#[test]
fn a_piece_goes_out_in_parts(rt: HostRuntime) -> Result<(), Fail> {
    let mut sink = MemSink::new(rt.alloc(), 3, &[3])?;
    let went = [
        write_whole(&mut sink, b"abcdefgh").is_ok(),
        write_whole(&mut sink, b"ijk").is_ok(),
    ];
    assert_eq!(rt; went, [true, false]);
    assert_eq!(rt; sink.bytes(), b"abcdefgh".as_slice());
    Ok(())
}
