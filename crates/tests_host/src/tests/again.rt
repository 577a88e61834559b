// What is told of files that are read again.

use crate::tests::lines::advice;
use crate::tests::place;
use std::alloc::{AllocError, Global};
use std::fs;
use std::test::Fail;

// A plan of two queries, of which each needs 20 pages of 512 bytes, over these files.
fn plan(alloc: Global, left: &str, right: &str) -> Result<String, AllocError> {
    format!(in alloc;
        "block_len = 256
blocks = 50
writers = 0
[[query]]
page_blocks = 2
limit = 10240
quota = 0
output = \"one.csv\"
group = [\"k\"]
left = {{file = \"{left}\", columns = [\"k:text\"]}}
[[query]]
page_blocks = 2
limit = 10240
quota = 0
output = \"two.csv\"
on = [[\"k\", \"k\"]]
left = {{file = \"{left}\", columns = [\"k:text\"]}}
right = {{file = \"{right}\", columns = [\"k:text\", \"v:int\"]}}
"
    )
}

#[test]
fn a_run_reads_its_plan_and_its_files_again(rt: HostRuntime) -> Result<(), Fail> {
    let name = place(&rt, "again.toml")?;
    let left = place(&rt, "left.csv")?;
    let right = place(&rt, "right.csv")?;
    fs::write(&rt, left.as_str(), "a,b\n")?;
    fs::write(&rt, right.as_str(), "v,k\n7,a\n1.5,b\n")?;
    let text = plan(rt.alloc(), left.as_str(), right.as_str())?;
    fs::write(&rt, name.as_str(), text.as_str())?;
    let rows = [
        (
            "4 header left",
            "LEFT has no column \"k\": its header has a, b",
        ),
        (
            "4 field right 2 v",
            "record 2 of RIGHT (the header is 0) has \"1.5\" in the column \"v\", which must be a whole number of 64 bits: correct it, or read the column as text",
        ),
        (
            "5 row right 3 513",
            "record 3 of RIGHT (the header is 0): its row takes 513 bytes, and a page has 512: a \"page_blocks\" of 4 would do; if no value is that long, a quote may not be closed",
        ),
        (
            "5 row right 3 65537",
            "record 3 of RIGHT (the header is 0): its row takes 65537 bytes, and a page has 512: longer blocks (\"block_len\") may do; if no value is that long, a quote may not be closed",
        ),
        (
            "6 reservation root 10240 2560",
            "it needs 10240 bytes, and the queries before it left 2560 of the plan's memory: 80 \"blocks\" would do",
        ),
        (
            "7 scratch 2 0",
            "it used up its scratch slots: a \"quota\" of 54 would do",
        ),
        (
            "9 output",
            "the answer was not written to two.csv: see the reason above",
        ),
    ];
    for (line, told) in rows {
        let report = format!(in rt.alloc(); "query 2: {line}\n")?;
        let told = told.replace(rt.alloc(), "LEFT", left.as_str())?;
        let told = told.as_str().replace(rt.alloc(), "RIGHT", right.as_str())?;
        let told = format!(in rt.alloc(); "spill: query 2 of {name}: {told}\n")?;
        let words: &[&str] = &["run", name.as_str()];
        let advice = advice(&rt, rt.alloc(), 4, words, report.as_str())?;
        assert_eq!(rt; advice.as_str(), told.as_str());
    }
    for file in [&name, &left, &right] {
        fs::remove_file(&rt, file.as_str())?;
    }
    Ok(())
}

#[test]
fn a_file_of_a_count_is_read_again(rt: HostRuntime) -> Result<(), Fail> {
    let name = place(&rt, "count.csv")?;
    let rows = [
        (
            "order,city\n",
            "4 header left",
            "FILE has no column \"k\": its header has order, city",
        ),
        (
            "\n\r\n",
            "4 header left",
            "FILE has no header: it is empty, or has only blank lines",
        ),
        (
            "\u{feff}K;\u{1b}[2Jx\n",
            "4 header left",
            "FILE has no column \"k\": its header, split at commas, has only K;\\u{1b}[2Jx",
        ),
        (
            "a,, k,\"b,c\"\n",
            "4 header left",
            "FILE has no column \"k\": its header has a, \"\", \" k\", \"b,c\"",
        ),
        (
            "k,k\n",
            "4 header left",
            "FILE has the column \"k\" twice: rename one of the two",
        ),
        (
            "k,\"k\",a,k\n",
            "4 header left",
            "FILE has the column \"k\" 3 times: rename all but one of them",
        ),
        (
            "a,b,c,d,e,f,g,h,i,j,l,m,n,o\n",
            "4 header left",
            "FILE has no column \"k\": its header has a, b, c, d, e, f, g, h, i, j, l, m and 2 more",
        ),
        (
            "k,v\n\n1,2\n\"1\n2\",3,4\n",
            "4 csv left 2",
            "record 2 of FILE (the header is 0) has 3 fields, and the header has 2: a value with a comma needs quotes around it",
        ),
        (
            "k,v\n1\n",
            "4 csv left 1",
            "record 1 of FILE (the header is 0) has 1 field, and the header has 2: each record needs as many",
        ),
    ];
    for (text, line, told) in rows {
        fs::write(&rt, name.as_str(), text)?;
        let told = told.replace(rt.alloc(), "FILE", name.as_str())?;
        let told = format!(in rt.alloc(); "spill: {told}\n")?;
        let words: &[&str] = &["count", name.as_str(), "k"];
        let advice = advice(&rt, rt.alloc(), 4, words, line)?;
        assert_eq!(rt; advice.as_str(), told.as_str());
    }
    fs::remove_file(&rt, name.as_str())?;
    Ok(())
}

#[test]
fn a_header_that_may_have_been_cut_is_not_told(rt: HostRuntime) -> Result<(), Fail> {
    let name = place(&rt, "long.csv")?;
    let words: &[&str] = &["count", name.as_str(), "k"];
    for (len, is_told) in [(65530, true), (65536, false)] {
        let mut text = vec![in rt.alloc(); b'x'; len]?;
        text.extend_from_slice(b"\n1\n")?;
        fs::write(&rt, name.as_str(), text.as_slice())?;
        let advice = advice(&rt, rt.alloc(), 4, words, "4 header left\n")?;
        assert_eq!(rt; advice.as_str().contains(" has no column "), is_told);
        assert!(rt; advice.as_str().len() < 400);
    }
    fs::remove_file(&rt, name.as_str())?;
    Ok(())
}
