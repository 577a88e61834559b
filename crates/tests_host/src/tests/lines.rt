// What is told of a status and of the lines of a report.

use crate::tests::people::{Desk, owned};
use host::{advise, tell_output};
use std::alloc::Global;
use std::io;
use std::rt::Files;
use std::test::Fail;

// What is told on standard error for a status, the words that led to it and the report.
pub(super) fn advice<F: Files + AllocGlobal>(
    files: &F,
    alloc: Global,
    status: u8,
    words: &[&str],
    report: &str,
) -> Result<String, Fail> {
    let desk = Desk::new(alloc);
    let words = owned(alloc, words)?;
    advise(files, &desk, status, words.as_slice(), report)?;
    let shown = desk.shown.try_borrow()?;
    Ok(String::from_str(alloc, shown.as_str())?)
}

#[test]
fn each_status_has_a_sentence_but_0_and_that_of_a_file(rt: HostRuntime) -> Result<(), Fail> {
    let count: &[&str] = &["count", "in.csv", "k"];
    let check: &[&str] = &["selfcheck", "3", "10", "5", "20"];
    let rows: [(u8, &[&str], &str, &str); 9] = [
        (0, count, "k,count\n", ""),
        (3, count, "3 input left\n", ""),
        (9, count, "k,count\n", ""),
        (
            7,
            count,
            "k,count\n7 1,2\n",
            "spill: the answer is incomplete: there are more values than scratch holds: a plan with longer pages may do\n",
        ),
        (
            8,
            count,
            "k,count\n",
            "spill: the answer is incomplete: a page could not be written to the scratch file, or read from it: see the reason above\n",
        ),
        (
            10,
            count,
            "k,count\n",
            "spill: the answer is incomplete: out of memory: end other programs, or raise the limit of memory\n",
        ),
        (
            10,
            count,
            "10 memory\n",
            "spill: out of memory: end other programs, or raise the limit of memory\n",
        ),
        (
            6,
            check,
            "6 reservation query 163840 155648\n",
            "spill: it needs 163840 bytes, and its memory has 155648: 20 BLOCKS would do\n",
        ),
        (
            9,
            check,
            "9 output\n",
            "spill: the answer was not written to selfcheck.csv: see the reason above\n",
        ),
    ];
    for (status, words, report, told) in rows {
        let advice = advice(&rt, rt.alloc(), status, words, report)?;
        assert_eq!(rt; advice.as_str(), told);
    }
    Ok(())
}

#[test]
fn words_that_are_no_command_name_the_mistake(rt: HostRuntime) -> Result<(), Fail> {
    let rows: [(&[&str], &str); 6] = [
        (&[], ""),
        (
            &["cuont\n", "in.csv"],
            "spill: unknown command \"cuont\\n\"\n",
        ),
        (
            &["count", "in.csv"],
            "spill: wrong number of arguments: count takes FILE COLUMN\n",
        ),
        (
            &["help", "me"],
            "spill: wrong number of arguments: help takes none\n",
        ),
        (
            &["count", "-.csv", "k"],
            "spill: an argument is empty or begins with a hyphen: of a file write ./ before its name\n",
        ),
        (
            &["selfcheck", "3", "10", "0", "20"],
            "spill: an argument is out of range: ",
        ),
    ];
    for (words, mistake) in rows {
        let advice = advice(&rt, rt.alloc(), 1, words, "1 words\n")?;
        assert!(rt; advice.as_str().starts_with(mistake));
        assert_eq!(rt; advice.as_str().contains("spill: "), !words.is_empty());
        assert!(rt; advice.as_str().contains("usage: spill count FILE COLUMN\n"));
    }
    Ok(())
}

#[test]
fn a_file_that_is_no_plan_is_told_why(rt: HostRuntime) -> Result<(), Fail> {
    let rows = [
        ("2 plan Syntax\n", "it is not a TOML document in UTF-8"),
        (
            "2 plan MissingKey blocks\n",
            "the key \"blocks\" is missing",
        ),
        (
            "2 plan UnknownKey bloks\n",
            "the key \"bloks\" is unknown: correct or remove it",
        ),
        (
            "2 plan WrongKind blocks\n",
            "the value of \"blocks\" is of the wrong kind",
        ),
        (
            "2 plan Limit blocks\n",
            "the value of \"blocks\" is outside its limits",
        ),
        (
            "2 plan Limit plan\n",
            "the file has more than 1048576 bytes",
        ),
        (
            "2 plan UnknownColumn query.1.group.1\n",
            "\"query.1.group.1\" names a column that no \"columns\" has",
        ),
        (
            "2 plan KindClash query.1.agg.1.column\n",
            "\"query.1.agg.1.column\" names a column of the wrong kind (int or text)",
        ),
        (
            "2 plan Repeated query.1.group.2\n",
            "\"query.1.group.2\" names a column a second time",
        ),
        (
            "2 plan SameOutput query.2.output\n",
            "\"query.2.output\" is also another output or an input: choose another file",
        ),
        (
            "2 plan QuotaSum query\n",
            "its quotas are more than 131072 together: lower some",
        ),
    ];
    for (report, why) in rows {
        let advice = advice(&rt, rt.alloc(), 2, &["run", "p.toml"], report)?;
        let told = format!(in rt.alloc(); "spill: p.toml is no plan: {why}\n")?;
        assert_eq!(rt; advice.as_str(), told.as_str());
    }
    Ok(())
}

#[test]
fn a_line_of_a_count_names_its_file_and_record(rt: HostRuntime) -> Result<(), Fail> {
    let rows: [(u8, &str, &str); 6] = [
        (
            4,
            "4 header left\n",
            "spill: the header of no-such.csv, split at commas, must have each column that is asked for exactly once\n",
        ),
        (
            4,
            "4 csv left 17\n",
            "spill: record 17 of no-such.csv (the header is 0) must have as many fields as the header\n",
        ),
        (
            4,
            "4 large left\n",
            "spill: no-such.csv is too large: it has more than 2147483648 records or 1099511627776 bytes: split it\n",
        ),
        (
            5,
            "5 row left 3 9024\n",
            "spill: record 3 of no-such.csv (the header is 0): the value in the column \"k\" has 9000 bytes, and at most 8168 fit: a plan with longer pages may do; if no value is that long, a quote may not be closed\n",
        ),
        (
            7,
            "7 scratch 1 0\n",
            "spill: no-such.csv has more values than scratch holds: a plan with longer pages may do\n",
        ),
        (
            8,
            "8 read 3\n",
            "spill: a page could not be read from the scratch file (event 3 of the pool, from 0): see the reason above\n",
        ),
    ];
    for (status, report, told) in rows {
        let words: &[&str] = &["count", "no-such.csv", "k"];
        let advice = advice(&rt, rt.alloc(), status, words, report)?;
        assert_eq!(rt; advice.as_str(), told);
    }
    Ok(())
}

#[test]
fn a_line_of_a_run_names_its_query_and_what_would_do(rt: HostRuntime) -> Result<(), Fail> {
    let rows: [(u8, &str, &str); 8] = [
        (
            4,
            "query 1: 0 lines 2\nquery 2: 4 field right 9 a b\n",
            "spill: query 2 of no-such.toml: record 9 of an input (the header is 0) must have a whole number of 64 bits in the column \"a b\": correct it, or read the column as text\n",
        ),
        (
            5,
            "query 1: 5 row left 3 9024\n",
            "spill: query 1 of no-such.toml: record 3 of an input (the header is 0): its row takes 9024 bytes, and a page has fewer: longer pages (\"page_blocks\") would do; if no value is that long, a quote may not be closed\n",
        ),
        (
            6,
            "query 1: 6 reservation query 163840 155648\n",
            "spill: query 1 of no-such.toml: it needs 163840 bytes, and its \"limit\" is 155648: a \"limit\" of 163840 would do\n",
        ),
        (
            6,
            "query 2: 6 reservation root 1280 768\n",
            "spill: query 2 of no-such.toml: it needs 1280 bytes, and the queries before it left 768 of the plan's memory: more \"blocks\" would do\n",
        ),
        (
            7,
            "query 1: 7 scratch 1 0\n",
            "spill: query 1 of no-such.toml: it used up its scratch slots: a higher \"quota\" may do\n",
        ),
        (
            7,
            "query 1: 7 names\n",
            "spill: query 1 of no-such.toml: the input is too large: all numbers of pages were used up: split the input\n",
        ),
        (
            9,
            "query 1: 9 output\n",
            "spill: query 1 of no-such.toml: the answer was not written to its output: see the reason above\n",
        ),
        (
            10,
            "query 1: 10 memory\n",
            "spill: query 1 of no-such.toml: out of memory: end other programs, or raise the limit of memory\n",
        ),
    ];
    for (status, report, told) in rows {
        let words: &[&str] = &["run", "no-such.toml"];
        let advice = advice(&rt, rt.alloc(), status, words, report)?;
        assert_eq!(rt; advice.as_str(), told);
    }
    Ok(())
}

#[test]
fn a_reader_that_leaves_is_told_nothing(rt: HostRuntime) -> Result<(), Fail> {
    let rows = [
        (io::ErrorKind::BrokenPipe, ""),
        (
            io::ErrorKind::StorageFull,
            "spill: writing to standard output failed, so the answer is incomplete: ",
        ),
    ];
    for (kind, begins) in rows {
        let desk = Desk::new(rt.alloc());
        tell_output(&desk, &io::Error::from(kind))?;
        let shown = desk.shown.try_borrow()?;
        assert!(rt; shown.as_str().starts_with(begins));
        assert_eq!(rt; shown.as_str().is_empty(), begins.is_empty());
    }
    Ok(())
}
