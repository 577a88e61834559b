use super::{GROUPS, JOINS, PlanErr, check_refused, fault, read_plan};
use query_plan::slots_of;
use std::alloc::{AllocError, Global};
use std::test::Fail;

const HEAD: &str = "block_len = 64\nblocks = 32\nwriters = 1\n";

const QUERY: &str = "[[query]]\npage_blocks = 1\nlimit = 2048\nquota = 700\noutput = \"NAME\"
group = [\"k\"]\n[query.left]\nfile = \"in.csv\"\ncolumns = [\"k:text\"]\n";

// A plan of two queries with these outputs.
fn two_queries(alloc: Global, one: &str, two: &str) -> Result<String, AllocError> {
    let mut text = String::from_str(alloc, HEAD)?;
    text.push_str(QUERY.replace(alloc, "NAME", one)?.as_str())?;
    text.push_str(QUERY.replace(alloc, "NAME", two)?.as_str())?;
    Ok(text)
}

#[test]
fn outputs_and_quotas_are_looked_at_last(rt: HostRuntime) -> Result<(), Fail> {
    let rows = [
        ("one.csv", "two.csv", 1399, "QuotaSum", "query"),
        ("one.csv", "one.csv", 0, "SameOutput", "query.2.output"),
        ("in.csv", "one.csv", 0, "SameOutput", "query.1.output"),
    ];
    for (one, two, slots, name, key) in rows {
        let text = two_queries(rt.alloc(), one, two)?;
        let why = fault(rt.alloc(), name, key)?;
        check_refused(&rt, rt.alloc(), text.as_bytes(), slots, why);
    }
    let text = two_queries(rt.alloc(), "one.csv", "two.csv")?;
    assert!(rt; read_plan(rt.alloc(), text.as_bytes(), 1400).is_ok());
    Ok(())
}

#[test]
fn a_document_has_at_most_a_mebibyte(rt: HostRuntime) -> Result<(), Fail> {
    let rows = [
        (1048576, "MissingKey", "block_len"),
        (1048577, "Limit", "plan"),
    ];
    for (len, name, key) in rows {
        let text = vec![in rt.alloc(); b'#'; len]?;
        let why = fault(rt.alloc(), name, key)?;
        check_refused(&rt, rt.alloc(), text.as_slice(), 0, why);
    }
    Ok(())
}

#[test]
fn a_document_is_utf8_toml(rt: HostRuntime) -> Result<(), Fail> {
    let mut deep = Vec::from_slice(rt.alloc(), b"a = ")?;
    deep.resize(100004, b'[')?;
    for text in [b"a = \"\xff\"".as_slice(), b"a = ", deep.as_slice()] {
        check_refused(&rt, rt.alloc(), text, 0, PlanErr::Syntax);
    }
    Ok(())
}

// The plan of a grouping with this line in its query.
fn with_line(alloc: Global, line: &str) -> Result<String, AllocError> {
    let text = GROUPS.replace(alloc, "quota = 700\n", "quota = 100\nLINE\n")?;
    text.replace(alloc, "LINE", line)
}

#[test]
fn fragments_are_from_one_to_eight_where_a_query_groups_alone(rt: HostRuntime) -> Result<(), Fail> {
    let rows = [
        ("fragments = 0", "Limit"),
        ("fragments = 9", "Limit"),
        ("fragments = -1", "Limit"),
        ("fragments = \"2\"", "WrongKind"),
    ];
    for (line, name) in rows {
        let text = with_line(rt.alloc(), line)?;
        let why = fault(rt.alloc(), name, "query.1.fragments")?;
        check_refused(&rt, rt.alloc(), text.as_bytes(), 4096, why);
    }
    let joins = JOINS.replace(rt.alloc(), "quota = 700\n", "quota = 700\nfragments = 2\n")?;
    let why = fault(rt.alloc(), "UnknownKey", "query.1.fragments")?;
    check_refused(&rt, rt.alloc(), joins.as_bytes(), 4096, why);
    Ok(())
}

// What a line makes of the number of fragments, and the slots of all sessions, each of 100.
#[test]
fn several_fragments_have_a_session_each_and_one_more(rt: HostRuntime) -> Result<(), Fail> {
    let rows = [
        ("", 1, 100),
        ("fragments = 1", 1, 100),
        ("fragments = 2", 2, 300),
        ("fragments = 8", 8, 900),
    ];
    for (line, fragments, slots) in rows {
        let text = with_line(rt.alloc(), line)?;
        let plan = read_plan(rt.alloc(), text.as_bytes(), slots)?;
        let [query] = plan.queries.as_slice() else {
            return Err(Fail::from("one query"));
        };
        assert_eq!(rt;
            (query.fragments, slots_of(query)),
            (fragments, u64::from(slots)),
            "{line}"
        );
        let why = fault(rt.alloc(), "QuotaSum", "query")?;
        check_refused(
            &rt,
            rt.alloc(),
            text.as_bytes(),
            slots.saturating_sub(1),
            why,
        );
    }
    Ok(())
}

#[test]
fn a_trace_has_an_output_and_a_number_of_entries(rt: HostRuntime) -> Result<(), Fail> {
    let rows = [("t", "1", 1), ("a/b.trace", "1048576", 1048576)];
    for (name, number, entries) in rows {
        let line = "writers = 0\ntrace = \"NAME\"\ntrace_entries = NUMBER";
        let text = GROUPS.replace(rt.alloc(), "writers = 0", line)?;
        let text = text
            .replace(rt.alloc(), "NAME", name)?
            .replace(rt.alloc(), "NUMBER", number)?;
        let plan = read_plan(rt.alloc(), text.as_bytes(), 4096)?;
        let Some(trace) = &plan.trace else {
            return Err(Fail::from("a trace"));
        };
        assert_eq!(rt; (trace.output.as_str(), trace.entries), (name, entries));
    }
    let plan = read_plan(rt.alloc(), GROUPS.as_bytes(), 4096)?;
    assert!(rt; plan.trace.is_none());
    Ok(())
}
