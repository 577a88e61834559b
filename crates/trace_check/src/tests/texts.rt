//! Whole texts.
use crate::{Checked, MAX_BYTES, TraceErr, check_trace};
use std::alloc::Global;
use std::process::Abort;
use std::test::Fail;

// A pool of four blocks of 64 bytes, and a session with one client that reserves all of it.
const BEGUN: &str = "pool 4 64 0
s0 AddTracker 1 0 256 8
s0 Increase 1 256
s0 AddTracker 2 1 256
s0 Increase 2 256
";

// Two pages, of which the second was written first.
const WRITTEN: &str = "s0 Ask
s0 Create 0 2 1
s0 Create 1 2 1
s0 Unpin 0
s0 Unpin 1
s0 StartWrite 1
s0 WriteOk 1
w1000 StartWrite 0
w1000 WriteOk 0
";

fn accepted(entries: u64, whole: bool) -> Result<Checked, TraceErr> {
    Ok(Checked { entries, whole })
}

fn out_of_form(line: u64) -> Result<Checked, TraceErr> {
    Err(TraceErr::Syntax { line })
}

fn illegal(entry: u64) -> Result<Checked, TraceErr> {
    Err(TraceErr::Illegal { entry })
}

// The text that begins so and goes on so has this answer.
fn answers(
    rt: &impl Abort,
    alloc: Global,
    begun: &str,
    rest: &str,
    wanted: Result<Checked, TraceErr>,
) -> Result<(), Fail> {
    let text = format!(in alloc; "{begun}{rest}")?;
    assert_eq!(rt; check_trace(alloc, text.as_bytes()), wanted);
    Ok(())
}

#[test]
fn a_session_opens_or_the_first_fault_is_told(rt: HostRuntime) -> Result<(), Fail> {
    let rows = [
        (
            "s0 Increase 1 256\ns0 AddTracker 2 1 256\ns0 Increase 2 256\nend\n",
            accepted(4, true),
        ),
        (
            "s0 Increase 1 257\ns0 AddTracker 2 1 256\ns0 Increase 2 256\nend\n",
            illegal(1),
        ),
        (
            "s0 Increase 1 256\ns0 AddTracker 2 1 256\ns0 Increase 2 256\n",
            out_of_form(6),
        ),
        (
            "s0 Increase 1 256\ns0 AddTracker 2 1 256\ns0 Increase 2 256\ns0 Create 0 2 1\ns0 Evict 0\nend\n",
            illegal(5),
        ),
        ("end\n", accepted(1, true)),
        ("cut\n", accepted(1, false)),
        ("s0 Increase 1 257\ns0 Increase 1\nend\n", illegal(1)),
        ("s0 Increase 1\ns0 Increase 1 257\nend\n", out_of_form(3)),
    ];
    for (rest, wanted) in rows {
        answers(
            &rt,
            rt.alloc(),
            "pool 4 64 0\ns0 AddTracker 1 0 256 8\n",
            rest,
            wanted,
        )?;
    }
    Ok(())
}

#[test]
fn a_line_out_of_form_is_told_by_its_number(rt: HostRuntime) -> Result<(), Fail> {
    let rows = [
        "",
        "end",
        "end\r\n",
        "end\nend\n",
        "end\n\n",
        "end\ns0 Ask\n",
        "cut\nend\n",
        "End\n",
        "s0 Ask\r\nend\n",
        "s0 Ask",
        "s00 Ask\nend\n",
        "s0 Increase 2 00\nend\n",
        "s0 Increase 2 18446744073709551616\nend\n",
        "s0 Grow 2 1\nend\n",
        "s0 Increase 2\nend\n",
        "s0 Increase 2 0 0\nend\n",
        "s0 AddTracker 3 0 64\nend\n",
        "s0 AddTracker 3 1 64 8\nend\n",
        "\nend\n",
    ];
    for rest in rows {
        answers(&rt, rt.alloc(), BEGUN, rest, out_of_form(6))?;
    }
    Ok(())
}

#[test]
fn an_entry_that_can_not_follow_is_told_by_its_number(rt: HostRuntime) -> Result<(), Fail> {
    let rows = [
        ("s1000 Ask\nend\n", illegal(4)),
        ("s240 Ask\nend\n", illegal(4)),
        ("w9 Ask\nend\n", illegal(4)),
        ("w1000 Ask\nend\n", illegal(4)),
        ("w1008 StartWrite 0\nend\n", illegal(4)),
        ("s0 CloseTracker 2\nend\n", illegal(4)),
        (
            "s0 Decrease 2 256\ns0 CloseTracker 2\ns0 Increase 2 1\nend\n",
            illegal(6),
        ),
        ("s0 AddTracker 2 1 64\nend\n", illegal(4)),
        ("s1 Increase 2 0\nend\n", illegal(4)),
        ("s0 Create 1 2 1\nend\n", illegal(4)),
        ("s0 Create 0 2 5\nend\n", illegal(4)),
        ("s0 Create 0 2 4\ns0 Alloc 0 2 1\nend\n", illegal(5)),
        ("s0 Create 0 2 1\ns1 Unpin 0\nend\n", illegal(5)),
        ("s0 Create 0 2 1\ns0 PinHere 0\nend\n", illegal(5)),
        ("s0 Create 0 2 1\ns0 UnpinOnce 0\nend\n", illegal(5)),
        (
            "s0 Ask\ns0 Create 0 2 1\ns0 Refused pin 0 4\nend\n",
            illegal(6),
        ),
    ];
    for (rest, wanted) in rows {
        answers(&rt, rt.alloc(), BEGUN, rest, wanted)?;
    }
    Ok(())
}

#[test]
fn pages_are_written_newest_first_and_evicted_eldest_first(rt: HostRuntime) -> Result<(), Fail> {
    let begun = format!(in rt.alloc(); "{BEGUN}{WRITTEN}")?;
    let rows = [
        ("s0 Evict 1\ns0 Evict 0\nend\n", accepted(15, true)),
        ("s0 Evict 0\nend\n", illegal(13)),
        (
            "s0 Evict 1\ns0 PinLoad 1\ns0 ReadOk 1\ns0 PinHere 0\ns0 PinAgain 0\ns0 UnpinOnce 0\ncut\n",
            accepted(19, false),
        ),
        (
            "s0 PinHere 0\ns0 Extract 0 7\ns0 MoveBuffer 7 2\nend\n",
            illegal(15),
        ),
        (
            "s0 PinHere 0\ns0 Extract 0 7\ns0 Free 7\ns0 Destroy 1\ns0 Decrease 2 256\ns0 CloseTracker 2\nend\n",
            accepted(19, true),
        ),
        ("w1001 WriteOk 0\nend\n", illegal(13)),
        ("s0 ReadStale 0 11 0 1 9 0\nend\n", illegal(13)),
    ];
    for (rest, wanted) in rows {
        answers(&rt, rt.alloc(), begun.as_str(), rest, wanted)?;
    }
    Ok(())
}

#[test]
fn a_text_without_opening_data_is_refused_at_its_first_line(rt: HostRuntime) {
    let texts = [
        "",
        "end\n",
        "s0 Ask\nend\n",
        "pool\nend\n",
        "pool 4 64\nend\n",
        "pool 4 64 0 0\nend\n",
        "pool 4 64 0",
        "pool 4 64 0\r\nend\n",
        "pool  4 64 0\nend\n",
        "pool 4 64 00\nend\n",
        "pool 4 64 18446744073709551616\nend\n",
        "pool 0 64 0\nend\n",
        "pool 1048577 64 0\nend\n",
        "pool 4 32 0\nend\n",
        "pool 4 96 0\nend\n",
        "pool 4 131072 0\nend\n",
        "pool 32769 65536 0\nend\n",
        "Pool 4 64 0\nend\n",
        "pools 4 64 0\nend\n",
    ];
    for text in texts {
        let answer = check_trace(rt.alloc(), text.as_bytes());
        assert_eq!(rt; answer, Err(TraceErr::Syntax { line: 1 }), "{text}");
    }
}

#[test]
fn a_text_of_more_than_256_mib_is_too_large(rt: HostRuntime) -> Result<(), Fail> {
    let text = vec![in rt.alloc(); b'\n'; MAX_BYTES + 1]?;
    assert_eq!(rt;
        check_trace(rt.alloc(), text.as_slice()),
        Err(TraceErr::Large)
    );
    assert_eq!(rt;
        check_trace(rt.alloc(), &text.as_slice()[1..]),
        Err(TraceErr::Syntax { line: 1 })
    );
    Ok(())
}

// A session whose client holds all that it reserves; a write and a read of it failed.
const FAILED: &str = "s0 Ask
s0 Create 0 2 1
s0 Unpin 0
w1000 StartWrite 0
w1000 WriteFailed 0
s0 StartWrite 0
s0 WriteOk 0
s0 Evict 0
s0 PinLoad 0
s0 ReadFailed 0
s0 Create 1 2 4
";

#[test]
fn a_refusal_names_the_first_failure_or_the_last_read_that_failed(
    rt: HostRuntime,
) -> Result<(), Fail> {
    let begun = format!(in rt.alloc(); "{BEGUN}{FAILED}")?;
    let rows = [
        (
            "s0 Refused pin 0 8\ns0 Refused pin 0 13\ns0 Refused create 2 1 8\ns0 Refused alloc 2 1 8\ns0 Refused give_back 2 1 8\ns0 Refused move_reservation 2 1 1 8\ns0 Refused pin_again 1 8\nend\n",
            accepted(22, true),
        ),
        ("s0 Refused pin 0 9\nend\n", illegal(15)),
        ("s0 Refused create 2 1 13\nend\n", illegal(15)),
        ("s0 Refused create 2 0 8\nend\n", illegal(15)),
        ("s0 Refused pin_again 1 13\nend\n", illegal(15)),
        ("s0 Ask\ns0 Refused pin 0 13\nend\n", illegal(16)),
        ("s0 Ask\ns0 Refused create 2 1 8\nend\n", illegal(16)),
        (
            "s0 Destroy 1\ns0 Refused pin 0 13\nend\n",
            accepted(17, true),
        ),
        ("s0 Destroy 1\ns0 Refused pin 0 8\nend\n", illegal(16)),
        (
            "s0 Destroy 1\ns0 PinLoad 0\ns0 ReadFailed 0\ns0 Refused pin 0 17\ncut\n",
            accepted(19, false),
        ),
        (
            "s0 Destroy 1\ns0 PinLoad 0\ns0 ReadFailed 0\ns0 Refused pin 0 13\ncut\n",
            illegal(18),
        ),
    ];
    for (rest, wanted) in rows {
        answers(&rt, rt.alloc(), begun.as_str(), rest, wanted)?;
    }
    Ok(())
}

#[test]
fn a_stale_read_wants_the_block_that_was_written_last(rt: HostRuntime) -> Result<(), Fail> {
    let begun = format!(in rt.alloc(); "{BEGUN}{WRITTEN}s0 Evict 1\ns0 PinLoad 1\n")?;
    let rows = [
        (
            "s0 ReadStale 1 9 0 0 11 0\ns0 Refused pin 1 15\ns0 PinLoad 1\ns0 ReadOk 1\nend\n",
            accepted(19, true),
        ),
        ("s0 ReadStale 1 9 0 1 9 1\nend\n", accepted(16, true)),
        ("s0 ReadStale 1 9 0 1 9 0\nend\n", illegal(15)),
        ("s0 ReadStale 1 11 0 0 11 0\nend\n", illegal(15)),
        ("s0 ReadStale 1 9 1 0 11 0\nend\n", illegal(15)),
        ("s0 ReadStale 0 11 0 1 9 0\nend\n", illegal(15)),
        ("s0 ReadStale 1 9 0 0 11 0\ns0 ReadOk 1\nend\n", illegal(16)),
    ];
    for (rest, wanted) in rows {
        answers(&rt, rt.alloc(), begun.as_str(), rest, wanted)?;
    }
    Ok(())
}

#[test]
fn a_tracker_ends_with_its_session_and_its_number_may_come_again(
    rt: HostRuntime,
) -> Result<(), Fail> {
    let closed = "s0 Decrease 2 256\ns0 CloseTracker 2\ns0 CloseTracker 1\n";
    let begun = format!(in rt.alloc(); "{BEGUN}{closed}")?;
    let rows = [
        ("s0 Increase 1 0\nend\n", illegal(7)),
        ("s0 CloseTracker 1\nend\n", illegal(7)),
        ("s0 AddTracker 2 1 256\nend\n", illegal(7)),
        ("s0 Create 0 2 0\nend\n", illegal(7)),
        ("s0 Ask\ns0 Refused create 2 1 0\nend\n", illegal(8)),
        (
            "s7 AddTracker 2 0 64 1\ns7 AddTracker 1 2 64\ns7 IncreaseToFit 1 64\ns7 Create 0 1 1\nend\n",
            accepted(11, true),
        ),
        (
            "s7 AddTracker 2 0 64 1\ns0 AddTracker 1 2 64\nend\n",
            illegal(8),
        ),
        (
            "s0 AddTracker 1 0 64 1\ns0 AddTracker 3 0 64 1\nend\n",
            illegal(8),
        ),
    ];
    for (rest, wanted) in rows {
        answers(&rt, rt.alloc(), begun.as_str(), rest, wanted)?;
    }
    Ok(())
}
