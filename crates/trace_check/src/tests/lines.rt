//! Lines of entries, as they are written and read.
use crate::reading::{opening_at, skeleton_at};
use crate::{Opened, entry_line, last_line, opening_line};
use pool_model::{Bare, Call, Skeleton};
use reservation_tree::{Mark, TrackerId};
use std::alloc::Global;
use std::process::Abort;
use std::test::Fail;

fn id(number: u32) -> TrackerId {
    TrackerId::of(number)
}

fn mark(name: u64, version: u64, block: u32) -> Mark {
    Mark {
        name,
        version,
        block,
    }
}

// The line of session 7's event is this one, and is read as that event.
fn is_line_of(rt: &impl Abort, alloc: Global, event: Bare, words: &str) -> Result<(), Fail> {
    let entry = Skeleton {
        writer: false,
        maker: 7,
        event,
    };
    let wanted = format!(in alloc; "s7 {words}\n")?;
    let line = entry_line(alloc, &entry)?;
    assert_eq!(rt; line.as_slice(), wanted.as_bytes());
    assert_eq!(rt; skeleton_at(line.as_slice()), Some((entry, b"".as_slice())));
    Ok(())
}

#[test]
fn an_event_of_trackers_or_pages_has_its_line(rt: HostRuntime) -> Result<(), Fail> {
    let rows = [
        (Bare::Ask, "Ask"),
        (
            Bare::AddTracker {
                tracker: id(1),
                parent: id(0),
                limit: 256,
                quota: Some(8),
            },
            "AddTracker 1 0 256 8",
        ),
        (
            Bare::AddTracker {
                tracker: id(2),
                parent: id(1),
                limit: u64::MAX,
                quota: None,
            },
            "AddTracker 2 1 18446744073709551615",
        ),
        (
            Bare::CloseTracker {
                tracker: id(4294967295),
            },
            "CloseTracker 4294967295",
        ),
        (
            Bare::Increase {
                tracker: id(2),
                bytes: 0,
            },
            "Increase 2 0",
        ),
        (
            Bare::IncreaseToFit {
                tracker: id(2),
                bytes: 10,
            },
            "IncreaseToFit 2 10",
        ),
        (
            Bare::Decrease {
                tracker: id(2),
                bytes: 11,
            },
            "Decrease 2 11",
        ),
        (
            Bare::MoveReservation {
                from: id(2),
                to: id(3),
                bytes: 12,
            },
            "MoveReservation 2 3 12",
        ),
        (
            Bare::Create {
                page: 90,
                client: id(2),
                blocks: 4,
            },
            "Create 90 2 4",
        ),
        (Bare::PinHere { page: 1 }, "PinHere 1"),
        (Bare::PinLoad { page: 2 }, "PinLoad 2"),
        (Bare::ReadOk { page: 3 }, "ReadOk 3"),
        (Bare::ReadFailed { page: 4 }, "ReadFailed 4"),
        (
            Bare::ReadStale {
                wanted: mark(0, 14, 0),
                found: mark(1, 20, 3),
            },
            "ReadStale 0 14 0 1 20 3",
        ),
        (Bare::PinAgain { page: 5 }, "PinAgain 5"),
        (Bare::UnpinOnce { page: 6 }, "UnpinOnce 6"),
        (Bare::Unpin { page: 7 }, "Unpin 7"),
        (Bare::UnpinRefused { page: 8 }, "UnpinRefused 8"),
    ];
    for (event, words) in rows {
        is_line_of(&rt, rt.alloc(), event, words)?;
    }
    Ok(())
}

#[test]
fn an_event_of_buffers_or_writes_and_a_refusal_have_their_lines(
    rt: HostRuntime,
) -> Result<(), Fail> {
    let refused = |call: Call| Bare::Refused { call, entry: 99 };
    let rows = [
        (
            Bare::Extract {
                page: 9,
                buffer: 40,
            },
            "Extract 9 40",
        ),
        (Bare::Destroy { page: 10 }, "Destroy 10"),
        (
            Bare::Alloc {
                buffer: 41,
                client: id(2),
                blocks: 256,
            },
            "Alloc 41 2 256",
        ),
        (Bare::Free { buffer: 42 }, "Free 42"),
        (
            Bare::MoveBuffer {
                buffer: 43,
                to: id(3),
            },
            "MoveBuffer 43 3",
        ),
        (Bare::StartWrite { page: 11 }, "StartWrite 11"),
        (Bare::WriteOk { page: 12 }, "WriteOk 12"),
        (Bare::WriteFailed { page: 13 }, "WriteFailed 13"),
        (Bare::Evict { page: 14 }, "Evict 14"),
        (refused(Call::Pin { page: 15 }), "Refused pin 15 99"),
        (
            refused(Call::PinAgain { page: 16 }),
            "Refused pin_again 16 99",
        ),
        (
            refused(Call::Create {
                client: id(2),
                blocks: 1,
            }),
            "Refused create 2 1 99",
        ),
        (
            refused(Call::Alloc {
                client: id(2),
                blocks: 2,
            }),
            "Refused alloc 2 2 99",
        ),
        (
            refused(Call::GiveBack {
                client: id(2),
                bytes: 3,
            }),
            "Refused give_back 2 3 99",
        ),
        (
            refused(Call::MoveReservation {
                from: id(2),
                to: id(3),
                bytes: 4,
            }),
            "Refused move_reservation 2 3 4 99",
        ),
        (
            refused(Call::MoveBuffer {
                buffer: 44,
                to: id(3),
            }),
            "Refused move_buffer 44 3 99",
        ),
    ];
    for (event, words) in rows {
        is_line_of(&rt, rt.alloc(), event, words)?;
    }
    Ok(())
}

#[test]
fn a_writer_has_its_letter_and_what_follows_a_line_is_left(rt: HostRuntime) -> Result<(), Fail> {
    let entry = Skeleton {
        writer: true,
        maker: 1003,
        event: Bare::StartWrite { page: 0 },
    };
    assert_eq!(rt;
        entry_line(rt.alloc(), &entry)?.as_slice(),
        b"w1003 StartWrite 0\n".as_slice()
    );
    assert_eq!(rt;
        skeleton_at(b"w1003 StartWrite 0\ns0 Ask\n"),
        Some((entry, b"s0 Ask\n".as_slice()))
    );
    Ok(())
}

#[test]
fn what_is_out_of_form_is_no_entry(rt: HostRuntime) {
    let texts = [
        "",
        "\n",
        "end\n",
        "s0 Ask",
        "s0 Ask\r\n",
        "s0 Ask \n",
        "s0  Ask\n",
        " s0 Ask\n",
        "s Ask\n",
        "0 Ask\n",
        "S0 Ask\n",
        "s00 Ask\n",
        "s01 Ask\n",
        "s-1 Ask\n",
        "s4294967296 Ask\n",
        "s0 ask\n",
        "s0 Asks\n",
        "s0 As\n",
        "s0\n",
        "s0 Ask 1\n",
        "s0 Unpin\n",
        "s0 Unpin 1 2\n",
        "s0 Unpin  1\n",
        "s0 Unpin 01\n",
        "s0 Unpin 00\n",
        "s0 Unpin +1\n",
        "s0 Unpin 1x\n",
        "s0 Unpin 18446744073709551616\n",
        "s0 Unpin 99999999999999999999999\n",
        "s0 UnpinAll 1\n",
        "s0 Free 4294967296\n",
        "s0 AddTracker 1 0 256\n",
        "s0 AddTracker 2 1 256 8\n",
        "s0 AddTracker 1 0 256 4294967296\n",
        "s0 MoveReservation 1 2\n",
        "s0 MoveReservation 1 2 3 4\n",
        "s0 ReadStale 0 14 0 1 20\n",
        "s0 ReadStale 0 14 0 1 20 3 4\n",
        "s0 ReadStale 0 14 4294967296 1 20 3\n",
        "s0 Refused 1 2\n",
        "s0 Refused unpin 1 2\n",
        "s0 Refused pin 1\n",
        "s0 Refused pin_again_ 1 2\n",
        "s0 Refused\npin 1 2\n",
    ];
    for text in texts {
        assert_eq!(rt; skeleton_at(text.as_bytes()), None, "{text}");
    }
}

#[test]
fn opening_data_have_their_line(rt: HostRuntime) -> Result<(), Fail> {
    let rows = [
        (1, 64, 0, "pool 1 64 0\n"),
        (32768, 65536, 5, "pool 32768 65536 5\n"),
        (
            1048576,
            2048,
            u64::MAX,
            "pool 1048576 2048 18446744073709551615\n",
        ),
    ];
    for (blocks, block_len, first_name, text) in rows {
        let opened = Opened {
            blocks,
            block_len,
            first_name,
        };
        let line = opening_line(rt.alloc(), &opened)?;
        assert_eq!(rt; line.as_slice(), text.as_bytes(), "{text}");
        assert_eq!(rt;
            opening_at(line.as_slice()),
            Some((opened, b"".as_slice())),
            "{text}"
        );
    }
    assert_eq!(rt; last_line(true), b"end\n".as_slice());
    assert_eq!(rt; last_line(false), b"cut\n".as_slice());
    Ok(())
}
