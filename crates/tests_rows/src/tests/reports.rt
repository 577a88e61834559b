use query_plan::{PlanErr, Side};
use reservation_tree::Mark;
use row_codec::Bytes;
use run_report::{Cause, Memory, Outcome, outcome_line};
use std::alloc::Global;
use std::test::Fail;

fn key(alloc: Global) -> Result<Bytes, Memory> {
    Bytes::of(alloc, b"query.1.left.columns.2")
}

#[test]
fn a_line_names_its_query_and_its_numbers(rt: HostRuntime) -> Result<(), Fail> {
    let rows = [
        (Some(1), Outcome::Lines(0), "query 1: 0 lines 0\n"),
        (Some(16), Outcome::Lines(9), "query 16: 0 lines 9\n"),
        (
            None,
            Outcome::Lines(u64::MAX),
            "0 lines 18446744073709551615\n",
        ),
        (
            None,
            Outcome::Summary {
                rows: 1_000_000,
                groups: 50_000,
                counted: 1_000_001,
                total: 499_999_500_000,
            },
            "rows 1000000 groups 50000 counted 1000001 total 499999500000\n",
        ),
        (
            None,
            Outcome::Summary {
                rows: 0,
                groups: u64::MAX,
                counted: -1,
                total: i128::MIN,
            },
            "rows 0 groups 18446744073709551615 counted -1 total -170141183460469231731687303715884105728\n",
        ),
        (
            Some(u32::MAX),
            Outcome::Refused {
                status: 255,
                cause: Cause::Output,
            },
            "query 4294967295: 255 output\n",
        ),
    ];
    for (query, outcome, want) in rows {
        let line = outcome_line(rt.alloc(), query, &outcome)?;
        assert_eq!(rt; line.as_slice(), want.as_bytes());
    }
    Ok(())
}

#[test]
fn each_cause_has_its_words(rt: HostRuntime) -> Result<(), Fail> {
    let side = Side::Left;
    let number = 2;
    let name = Bytes::of(rt.alloc(), b"a\nb")?;
    let rows = [
        (1, Cause::Words, "1 words\n"),
        (
            2,
            Cause::Plan {
                error: PlanErr::Syntax,
            },
            "2 plan Syntax\n",
        ),
        (
            10,
            Cause::Plan {
                error: PlanErr::Memory,
            },
            "10 memory\n",
        ),
        (3, Cause::PlanInput, "3 input plan\n"),
        (3, Cause::Input { side }, "3 input left\n"),
        (3, Cause::Input { side: Side::Right }, "3 input right\n"),
        (4, Cause::Header { side }, "4 header left\n"),
        (4, Cause::Csv { side, number }, "4 csv left 2\n"),
        (
            4,
            Cause::Field { side, number, name },
            "4 field left 2 a\nb\n",
        ),
        (4, Cause::Large { side }, "4 large left\n"),
        (
            5,
            Cause::Row {
                side,
                number,
                weight: 100,
            },
            "5 row left 2 100\n",
        ),
        (
            6,
            Cause::Reservation {
                root: true,
                wanted: 1280,
                room: 768,
            },
            "6 reservation root 1280 768\n",
        ),
        (
            6,
            Cause::Reservation {
                root: false,
                wanted: 163_840,
                room: 155_648,
            },
            "6 reservation query 163840 155648\n",
        ),
        (7, Cause::Scratch { need: 1, free: 0 }, "7 scratch 1 0\n"),
        (7, Cause::Names, "7 names\n"),
        (8, Cause::Write { entry: 0 }, "8 write 0\n"),
        (8, Cause::Read { entry: 25 }, "8 read 25\n"),
        (
            11,
            Cause::Stale {
                wanted: Mark {
                    name: 3,
                    version: 7,
                    block: 1,
                },
                found: Mark {
                    name: u64::MAX,
                    version: 0,
                    block: u32::MAX,
                },
            },
            "11 stale 3 7 1 18446744073709551615 0 4294967295\n",
        ),
        (9, Cause::Output, "9 output\n"),
        (10, Cause::Memory, "10 memory\n"),
    ];
    for (status, cause, want) in rows {
        let outcome = Outcome::Refused { status, cause };
        let line = outcome_line(rt.alloc(), None, &outcome)?;
        assert_eq!(rt; line.as_slice(), want.as_bytes());
    }
    Ok(())
}

#[test]
fn each_plan_error_has_its_name_and_key(rt: HostRuntime) -> Result<(), Fail> {
    let alloc = rt.alloc();
    let rows = [
        (PlanErr::MissingKey { key: key(alloc)? }, "MissingKey"),
        (PlanErr::WrongKind { key: key(alloc)? }, "WrongKind"),
        (PlanErr::UnknownKey { key: key(alloc)? }, "UnknownKey"),
        (PlanErr::UnknownColumn { key: key(alloc)? }, "UnknownColumn"),
        (PlanErr::KindClash { key: key(alloc)? }, "KindClash"),
        (PlanErr::Limit { key: key(alloc)? }, "Limit"),
        (PlanErr::Repeated { key: key(alloc)? }, "Repeated"),
        (PlanErr::SameOutput { key: key(alloc)? }, "SameOutput"),
        (PlanErr::QuotaSum { key: key(alloc)? }, "QuotaSum"),
    ];
    for (error, name) in rows {
        let cause = Cause::Plan { error };
        let outcome = Outcome::Refused { status: 2, cause };
        let line = outcome_line(alloc, None, &outcome)?;
        let want = format!(in alloc; "2 plan {name} query.1.left.columns.2\n")?;
        assert_eq!(rt; line.as_slice(), want.as_bytes());
    }
    Ok(())
}
