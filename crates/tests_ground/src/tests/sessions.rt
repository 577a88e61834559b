//! Sessions against worked rows and plain lists.
ghost use Rattle.std.specs.Prelude.{◌≡◌, ◌<◌, IsSome};
ghost use Rattle.index_list.specs.Listing.{stands_in};
ghost use Rattle.session_table.specs.Seats.{members_of, seat_of, trackers_of};

use session_table::{MAX_CLIENTS, MAX_SESSIONS, Member, SessionTable};
use std::alloc::Global;
use std::process::Abort;
use std::test::Fail;

#[test]
fn a_session_notes_the_first_failure_of_each_client(rt: HostRuntime) -> Result<(), Fail> {
    let mut table = SessionTable::with(rt.alloc())?;
    assert_eq!(rt; table.vacant(), Some(0));
    table.open(0, 7, 96);
    table.add(0, 8);
    table.add(0, 9);
    assert_eq!(rt;
        (table.query(0), table.is_full(0), table.vacant()),
        (7, false, Some(1))
    );
    table.note(0, 9, 41);
    table.note(0, 9, 42);
    table.note(0, 5, 43);
    assert_eq!(rt;
        (table.first(0, 8), table.first(0, 9), table.first(0, 5)),
        (None, Some(41), None)
    );
    table.forget(0);
    table.note(0, 9, 44);
    table.note(0, 8, 45);
    table.remove(0, 9);
    assert_eq!(rt; (table.first(0, 8), table.first(0, 9)), (Some(45), None));
    table.remove(0, 8);
    table.close(0);
    assert_eq!(rt; table.vacant(), Some(0));
    Ok(())
}

// Opens the lowest number that has no session.
fn opened(rt: &impl Abort, table: &mut SessionTable, query: u32) -> Option<u32> {
    let s = table.vacant()?;
    table.open(s, query, 1);
    assert_eq!(rt; table.query(s), query);
    Some(s)
}

#[test]
fn each_number_gets_a_session_and_no_more(rt: HostRuntime) -> Result<(), Fail> {
    let mut table = SessionTable::with(rt.alloc())?;
    for number in 0..MAX_SESSIONS {
        assert_eq!(rt; opened(&rt, &mut table, 1000 + number), Some(number));
    }
    assert_eq!(rt; table.vacant(), None);
    if table.is_seated(77) && table.members(77).is_empty() {
        table.close(77);
    }
    assert_eq!(rt; table.vacant(), Some(77));
    Ok(())
}

fn has(table: &SessionTable, s: u32, tracker: u32) -> bool
    requires { IsSome (seat_of table.now s) }
    ensures { result ≡ stands_in tracker (trackers_of (members_of table.now s)) }
{
    table
        .members(s)
        .iter()
        .any(|member| member.tracker == tracker)
}

#[test]
fn the_sixteenth_client_fills_a_session(rt: HostRuntime) -> Result<(), Fail> {
    let mut table = SessionTable::with(rt.alloc())?;
    table.open(239, 1, 0);
    for tracker in 2..=17u32 {
        assert!(rt; table.is_seated(239) && !has(&table, 239, tracker) && !table.is_full(239));
        if table.members(239).len() < 16 {
            table.add(239, tracker);
        }
    }
    assert!(rt; table.is_seated(239) && table.is_full(239));
    Ok(())
}

/// The clients as plain rows: the session, the tracker, and the failure that is noted.
type Rows = Vec<(u32, u32, Option<u64>)>;

// A client comes or leaves, or the session ends or begins.
fn come_or_leave(
    table: &mut SessionTable,
    plain: &mut Rows,
    s: u32,
    tracker: u32,
) -> Result<(), Fail>
    requires { s < 240 }
{
    if !table.is_seated(s) {
        table.open(s, tracker, 1);
    } else if has(table, s, tracker) {
        table.remove(s, tracker);
        plain.retain(|row| (row.0, row.1) != (s, tracker));
    } else if table.members(s).is_empty() && tracker % 3 == 0 {
        table.close(s);
    } else if table.members(s).len() < MAX_CLIENTS as usize {
        table.add(s, tracker);
        plain.push((s, tracker, None))?;
    }
    Ok(())
}

// A failure is noted, or all of the session are forgotten.
fn note_or_forget(table: &mut SessionTable, plain: &mut Rows, s: u32, tracker: u32, entry: u64)
    requires { s < 240 }
{
    if !table.is_seated(s) {
        return;
    }
    if tracker == 0 {
        table.forget(s);
    } else {
        table.note(s, tracker, entry);
    }
    for row in plain.iter_mut() {
        if row.0 == s && tracker == 0 {
            row.2 = None;
        } else if (row.0, row.1) == (s, tracker) && row.2.is_none() {
            row.2 = Some(entry);
        }
    }
}

// The clients of the session are those of the plain rows, in their order.
fn agrees(table: &SessionTable, plain: &Rows, s: u32) -> bool
    requires { s < 240 }
{
    let mut left: &[Member] = if table.is_seated(s) {
        table.members(s)
    } else {
        &[]
    };
    for (session, tracker, failed) in plain.iter() {
        if *session == s {
            let [first, rest @ ..] = left else {
                return false;
            };
            if (first.tracker, first.failed) != (*tracker, *failed) {
                return false;
            }
            if table.is_seated(s) && table.first(s, *tracker) != *failed {
                return false;
            }
            left = rest;
        }
    }
    left.is_empty()
}

fn matches_plain_rows(rt: &impl Abort, alloc: Global, stride: u32) -> Result<(), Fail> {
    let mut table = SessionTable::with(alloc)?;
    let mut plain = Vec::new(alloc);
    for number in 0..300u32 {
        let s = number / 3 % 3;
        let tracker = number * (stride % 100) % 23;
        if number % 4 == 3 {
            note_or_forget(&mut table, &mut plain, s, tracker, u64::from(number));
        } else {
            come_or_leave(&mut table, &mut plain, s, tracker)?;
        }
        assert!(rt;
            agrees(&table, &plain, 0) && agrees(&table, &plain, 1) && agrees(&table, &plain, 2),
            "{number} by {stride}"
        );
    }
    assert!(rt; plain.len() > 4, "{stride}");
    Ok(())
}

#[test]
fn mixed_turns_match_plain_rows(rt: HostRuntime) -> Result<(), Fail> {
    for stride in [1, 2, 5, 7, 11] {
        matches_plain_rows(&rt, rt.alloc(), stride)?;
    }
    Ok(())
}
