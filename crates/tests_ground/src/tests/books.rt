//! Buffers against worked rows and a plain list.
ghost use Rattle.std.specs.Prelude.{◌≡◌, IsTrue};

use buffer_transfer::{BufferBook, Lent};
use std::alloc::Global;
use std::process::Abort;
use std::test::Fail;

/// A call on a book. A buffer is told by its place among all that were opened so far.
#[derive(Clone, Copy, Debug)]
enum Step {
    Open(u32, u32),
    Move(usize, u32),
    Close(usize),
}

fn opened(rt: &impl Abort, book: &mut BufferBook, client: u32, blocks: u32) -> u32
    ensures { book.new.room ≡ book.old.room }
{
    assert!(rt; book.has_room());
    let id = book.open(client, blocks);
    assert_eq!(rt; book.get(id), Some(Lent { client, blocks }));
    id
}

fn moved(rt: &impl Abort, book: &mut BufferBook, id: u32, client: u32) {
    assert!(rt; book.get(id).is_some());
    book.move_to(id, client);
}

fn closed(rt: &impl Abort, book: &mut BufferBook, id: u32) {
    assert!(rt; book.get(id).is_some());
    book.close(id);
    assert_eq!(rt; book.get(id), None);
}

fn take(
    rt: &impl Abort,
    book: &mut BufferBook,
    ids: &mut Vec<u32>,
    step: Step,
) -> Result<(), Fail> {
    match step {
        Step::Open(client, blocks) => ids.push(opened(rt, book, client, blocks))?,
        Step::Move(at, client) => {
            assert!(rt; at < ids.len());
            moved(rt, book, ids[at], client);
        }
        Step::Close(at) => {
            assert!(rt; at < ids.len());
            closed(rt, book, ids[at]);
        }
    }
    Ok(())
}

#[test]
fn blocks_are_held_by_whom_a_buffer_was_given_to(rt: HostRuntime) -> Result<(), Fail> {
    let mut book = BufferBook::with(rt.alloc(), 3)?;
    let mut ids = Vec::new(rt.alloc());
    // A call; then what the clients 1 and 2 hold, and whether there is room.
    let rows = [
        (Step::Open(1, 3), (3, 0, true)),
        (Step::Open(2, 5), (3, 5, true)),
        (Step::Move(0, 2), (0, 8, true)),
        (Step::Open(1, u32::MAX), (4294967295, 8, false)),
        (Step::Move(1, 1), (4294967300, 3, false)),
        (Step::Close(2), (5, 3, true)),
        (Step::Open(2, 0), (5, 3, false)),
        (Step::Move(3, 1), (5, 3, false)),
        (Step::Close(0), (5, 0, true)),
        (Step::Close(1), (0, 0, true)),
    ];
    for (step, held) in rows {
        take(&rt, &mut book, &mut ids, step)?;
        assert_eq!(rt;
            (book.held(1), book.held(2), book.has_room()),
            held,
            "{step:?}"
        );
        assert_eq!(rt; book.held(3), 0, "{step:?}");
    }
    Ok(())
}

// Whether a number is below 3, or no live buffer's.
fn is_low(book: &BufferBook, id: u32) -> bool
    requires { book.now.room ≡ 3 }
    ensures { IsTrue result }
{
    book.law_proper();
    book.get(id).is_none() || id < 3
}

#[test]
fn a_number_is_below_the_room_and_comes_again(rt: HostRuntime) -> Result<(), Fail> {
    let mut book = BufferBook::with(rt.alloc(), 3)?;
    let first = opened(&rt, &mut book, 1, 1);
    let second = opened(&rt, &mut book, 1, 2);
    let third = opened(&rt, &mut book, 1, 3);
    assert!(rt; is_low(&book, first) && is_low(&book, third) && is_low(&book, 3));
    assert!(rt; first != second && second != third && first != third);
    closed(&rt, &mut book, second);
    assert_eq!(rt; opened(&rt, &mut book, 2, 4), second);
    let none = BufferBook::with(rt.alloc(), 0)?;
    assert!(rt; !none.has_room());
    Ok(())
}

/// The live buffers, the oldest first.
type Plain = Vec<(u32, Lent)>;

// What the readers say of a book for eight buffers is what the plain list says.
fn agrees(book: &BufferBook, plain: &Plain) -> bool {
    for client in 0..3u32 {
        let mut held: u64 = 0;
        for (_, lent) in plain.iter() {
            if lent.client == client {
                held = held.wrapping_add(u64::from(lent.blocks));
            }
        }
        if book.held(client) != held {
            return false;
        }
    }
    for id in 0..9u32 {
        let mut found = None;
        for (other, lent) in plain.iter() {
            if *other == id {
                found = Some(*lent);
            }
        }
        if book.get(id) != found {
            return false;
        }
    }
    book.has_room() == (plain.len() < 8)
}

// Opens, moves or closes a buffer, as the number says.
fn turn(
    rt: &impl Abort,
    book: &mut BufferBook,
    plain: &mut Plain,
    number: u32,
) -> Result<(), Fail> {
    let client = number % 3;
    let at = (number / 3) as usize;
    match number / 64 % 5 {
        0 | 1 if book.has_room() => {
            let blocks = number / 512;
            let id = opened(rt, book, client, blocks);
            assert!(rt; plain.iter().all(|(other, _)| *other != id));
            plain.push((id, Lent { client, blocks }))?;
        }
        2 | 3 if !plain.is_empty() => {
            let at = at % plain.len();
            moved(rt, book, plain[at].0, client);
            plain[at].1.client = client;
        }
        4 if !plain.is_empty() => {
            let (id, _) = plain.remove(at % plain.len());
            closed(rt, book, id);
        }
        _ => {}
    }
    Ok(())
}

fn matches_a_plain_list(rt: &impl Abort, alloc: Global) -> Result<(), Fail> {
    let mut book = BufferBook::with(alloc, 8)?;
    let mut plain = Vec::new(alloc);
    let mut number: u32 = 7;
    for step in 0..400u32 {
        number = number.wrapping_mul(1664525).wrapping_add(1013904223);
        turn(rt, &mut book, &mut plain, number >> 8)?;
        assert!(rt; agrees(&book, &plain), "step {step}");
    }
    Ok(())
}

#[test]
fn four_hundred_turns_match_a_plain_list(rt: HostRuntime) -> Result<(), Fail> {
    matches_a_plain_list(&rt, rt.alloc())
}
