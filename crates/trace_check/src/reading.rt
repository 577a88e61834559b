//! Lines, read from the front of a text.
ghost use Rattle.std.specs.Prelude.{◌≡◌, ◌+◌, length, drop, option_map};
ghost use Rattle.trace_check.specs.Lines.{is_block_len, is_pool_size};
ghost use Rattle.trace_check.specs.Reading.{ends_word, event_at, is_named, last_at, letter_at, name_at, behind_space, numbers_at, opening_at, opening_from, skeleton_at, with_front};
ghost use Rattle.trace_check.specs.Names.{spelled};
ghost use Rattle.trace_check.specs.Seen.{seen};

use crate::events::{event_from, narrow};
use crate::name::{NAMES, Name};
use crate::number::number_at;
use crate::numbers::{MOST, Numbers};
use pool_model::{Bare, Skeleton};
use trace_follow::Opened;

const MOST_BLOCKS: u32 = 1 << 20;

const MOST_BYTES: u64 = 1 << 31;

/// The opening data in front of a text, and the bytes behind their line.
#[tactic(auto, unfolding(crate::specs::Reading::opening_at))]
pub(crate) fn opening_at(bytes: &[u8]) -> Option<(Opened, &[u8])>
    ensures { seen result ≡ opening_at bytes.now }
{
    if !bytes.starts_with(b"pool") {
        return None;
    }
    let (numbers, rest) = numbers_at(&bytes[4..])?;
    match opening_from(numbers.as_slice()) {
        Some(opened) => Some((opened, rest)),
        None => None,
    }
}

fn opening_from(numbers: &[u64]) -> Option<Opened>
    ensures { result ≡ opening_from numbers.now }
{
    let [blocks, block_len, first_name] = numbers else {
        return None;
    };
    if !is_pool_size(*blocks, *block_len) {
        return None;
    }
    Some(Opened {
        blocks: *blocks as u32,
        block_len: *block_len as u32,
        first_name: *first_name,
    })
}

// Whether a pool may have so many blocks of this length.
fn is_pool_size(blocks: u64, block_len: u64) -> bool
    ensures { result ≡ is_pool_size blocks block_len }
{
    1 <= blocks
        && blocks <= MOST_BLOCKS as u64
        && is_block_len(block_len)
        && blocks * block_len <= MOST_BYTES
}

fn is_block_len(n: u64) -> bool
    ensures { result ≡ is_block_len n }
{
    [
        64, 128, 256, 512, 1024, 2048, 4096, 8192, 16384, 32768, 65536,
    ]
    .iter()
    .any(|q| *q == n)
}

/// The entry in front of a text, and the bytes behind its line.
#[tactic(auto, unfolding(crate::specs::Reading::skeleton_at))]
pub(crate) fn skeleton_at(bytes: &[u8]) -> Option<(Skeleton, &[u8])>
    ensures { seen result ≡ skeleton_at bytes.now }
{
    let [first, rest @ ..] = bytes else {
        return None;
    };
    let writer = letter_at(*first)?;
    let (maker, rest) = number_at(rest)?;
    let maker = narrow(maker)?;
    let rest = behind_space(rest)?;
    match event_at(rest) {
        Some((event, rest)) => {
            let skeleton = Skeleton {
                writer,
                maker,
                event,
            };
            Some((skeleton, rest))
        }
        None => None,
    }
}

// Whether a maker's mark is a writer's.
fn letter_at(byte: u8) -> Option<bool>
    ensures { result ≡ letter_at byte }
{
    match byte {
        b'w' => Some(true),
        b's' => Some(false),
        _ => None,
    }
}

fn behind_space(bytes: &[u8]) -> Option<&[u8]>
    ensures { option_map (λ x. x.now) result ≡ behind_space bytes.now }
{
    match bytes {
        [b' ', rest @ ..] => Some(rest),
        _ => None,
    }
}

// The event in front of a text, and the bytes behind its line.
#[tactic(auto, unfolding(crate::specs::Reading::event_at))]
fn event_at(bytes: &[u8]) -> Option<(Bare, &[u8])>
    ensures { seen result ≡ event_at bytes.now }
{
    let name = name_at(bytes)?;
    let (numbers, rest) = numbers_at(behind_name(bytes, name))?;
    let event = event_from(name, numbers.as_slice())?;
    Some((event, rest))
}

// The name in front of a text.
#[tactic(auto, unfolding(crate::specs::Reading::name_at))]
fn name_at(bytes: &[u8]) -> Option<Name>
    ensures { result ≡ name_at bytes.now }
{
    NAMES.iter().copied().find(|name| is_named(bytes, *name))
}

// Whether this name stands in front.
fn is_named(bytes: &[u8], name: Name) -> bool
    ensures { result ≡ is_named bytes.now name }
{
    let text = name.spelled();
    bytes.starts_with(text) && ends_word(&bytes[text.len()..])
}

// What stands behind a name in front.
fn behind_name(bytes: &[u8], name: Name) -> &[u8]
    ensures { result.now ≡ drop (length (spelled name)) bytes.now }
{
    let text = name.spelled();
    match bytes.split_at_checked(text.len()) {
        Some((_, rest)) => rest,
        None => &[],
    }
}

fn ends_word(bytes: &[u8]) -> bool
    ensures { result ≡ ends_word bytes.now }
{
    match bytes {
        [first, ..] => *first == b' ' || *first == b'\n',
        [] => false,
    }
}

// The numbers in front, each behind a space, up to the end of the line.
fn numbers_at(bytes: &[u8]) -> Option<(Numbers, &[u8])>
    ensures { seen result ≡ numbers_at 6 bytes.now }
{
    more_numbers(Numbers::none(), MOST, bytes)
}

// These numbers, and those in front of a text, of which so many more may come.
#[tactic(auto, using(crate::proofs::Steps::numbers_end, crate::proofs::Steps::numbers_full, crate::proofs::Steps::numbers_other, crate::proofs::Steps::numbers_more, crate::proofs::Steps::numbers_none, crate::proofs::Steps::fronts_join))]
fn more_numbers(numbers: Numbers, left: usize, bytes: &[u8]) -> Option<(Numbers, &[u8])>
    requires { length numbers + left ≡ 6 }
    ensures { seen result ≡ with_front numbers (numbers_at left bytes.now) }
{
    let [first, rest @ ..] = bytes else {
        return None;
    };
    if *first == b'\n' {
        return Some((numbers, rest));
    }
    if left == 0 || *first != b' ' {
        return None;
    }
    let (number, rest) = number_at(rest)?;
    let mut numbers = numbers;
    numbers.push(number);
    more_numbers(numbers, left - 1, rest)
}

/// Whether the text of the last line says that all entries stand before it, if this is that text.
pub(crate) fn last_at(bytes: &[u8]) -> Option<bool>
    ensures { result ≡ last_at bytes.now }
{
    if bytes.len() != 4 {
        return None;
    }
    if bytes.starts_with(b"end\n") {
        Some(true)
    } else if bytes.starts_with(b"cut\n") {
        Some(false)
    } else {
        None
    }
}
