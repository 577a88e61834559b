//! Blocks and buffers against plain lists of bytes.
ghost use Rattle.std.specs.Prelude.{◌≤◌};

use block_arena::{Arena, Shell};
use std::alloc::Global;
use std::process::Abort;
use std::test::Fail;

#[test]
fn blocks_are_counted_and_come_back(rt: HostRuntime) -> Result<(), Fail> {
    let mut arena = Arena::open(rt.alloc(), 4, 64)?;
    assert_eq!(rt; arena.free(), 4);
    let shell = Shell::with(rt.alloc(), 2)?;
    assert_eq!(rt; shell.room(), 2);
    let buf = arena.fill(shell);
    assert_eq!(rt; (buf.len(), arena.free()), (128, 2));
    let _shell = arena.take_back(buf);
    assert_eq!(rt; arena.free(), 4);
    Ok(())
}

// Writes 100 bytes from `at` on, over three blocks, and reads them and what lies around them.
fn matches_a_plain_list(rt: &impl Abort, alloc: Global, at: usize) -> Result<(), Fail>
    requires { at ≤ 68 }
{
    let mut arena = Arena::open(alloc, 3, 64)?;
    let mut buf = arena.fill(Shell::with(alloc, 3)?);
    let mut plain = [0u8; 192];
    let mut piece = [0u8; 100];
    for (place, byte) in piece.iter_mut().enumerate() {
        *byte = (place + 1) as u8;
    }
    buf.zero();
    buf.write_at(at, &piece);
    plain[at..at + 100].copy_from_slice(&piece);
    let mut back = [0u8; 192];
    buf.read_at(0, &mut back);
    assert_eq!(rt; back.as_slice(), plain.as_slice(), "the whole, {at}");
    let mut part = [0u8; 100];
    buf.read_at(at, &mut part);
    assert_eq!(rt; part.as_slice(), piece.as_slice(), "the piece, {at}");
    Ok(())
}

#[test]
fn copies_across_blocks_match_a_plain_list(rt: HostRuntime) -> Result<(), Fail> {
    for at in 60..=68 {
        matches_a_plain_list(&rt, rt.alloc(), at)?;
    }
    Ok(())
}

#[test]
fn a_block_is_lent_and_zeroed(rt: HostRuntime) -> Result<(), Fail> {
    let mut arena = Arena::open(rt.alloc(), 2, 64)?;
    let mut buf = arena.fill(Shell::with(rt.alloc(), 2)?);
    buf.block_mut(0).copy_from_slice(&[1; 64]);
    buf.block_mut(1).copy_from_slice(&[2; 64]);
    assert_eq!(rt; buf.block(0), [1; 64].as_slice());
    assert_eq!(rt; buf.block(1), [2; 64].as_slice());
    buf.zero();
    let mut back = [9u8; 128];
    buf.read_at(0, &mut back);
    assert_eq!(rt; back.as_slice(), [0u8; 128].as_slice());
    Ok(())
}
