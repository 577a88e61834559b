//! Changes of one piece, and new buffers.
ghost use Rattle.std.specs.Prelude.{◌≡◌, ℕ, ◌≤◌, ◌+◌, ◌-◌, ◌*◌, ◌||◌, false, [], Some, None, IsSome, IfOk, replicate};
ghost use Rattle.slab.specs.Slab.{get, HasRoomFor};
ghost use Rattle.block_arena.specs.Blocks.{IsBlockLen};
ghost use Rattle.block_arena.specs.Memory.{IsBufferOf};
ghost use Rattle.store_api.specs.Holdings.{put};
ghost use Rattle.store_api.specs.declared.mem_store.piece.Stand.TheVariants.{Resting, Pinned};
ghost use Rattle.store_api.specs.MemPieces.{Changed, piece_at, page_at, loan_at, pages_of, loans_of};

use crate::mem_store::piece::{Piece, Stand};
use block_arena::{Arena, Buf, Shell};
use reservation_tree::{Memory, TrackerId};
use slab::Slab;
use std::alloc::Global;
use std::mem;

// A buffer of zeros.
pub(crate) fn zeroed(alloc: Global, blocks: u32, block_len: u32) -> Result<Buf, Memory>
    requires { IsBlockLen block_len }
    ensures buffer { IfOk result (λ buf. IsBufferOf blocks block_len buf) }
    ensures zeros { IfOk result (λ buf. buf.bytes ≡ replicate (blocks * block_len) 0) }
{
    let Ok(mut arena) = Arena::open(alloc, blocks, block_len) else {
        return Err(Memory);
    };
    let Ok(shell) = Shell::with(alloc, blocks) else {
        return Err(Memory);
    };
    let mut buf = arena.fill(shell);
    buf.zero();
    Ok(buf)
}

// A piece comes.
pub(crate) fn come(pieces: &mut Slab<Piece>, piece: Piece) -> usize
    requires { HasRoomFor pieces.old 1 }
    ensures key { result ≡ pieces.old.vacant_key }
    ensures fresh { get pieces.old result ≡ None }
    ensures changed { Changed pieces.old pieces.new result (Some piece) }
{
    pieces.insert_reserved(piece)
}

// How a piece stands changes.
pub(crate) fn stand(pieces: &mut Slab<Piece>, key: usize, stand: Stand) -> Stand
    requires { IsSome (get pieces.old key) }
    ensures was { result ≡ (piece_at key pieces.old).stand }
    ensures changed { Changed pieces.old pieces.new key (Some (record (piece_at key pieces.old) { stand = stand })) }
{
    mem::replace(&mut pieces[key].stand, stand)
}

// A loan is another client's.
pub(crate) fn hand_over(pieces: &mut Slab<Piece>, key: usize, client: TrackerId)
    requires { IsSome (loans_of pieces.old key) }
    ensures changed { Changed pieces.old pieces.new key (Some (record (piece_at key pieces.old) { client = client })) }
    ensures pages { pages_of pieces.new ≡ pages_of pieces.old }
    ensures loans { loans_of pieces.new ≡ put key (Some (record (loan_at key pieces.old) { client = client })) (loans_of pieces.old) }
{
    pieces[key].client = client;
}

// A piece goes.
pub(crate) fn go(pieces: &mut Slab<Piece>, key: usize) -> Piece
    requires { IsSome (get pieces.old key) }
    ensures was { get pieces.old key ≡ Some result }
    ensures changed { Changed pieces.old pieces.new key None }
{
    pieces.remove(key)
}

// How many pins a page has.
pub(crate) fn pins_at(pieces: &Slab<Piece>, key: usize) -> u64
    requires { IsSome (pages_of pieces.now key) }
    ensures { result ≡ (page_at key pieces.now).pins }
{
    match &pieces[key].stand {
        Stand::Pinned(count) => *count,
        _ => 0,
    }
}

// A page that rests is pinned.
pub(crate) fn pin_at(pieces: &mut Slab<Piece>, key: usize) -> Buf
    requires page { IsSome (pages_of pieces.old key) }
    requires counted { (count : ℕ) → (piece_at key pieces.old).stand ≡ Pinned count → 1 ≤ count }
    requires rests { (page_at key pieces.old).pins ≡ 0 }
    ensures changed { Changed pieces.old pieces.new key (Some (record (piece_at key pieces.old) { stand = Pinned 1 })) }
    ensures was { (piece_at key pieces.old).stand ≡ Resting result }
    ensures pages { pages_of pieces.new ≡ put key (Some (record (page_at key pieces.old) { pins = (page_at key pieces.old).pins + 1; left = [] })) (pages_of pieces.old) }
    ensures loans { loans_of pieces.new ≡ loans_of pieces.old }
    ensures bytes { result.bytes ≡ (page_at key pieces.old).left }
{
    match stand(pieces, key, Stand::Pinned(1)) {
        Stand::Resting(buf) => buf,
        _ => unreachable!(),
    }
}

// A pinned page has so many pins from now on.
pub(crate) fn repin_at(pieces: &mut Slab<Piece>, key: usize, count: u64)
    requires page { IsSome (pages_of pieces.old key) }
    requires pinned { 1 ≤ (page_at key pieces.old).pins }
    ensures changed { Changed pieces.old pieces.new key (Some (record (piece_at key pieces.old) { stand = Pinned count })) }
    ensures pages { pages_of pieces.new ≡ put key (Some (record (page_at key pieces.old) { pins = count })) (pages_of pieces.old) }
    ensures loans { loans_of pieces.new ≡ loans_of pieces.old }
{
    stand(pieces, key, Stand::Pinned(count));
}

// A page that is pinned once rests.
pub(crate) fn rest_at(pieces: &mut Slab<Piece>, key: usize, buf: Buf)
    requires page { IsSome (pages_of pieces.old key) }
    requires pinned { (page_at key pieces.old).pins ≡ 1 }
    ensures changed { Changed pieces.old pieces.new key (Some (record (piece_at key pieces.old) { stand = Resting buf })) }
    ensures pages { pages_of pieces.new ≡ put key (Some (record (page_at key pieces.old) { pins = (page_at key pieces.old).pins - 1; left = buf.bytes; has_slots = (page_at key pieces.old).has_slots || false })) (pages_of pieces.old) }
    ensures loans { loans_of pieces.new ≡ loans_of pieces.old }
{
    stand(pieces, key, Stand::Resting(buf));
}

// A page goes.
pub(crate) fn end_page(pieces: &mut Slab<Piece>, key: usize)
    requires { IsSome (pages_of pieces.old key) }
    ensures changed { Changed pieces.old pieces.new key None }
    ensures pages { pages_of pieces.new ≡ put key None (pages_of pieces.old) }
    ensures loans { loans_of pieces.new ≡ loans_of pieces.old }
{
    go(pieces, key);
}

// A loan goes.
pub(crate) fn end_loan(pieces: &mut Slab<Piece>, key: usize)
    requires { IsSome (loans_of pieces.old key) }
    ensures changed { Changed pieces.old pieces.new key None }
    ensures pages { pages_of pieces.new ≡ pages_of pieces.old }
    ensures loans { loans_of pieces.new ≡ put key None (loans_of pieces.old) }
{
    go(pieces, key);
}
