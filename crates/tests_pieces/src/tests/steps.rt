//! Single calls of an allocator and of its client, each asked for first.
ghost use Rattle.std.specs.Prelude.{◌≡◌, ℕ, ◌+◌, ◌-◌, ◌≤◌};
ghost use Rattle.store_api.specs.Conditions.{IsIdle, IsLiveClient};
ghost use Rattle.store_api.specs.Holdings.{Holdings};
ghost use Rattle.sub_alloc.specs.Lending.{IsAllocOf};

use std::alloc::Global;
use std::process::Abort;
use store_api::{Client, Store};
use sub_alloc::{Piece, SubAlloc, SubErr, law_alloc_stays};

/// A client with so much reservation, which is all that it may have.
pub fn client<St: Store>(rt: &impl Abort, store: &mut St, bytes: u64) -> Client
    ensures live { IsLiveClient result (St.holds store.new) }
    ensures idle { IsIdle result.tracker (St.holds store.new) }
    ensures clients { (St.holds store.new).live_clients ≡ (St.holds store.old).live_clients + 1 }
{
    let Ok(c) = store.add_client(bytes) else {
        panic!(rt; "sixteen clients are live");
    };
    assert!(rt; store.reserve(&c, bytes).is_ok());
    c
}

/// An allocator of a client that has nothing else, with so many buffers.
pub fn opened<St: Store>(
    rt: &impl Abort,
    alloc: Global,
    store: &St,
    c: &Client,
    bufs: u32,
) -> SubAlloc
    requires live { IsLiveClient c.now (St.holds store.now) }
    requires idle { IsIdle c.now.tracker (St.holds store.now) }
    requires bufs { bufs ≤ 64 }
    ensures { IsAllocOf c.now.tracker (St.holds store.now) result }
{
    assert_eq!(rt; store.block_len(), 64);
    let Ok(pieces) = SubAlloc::open(alloc, 64, 4, bufs) else {
        panic!(rt; "no memory");
    };
    pieces.law_new(store, c);
    pieces
}

pub fn take<St: Store>(
    rt: &impl Abort,
    alloc: Global,
    store: &mut St,
    c: &Client,
    pieces: &mut SubAlloc,
    bytes: u32,
) -> Result<Piece, SubErr>
    requires { IsAllocOf c.now.tracker (St.holds store.old) pieces.old }
    ensures of { IsAllocOf c.now.tracker (St.holds store.new) pieces.new }
    ensures clients { (St.holds store.new).live_clients ≡ (St.holds store.old).live_clients }
{
    assert!(rt; bytes <= pieces.buffer_len());
    pieces.take(alloc, store, c, bytes)
}

pub fn put_back<St: Store>(
    rt: &impl Abort,
    store: &mut St,
    c: &Client,
    pieces: &mut SubAlloc,
    p: Piece,
)
    requires { IsAllocOf c.now.tracker (St.holds store.old) pieces.old }
    ensures of { IsAllocOf c.now.tracker (St.holds store.new) pieces.new }
    ensures clients { (St.holds store.new).live_clients ≡ (St.holds store.old).live_clients }
{
    assert!(rt; pieces.is_live(&p));
    pieces.put_back(store, p);
}

/// Writes bytes into a piece, from one of its bytes on.
pub fn write(rt: &impl Abort, pieces: &mut SubAlloc, p: &Piece, at: u32, bytes: &[u8])
    ensures { (t : ℕ) (h : Holdings) → IsAllocOf t h pieces.old → IsAllocOf t h pieces.new }
{
    assert!(rt; pieces.is_live(p));
    assert!(rt; at <= p.len());
    assert!(rt; bytes.len() <= (p.len() - at) as usize);
    pieces.write_at(p, at, bytes);
}

/// Writes this byte over all of a piece.
pub fn fill(rt: &impl Abort, pieces: &mut SubAlloc, p: &Piece, byte: u8)
    ensures { (t : ℕ) (h : Holdings) → IsAllocOf t h pieces.old → IsAllocOf t h pieces.new }
{
    assert!(rt; p.len() <= 256);
    write(rt, pieces, p, 0, &[byte; 256][..p.len() as usize]);
}

/// Whether so many bytes of a piece, from one of its bytes on, are this one.
pub fn shows_part(
    rt: &impl Abort,
    pieces: &SubAlloc,
    p: &Piece,
    at: u32,
    len: u32,
    byte: u8,
) -> bool {
    assert!(rt; pieces.is_live(p));
    assert!(rt; at <= p.len());
    assert!(rt; len <= p.len() - at);
    assert!(rt; len <= 256);
    let mut out = [0; 256];
    let bytes = &mut out[..len as usize];
    pieces.read_at(p, at, bytes);
    bytes.iter().all(|b| *b == byte)
}

/// Whether all bytes of a piece are this one.
pub fn shows(rt: &impl Abort, pieces: &SubAlloc, p: &Piece, byte: u8) -> bool {
    shows_part(rt, pieces, p, 0, p.len(), byte)
}

/// What the client has unused.
pub fn unused<St: Store>(store: &St, c: &Client, pieces: &SubAlloc) -> u64
    requires { IsAllocOf c.now.tracker (St.holds store.now) pieces.now }
{
    store.unused(c)
}

/// Raises the client's reservation. Whether that fits.
pub fn reserve<St: Store>(store: &mut St, c: &Client, pieces: &SubAlloc, bytes: u64) -> bool
    requires { IsAllocOf c.now.tracker (St.holds store.old) pieces.now }
    ensures of { IsAllocOf c.now.tracker (St.holds store.new) pieces.now }
    ensures clients { (St.holds store.new).live_clients ≡ (St.holds store.old).live_clients }
{
    law_alloc_stays();
    match store.reserve(c, bytes) {
        Ok(()) => true,
        Err(_) => false,
    }
}

/// Lowers the client's reservation by bytes that are unused.
pub fn give_back<St: Store>(
    rt: &impl Abort,
    store: &mut St,
    c: &Client,
    pieces: &SubAlloc,
    bytes: u64,
)
    requires { IsAllocOf c.now.tracker (St.holds store.old) pieces.now }
    ensures of { IsAllocOf c.now.tracker (St.holds store.new) pieces.now }
    ensures clients { (St.holds store.new).live_clients ≡ (St.holds store.old).live_clients }
{
    law_alloc_stays();
    assert!(rt; bytes <= store.unused(c));
    let Ok(()) = store.give_back(c, bytes) else {
        panic!(rt; "a write failed");
    };
}

/// Ends an allocator that has no live piece, and its client.
pub fn end<St: Store>(rt: &impl Abort, store: &mut St, c: Client, pieces: SubAlloc)
    requires { IsAllocOf c.tracker (St.holds store.old) pieces }
    ensures { (St.holds store.new).live_clients ≡ (St.holds store.old).live_clients - 1 }
{
    pieces.law_whole();
    assert!(rt; pieces.is_idle());
    pieces.close();
    store.end_client(c);
}
