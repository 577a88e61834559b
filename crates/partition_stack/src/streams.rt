//! Streams beside each other, without their levels.
ghost use Rattle.std.specs.Prelude.{◌≡◌, ◌++◌, ◌<◌, ℕ, [], Some, None, length, replicate, slice_get, IfErr, OnOk, OnErr, ⊤};
ghost use Rattle.store_api.specs.Conditions.{IsBlockCount};
ghost use Rattle.store_api.specs.Signs.{WasAnswered};
ghost use Rattle.tuple_stream.specs.Streamed.{Streamed};
ghost use Rattle.tuple_stream.specs.Families.{AreShaped, FamilySteps, LaysAll, family, pages_in};
ghost use Rattle.tuple_stream.specs.FamilyCalls.{AreSteady, RestsSome};
ghost use Rattle.tuple_stream.specs.Touches.{IsFull};
ghost use Rattle.partition_stack.specs.Stack.{HaveNoPages, empty};
ghost use Rattle.partition_stack.specs.Changes.{EndsAll};

use reservation_tree::{Memory, PoolErr};
use std::alloc::Global;
use store_api::{Client, Store};
use tuple_stream::Stream;

// How many partitions one is divided into.
const FAN: usize = 16;

// Sixteen streams without rows come behind the others, and as many levels.
pub(crate) fn push_sixteen(
    alloc: Global,
    page_blocks: u32,
    level: u32,
    streams: &mut Vec<Stream>,
    levels: &mut Vec<u32>,
) -> Result<(), Memory>
    requires { IsBlockCount page_blocks }
    ensures streams { OnOk result (streams.new.items ≡ streams.old.items ++ replicate 16 (empty page_blocks)) }
    ensures levels { OnOk result (levels.new.items ≡ levels.old.items ++ replicate 16 level) }
    ensures no_streams { OnErr result (streams.new.items ≡ streams.old.items) }
    ensures no_levels { OnErr result (levels.new.items ≡ levels.old.items) }
{
    streams.reserve(FAN)?;
    levels.reserve(FAN)?;
    for _i in 0..FAN {
        streams.push_reserved(Stream::new(alloc, page_blocks));
        levels.push_reserved(level);
    }
    Ok(())
}

// The pinned pages of the streams from one on rest, where those before it do.
pub(crate) fn rest_streams<St: Store>(
    store: &mut St,
    c: &Client,
    streams: &mut Vec<Stream>,
    from: usize,
) -> Result<(), PoolErr>
    requires shaped { AreShaped c.now.tracker (family streams.old.items (St.holds store.old) (St.signs store.old)) }
    requires rests { (i : ℕ) (s : Streamed) → slice_get streams.old.items i ≡ Some s → i < from → s.pinned ≡ None }
    ensures ok { OnOk result (RestsSome c.now.tracker (length streams.old.items) (family streams.old.items (St.holds store.old) (St.signs store.old)) (family streams.new.items (St.holds store.new) (St.signs store.new))) }
    ensures went { FamilySteps (LaysAll (AreSteady (family streams.old.items (St.holds store.old) (St.signs store.old))) ⊤ (family streams.old.items (St.holds store.old) (St.signs store.old)) (family streams.new.items (St.holds store.new) (St.signs store.new))) c.now.tracker (family streams.old.items (St.holds store.old) (St.signs store.old)) (family streams.new.items (St.holds store.new) (St.signs store.new)) }
    ensures pages { pages_in (family streams.new.items (St.holds store.new) (St.signs store.new)) ≡ pages_in (family streams.old.items (St.holds store.old) (St.signs store.old)) }
    ensures cause { IfErr result (λ e. WasAnswered e (St.signs store.old) (St.signs store.new)) }
    ensures full { (blocks : ℕ) → ((i : ℕ) (s : Streamed) → slice_get streams.old.items i ≡ Some s → s.page_blocks ≡ blocks) → IfErr result (IsFull blocks (St.holds store.new).free_slots) }
{
    for at in from..streams.len() {
        streams[at].rest(store)?;
    }
    Ok(())
}

// All pages of the streams go, and the streams end.
pub(crate) fn end_streams<St: Store>(store: &mut St, c: &Client, streams: Vec<Stream>)
    requires { AreShaped c.now.tracker (family streams.items (St.holds store.old) (St.signs store.old)) }
    ensures { EndsAll c.now.tracker (family streams.items (St.holds store.old) (St.signs store.old)) (family [] (St.holds store.new) (St.signs store.new)) }
{
    let mut streams = streams;
    while !streams.is_empty() {
        let mut stream = streams.take_last();
        stream.drop_all(store);
        stream.end();
    }
    streams.destroy_empty();
}

// Streams without pages end.
pub(crate) fn discard_streams(streams: Vec<Stream>)
    requires { HaveNoPages streams.items }
{
    let mut streams = streams;
    while !streams.is_empty() {
        let stream = streams.take_last();
        stream.end();
    }
    streams.destroy_empty();
}
