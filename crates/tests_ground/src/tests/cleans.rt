//! Pages that come and go against worked rows and a plain list.
ghost use Rattle.std.specs.Prelude.{◌≡◌, ◌+◌, ◌<◌, ◌≤◌, OnOk, length};
ghost use Rattle.block_arena.specs.Memory.{IsBufferOf};
ghost use Rattle.page_table.specs.Pages.{HasRoom, IsSpent};
ghost use Rattle.clean_evict.specs.Eviction.{IsCleanList, blocks_of};

use block_arena::{Arena, Buf, Shell};
use clean_evict::CleanList;
use page_table::{Mem, PageId, PageTable, Place};
use std::alloc::Global;
use std::process::Abort;
use std::test::Fail;

#[test]
fn the_oldest_page_is_in_front(rt: HostRuntime) -> Result<(), Fail> {
    let mut list = CleanList::with(rt.alloc(), 4)?;
    let empty = list.oldest();
    list.push(3);
    list.push(1);
    list.push(0);
    let three = list.oldest();
    list.remove(1);
    list.remove(3);
    let fronts = [empty, three, list.oldest()];
    assert_eq!(rt; fronts, [None, Some(3), Some(0)]);
    Ok(())
}

// A new page with that buffer is put on the list as a clean one.
fn put(
    list: &mut CleanList,
    arena: &Arena,
    pages: &mut PageTable<u32>,
    buf: Buf,
    blocks: u32,
) -> PageId
    requires not_spent { IsSpent pages.old → ⊥ }
    requires room { HasRoom pages.old }
    requires nodes { pages.old.room ≤ list.old.nodes }
    requires clean { IsCleanList arena.now pages.old list.old.keys }
    requires whole { IsBufferOf blocks arena.now.block_len buf }
    requires fits { arena.now.free + blocks_of pages.old list.old.keys + blocks ≤ arena.now.blocks }
    ensures clean { IsCleanList arena.now pages.new list.new.keys }
    ensures blocks { blocks_of pages.new list.new.keys ≡ blocks_of pages.old list.old.keys + blocks }
    ensures len { length list.new.keys ≡ length list.old.keys + 1 }
    ensures nodes { list.new.nodes ≡ list.old.nodes }
    ensures room { pages.new.room ≡ pages.old.room }
{
    pages.law_proper();
    let id = pages.add(1, 2, blocks, Mem::Held(buf), 3);
    let entry = pages.get_mut(id).unwrap();
    entry.place = Place::Clean;
    list.push(id.key);
    id
}

// A buffer is acquired, and becomes the memory of a new clean page. The names that were told are given too.
fn turned(
    rt: &impl Abort,
    alloc: Global,
    list: &mut CleanList,
    arena: &mut Arena,
    pages: &mut PageTable<u32>,
    blocks: u32,
) -> Result<(PageId, Vec<u64>), Fail>
    requires nodes { pages.old.room ≤ list.old.nodes }
    requires clean { IsCleanList arena.old pages.old list.old.keys }
    requires covered { blocks ≤ arena.old.free + blocks_of pages.old list.old.keys }
    requires names { length list.old.keys ≤ 50 }
    ensures clean { OnOk result (IsCleanList arena.new pages.new list.new.keys) }
    ensures total { OnOk result (arena.new.free + blocks_of pages.new list.new.keys ≡ arena.old.free + blocks_of pages.old list.old.keys) }
    ensures len { OnOk result (length list.new.keys ≤ length list.old.keys + 1) }
    ensures nodes { OnOk result (pages.new.room ≤ list.new.nodes) }
{
    assert!(rt; pages.has_room() && !pages.spent());
    let shell = Shell::with(alloc, blocks)?;
    let mut evicted = Vec::with_capacity(alloc, 50)?;
    list.law_fewest(arena, pages, blocks);
    let buf = list.acquire(arena, pages, shell, &mut evicted);
    let id = put(list, arena, pages, buf, blocks);
    Ok((id, evicted))
}

fn place_of(pages: &PageTable<u32>, id: PageId) -> Option<Place> {
    pages.get(id).map(|entry| entry.place)
}

// Two pages of one block become clean, where four blocks were free. Their ids, the older one first.
fn two_clean(
    rt: &impl Abort,
    alloc: Global,
    list: &mut CleanList,
    arena: &mut Arena,
    pages: &mut PageTable<u32>,
) -> Result<[PageId; 2], Fail>
    requires nodes { pages.old.room ≤ list.old.nodes }
    requires clean { IsCleanList arena.old pages.old list.old.keys }
    requires none { length list.old.keys ≡ 0 }
    requires free { arena.old.free + blocks_of pages.old list.old.keys ≡ 4 }
    ensures clean { OnOk result (IsCleanList arena.new pages.new list.new.keys) }
    ensures total { OnOk result (arena.new.free + blocks_of pages.new list.new.keys ≡ 4) }
    ensures len { OnOk result (length list.new.keys ≤ 2) }
{
    let (first, _none) = turned(rt, alloc, list, arena, pages, 1)?;
    let (second, _none) = turned(rt, alloc, list, arena, pages, 1)?;
    assert_eq!(rt; (first.name, second.name, arena.free()), (0, 1, 2));
    Ok([first, second])
}

// A buffer of some blocks is acquired: the names that are told, and how the two pages stand then.
fn acquires(
    rt: &impl Abort,
    alloc: Global,
    list: &mut CleanList,
    arena: &mut Arena,
    pages: &mut PageTable<u32>,
    blocks: u32,
    names: &[u64],
    places: [Place; 2],
) -> Result<(), Fail>
    requires blocks { blocks ≤ 4 }
    requires names { length names.now ≤ 2 }
    requires nodes { pages.old.room ≤ list.old.nodes }
    requires clean { IsCleanList arena.old pages.old list.old.keys }
    requires none { length list.old.keys ≡ 0 }
    requires free { arena.old.free + blocks_of pages.old list.old.keys ≡ 4 }
{
    let [first, second] = two_clean(rt, alloc, list, arena, pages)?;
    let shell = Shell::with(alloc, blocks)?;
    let mut evicted = Vec::with_capacity(alloc, 4)?;
    list.law_fewest(arena, pages, blocks);
    let buf = list.acquire(arena, pages, shell, &mut evicted);
    assert_eq!(rt;
        (
            evicted.as_slice(),
            buf.len(),
            arena.free() as usize + blocks as usize,
            [place_of(pages, first), place_of(pages, second)]
        ),
        (
            names,
            blocks as usize * 64,
            2 + names.len(),
            [Some(places[0]), Some(places[1])]
        ),
        "{blocks}"
    );
    Ok(())
}

// Two blocks are free and two pages of one block are clean, as a buffer of some blocks is acquired.
fn makes_room(
    rt: &impl Abort,
    alloc: Global,
    blocks: u32,
    names: &[u64],
    places: [Place; 2],
) -> Result<(), Fail>
    requires blocks { blocks ≤ 4 }
    requires names { length names.now ≤ 2 }
{
    let mut list = CleanList::with(alloc, 2)?;
    let mut arena = Arena::open(alloc, 4, 64)?;
    let mut pages = PageTable::with(alloc, 2, 0)?;
    acquires(
        rt, alloc, &mut list, &mut arena, &mut pages, blocks, names, places,
    )
}

#[test]
fn the_oldest_pages_go_while_too_few_blocks_are_free(rt: HostRuntime) -> Result<(), Fail> {
    makes_room(
        &rt,
        rt.alloc(),
        4,
        &[0, 1],
        [Place::Evicted, Place::Evicted],
    )?;
    makes_room(&rt, rt.alloc(), 3, &[0], [Place::Evicted, Place::Clean])?;
    makes_room(&rt, rt.alloc(), 2, &[], [Place::Clean, Place::Clean])
}

// Room for some blocks is made: the names that are told, the free blocks, and whether the list is empty.
fn makes(
    rt: &impl Abort,
    alloc: Global,
    list: &mut CleanList,
    arena: &mut Arena,
    pages: &mut PageTable<u32>,
    wanted: u32,
    names: &[u64],
) -> Result<(), Fail>
    requires wanted { wanted ≤ 4 }
    requires names { length names.now ≤ 2 }
    requires nodes { pages.old.room ≤ list.old.nodes }
    requires clean { IsCleanList arena.old pages.old list.old.keys }
    requires none { length list.old.keys ≡ 0 }
    requires free { arena.old.free + blocks_of pages.old list.old.keys ≡ 4 }
{
    two_clean(rt, alloc, list, arena, pages)?;
    let mut evicted = Vec::with_capacity(alloc, 4)?;
    list.law_distinct();
    list.law_fewest(arena, pages, wanted);
    list.make_room(arena, pages, wanted, &mut evicted);
    assert_eq!(rt;
        (
            evicted.as_slice(),
            arena.free() as usize,
            list.oldest().is_none()
        ),
        (names, 2 + names.len(), names.len() == 2),
        "{wanted}"
    );
    Ok(())
}

// Two blocks are free and two pages of one block are clean, as room for some blocks is made.
fn frees(rt: &impl Abort, alloc: Global, wanted: u32, names: &[u64]) -> Result<(), Fail>
    requires wanted { wanted ≤ 4 }
    requires names { length names.now ≤ 2 }
{
    let mut list = CleanList::with(alloc, 2)?;
    let mut arena = Arena::open(alloc, 4, 64)?;
    let mut pages = PageTable::with(alloc, 2, 0)?;
    makes(rt, alloc, &mut list, &mut arena, &mut pages, wanted, names)
}

#[test]
fn room_is_made_and_no_block_is_lent(rt: HostRuntime) -> Result<(), Fail> {
    frees(&rt, rt.alloc(), 4, &[0, 1])?;
    frees(&rt, rt.alloc(), 3, &[0])?;
    frees(&rt, rt.alloc(), 2, &[])
}

// A plain list of the clean pages' names and blocks, oldest first, and how many blocks are free.
#[derive(Drop)]
struct Plain {
    free: u32,
    pages: Vec<(u64, u32)>,
}

// The same turn on the plain list; the names of the pages that go are told.
fn turned_plain(
    plain: &mut Plain,
    name: u64,
    blocks: u32,
    told: &mut Vec<u64>,
) -> Result<(), Fail> {
    for _ in 0..plain.pages.len() {
        if plain.free >= blocks || plain.pages.is_empty() {
            break;
        }
        let (gone, had) = plain.pages.remove(0);
        plain.free = plain.free.wrapping_add(had);
        told.push(gone)?;
    }
    plain.free = plain.free.wrapping_sub(blocks);
    plain.pages.push((name, blocks))?;
    Ok(())
}

// The page in front, the free blocks and each page's place are those of the plain list.
fn agrees(
    list: &CleanList,
    arena: &Arena,
    pages: &PageTable<u32>,
    plain: &Plain,
    all: &[PageId],
) -> bool {
    let front = list.oldest().and_then(|key| pages.id_at(key));
    let oldest = plain.pages.first();
    if front.map(|id| id.name) != oldest.map(|page| page.0) || arena.free() != plain.free {
        return false;
    }
    for id in all {
        let mut place = Place::Evicted;
        for (name, _) in plain.pages.iter() {
            if *name == id.name {
                place = Place::Clean;
            }
        }
        if place_of(pages, *id) != Some(place) {
            return false;
        }
    }
    true
}

// A turn on both, after which they agree. A turn is told by its number and the stride of the numbers of blocks.
fn turn_agrees(
    rt: &impl Abort,
    alloc: Global,
    list: &mut CleanList,
    arena: &mut Arena,
    pages: &mut PageTable<u32>,
    plain: &mut Plain,
    all: &mut Vec<PageId>,
    turn: u32,
    stride: u32,
) -> Result<(), Fail>
    requires turn { turn < 40 }
    requires nodes { pages.old.room ≤ list.old.nodes }
    requires clean { IsCleanList arena.old pages.old list.old.keys }
    requires total { arena.old.free + blocks_of pages.old list.old.keys ≡ 8 }
    requires len { length list.old.keys ≤ 40 }
    ensures nodes { OnOk result (pages.new.room ≤ list.new.nodes) }
    ensures clean { OnOk result (IsCleanList arena.new pages.new list.new.keys) }
    ensures total { OnOk result (arena.new.free + blocks_of pages.new list.new.keys ≡ 8) }
    ensures len { OnOk result (length list.new.keys ≤ length list.old.keys + 1) }
{
    let blocks = turn * (stride % 100) % 5 + 1;
    let (id, evicted) = turned(rt, alloc, list, arena, pages, blocks)?;
    let mut told = Vec::new(alloc);
    turned_plain(plain, id.name, blocks, &mut told)?;
    all.push(id)?;
    assert_eq!(rt;
        (
            evicted.as_slice(),
            agrees(list, arena, pages, plain, all.as_slice())
        ),
        (told.as_slice(), true),
        "{turn} by {stride}"
    );
    Ok(())
}

// Forty turns, from a list with no page and eight free blocks on.
fn turns_agree(
    rt: &impl Abort,
    alloc: Global,
    list: &mut CleanList,
    arena: &mut Arena,
    pages: &mut PageTable<u32>,
    stride: u32,
) -> Result<(), Fail>
    requires nodes { pages.old.room ≤ list.old.nodes }
    requires clean { IsCleanList arena.old pages.old list.old.keys }
    requires total { arena.old.free + blocks_of pages.old list.old.keys ≡ 8 }
    requires none { length list.old.keys ≡ 0 }
{
    let mut plain = Plain {
        free: 8,
        pages: Vec::new(alloc),
    };
    let mut all = Vec::new(alloc);
    for turn in 0..40u32 {
        turn_agrees(
            rt, alloc, list, arena, pages, &mut plain, &mut all, turn, stride,
        )?;
    }
    Ok(())
}

fn matches_a_plain_list(rt: &impl Abort, alloc: Global, stride: u32) -> Result<(), Fail> {
    let mut list = CleanList::with(alloc, 50)?;
    let mut arena = Arena::open(alloc, 8, 64)?;
    let mut pages = PageTable::with(alloc, 50, 0)?;
    turns_agree(rt, alloc, &mut list, &mut arena, &mut pages, stride)
}

#[test]
fn many_turns_match_a_plain_list(rt: HostRuntime) -> Result<(), Fail> {
    for stride in 0..=7 {
        matches_a_plain_list(&rt, rt.alloc(), stride)?;
    }
    Ok(())
}
