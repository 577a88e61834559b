//! Pages against worked rows and a plain list.
ghost use Rattle.std.specs.Prelude.{◌≡◌, ℕ, Some};
ghost use Rattle.std.specs.FinMap.{get};
ghost use Rattle.page_table.specs.Pages.{IsLive, with_entry};
ghost use Rattle.page_table.specs.declared.entry.Entry.{Entry as Page};
ghost use Rattle.page_table.specs.declared.entry.Place.TheVariants.{Evicted as evicted};
ghost use Rattle.page_table.specs.declared.entry.Mem.TheVariants.{Out as nothing};

use block_arena::Shell;
use page_table::{Entry, Mem, PageId, PageTable, Place};
use std::alloc::Global;
use std::mem;
use std::process::Abort;
use std::test::Fail;

// A page of two blocks, whose scratch is ten times its client.
fn added(rt: &impl Abort, table: &mut PageTable<u32>, client: u32) -> PageId {
    assert!(rt; table.has_room());
    assert!(rt; !table.spent());
    table.add(1, client, 2, Mem::Out, client.wrapping_mul(10))
}

fn removed(rt: &impl Abort, table: &mut PageTable<u32>, id: PageId) -> Entry<u32> {
    assert!(rt; table.get(id).is_some());
    table.remove(id)
}

fn client_of(table: &PageTable<u32>, id: PageId) -> Option<u32> {
    table.get(id).map(|entry| entry.client)
}

// The memory of a page that is evicted.
fn evict(table: &mut PageTable<u32>, id: PageId) -> Option<Mem>
    requires { IsLive table.old id }
    ensures { (page : Page ℕ) → get table.old.entries id.name ≡ Some page → table.new ≡ with_entry table.old id (record page { place = evicted; mem = nothing }) }
{
    let entry = table.get_mut(id)?;
    entry.place = Place::Evicted;
    Some(mem::replace(&mut entry.mem, Mem::Out))
}

#[test]
fn a_key_that_comes_again_has_another_name(rt: HostRuntime) -> Result<(), Fail> {
    let mut table = PageTable::with(rt.alloc(), 2, 7)?;
    let first = added(&rt, &mut table, 3);
    let second = added(&rt, &mut table, 4);
    assert_eq!(rt; (first.name, second.name, table.has_room()), (7, 8, false));
    let entry = removed(&rt, &mut table, first);
    assert_eq!(rt; (entry.name, entry.session, entry.client), (7, 1, 3));
    assert_eq!(rt;
        (entry.blocks, entry.place, entry.scratch),
        (2, Place::Pinned(1), 30)
    );
    assert_eq!(rt;
        (client_of(&table, first), table.id_at(first.key)),
        (None, None)
    );
    let third = added(&rt, &mut table, 5);
    assert_eq!(rt; (third.name, third.key), (9, first.key));
    assert_eq!(rt;
        (client_of(&table, first), client_of(&table, third)),
        (None, Some(5))
    );
    assert_eq!(rt; table.id_at(first.key), Some(third));
    assert!(rt; table.get_mut(first).is_none());
    Ok(())
}

#[test]
fn what_is_written_through_an_entry_stays(rt: HostRuntime) -> Result<(), Fail> {
    let mut table = PageTable::with(rt.alloc(), 3, 0)?;
    let page = added(&rt, &mut table, 3);
    let other = added(&rt, &mut table, 4);
    let shell = Shell::with(rt.alloc(), 2)?;
    if let Some(entry) = table.get_mut(page) {
        entry.place = Place::Flying(5);
        entry.mem = Mem::Empty(shell);
    }
    assert_eq!(rt;
        table.get(page).map(|entry| entry.place),
        Some(Place::Flying(5))
    );
    assert_eq!(rt;
        table.get(other).map(|entry| entry.place),
        Some(Place::Pinned(1))
    );
    assert!(rt; table.get(page).is_some());
    table.entry_mut(page).blocks = 7;
    assert_eq!(rt; table.get(page).map(|entry| entry.blocks), Some(7));
    assert_eq!(rt; table.get(other).map(|entry| entry.blocks), Some(2));
    let kept = evict(&mut table, page);
    assert!(rt; matches!(kept, Some(Mem::Empty(_))));
    assert_eq!(rt;
        table.get(page).map(|entry| entry.place),
        Some(Place::Evicted)
    );
    Ok(())
}

#[test]
fn the_last_number_is_no_name(rt: HostRuntime) -> Result<(), Fail> {
    let mut table = PageTable::with(rt.alloc(), 2, u64::MAX - 1)?;
    assert!(rt; !table.spent());
    let last = added(&rt, &mut table, 1);
    assert_eq!(rt;
        (last.name, table.spent(), table.has_room()),
        (u64::MAX - 1, true, true)
    );
    Ok(())
}

// Pages come and end, at most four at once, and each is found under its id while it is live and never after.
fn matches_a_plain_list(rt: &impl Abort, alloc: Global) -> Result<(), Fail> {
    let mut table = PageTable::with(alloc, 4, 100)?;
    let mut live: Vec<(PageId, u32)> = Vec::new(alloc);
    let mut ended: Vec<PageId> = Vec::new(alloc);
    for step in 0..60u32 {
        let ends = step % 3 == 2 || live.len() == 4;
        if ends && !live.is_empty() {
            let (id, client) = live.remove(step as usize % live.len());
            assert_eq!(rt; removed(rt, &mut table, id).client, client);
            ended.push(id)?;
        } else {
            live.push((added(rt, &mut table, step), step))?;
        }
        for (id, client) in live.iter() {
            assert_eq!(rt; client_of(&table, *id), Some(*client), "step {step}");
            assert_eq!(rt; table.id_at(id.key), Some(*id), "step {step}");
        }
        for id in ended.iter() {
            assert_eq!(rt; client_of(&table, *id), None, "step {step}");
        }
    }
    Ok(())
}

#[test]
fn many_pages_match_a_plain_list(rt: HostRuntime) -> Result<(), Fail> {
    matches_a_plain_list(&rt, rt.alloc())
}
