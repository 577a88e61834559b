//! The same trail for one owner, who waits for nobody.

ghost use Rattle.std.specs.Prelude.{◌≡◌, List, [], ◌++◌, IfOk};

use crate::logged::Adds;
use crate::memory::Memory;
use atomic_table::{Play, Seat, Table, TableRule};
use std::alloc::{AllocError, Global};
use std::collections::LinkedList;
use std::marker::{Model, PhantomData};

// The one word, which stays 0.
const WORD: usize = 0;

// Nothing is asked of the table: its one view is the trail.
struct SoloRule;

impl<E> TableRule<(), LinkedList<E>, ()> for SoloRule {
    ghost holds = { λ _ _. Unit {0} };

    ghost first = { λ _. [] };
}

struct Tick<N>(PhantomData<N>);

impl<E, N: Adds<E>> Play<(), LinkedList<E>> for Tick<N> {
    ghost then = { λ _ me _ now. now ≡ (me.0 ++ N.entries, me.1) };
}

/// A trail of entries. Contracts see it as the list of them, the oldest first; it keeps none.
#[derive(Drop)]
pub struct Solo<E> {
    table: Table<(), LinkedList<E>, (), SoloRule, Global>,
    place: Seat<(), LinkedList<E>>,
}

impl<E> Model for Solo<E> {
    ghost Value = { List E };

    ghost view = { λ s. s.place.me.0 };

    ghost invariant = { λ s. (s.place.table_id ≡ s.table.shared.table_id) × (s.table.shared.table_id.words ≡ 1) };
}

impl<E> Solo<E> {
    /// The empty trail.
    ///
    /// # Errors
    ///
    /// `Memory`: there was none for the table of one word that stands behind the trail.
    pub fn open(alloc: Global) -> Result<Solo<E>, Memory>
        ensures { IfOk result (λ trail. trail ≡ []) }
    {
        match Table::of_words(alloc, &[0], &()) {
            Ok((table, place)) => Ok(Solo { table, place }),
            Err(AllocError) => Err(Memory),
        }
    }

    /// Adds entries to the end of the trail. `N` names them, for contracts alone.
    pub fn tick<N: Adds<E>>(&mut self)
        ensures { self.new ≡ self.old ++ N.entries }
    {
        let table = &self.table;
        table.shared.load::<Tick<N>>(&mut self.place, WORD);
    }
}
