//! Who takes an operator's rows.
ghost use Rattle.std.specs.Prelude.{◌≡◌, ◌⊎◌, ℕ, ◌*◌, ◌≤◌, [], ◌∷◌, ◌++◌, List, Option, IfErr, OnOk, OnErr};
ghost use Rattle.row_codec.specs.declared.values.Value.{Value};
ghost use Rattle.store_api.specs.Holdings.{Holdings};
ghost use Rattle.store_api.specs.Emitters.{SameOwn, OthersStay, HasClient, IsSameEmitter, KeepsRoom, GrowsBy, CameOf, WantsSlots, slots_with};

use crate::op_err::OpErr;
use crate::store::Store;
use row_codec::Value;

/// Takes rows, one at a time. It may keep them in pages of the same store, under a client of its own.
pub trait Emit<St: Store> {
    // The rows that it took, the first one first, over what the store holds. It is given a row only where there are
    // such rows.
    ghost took: { Self → Holdings → List (List Value) → Type 0 };

    // The rows that may be given. This never changes.
    ghost admits: { Self → List Value → Type 0 };

    // Its client, where it has one. This never changes.
    ghost client: { Self → Option ℕ };

    // The faults so far of what it hands rows to.
    ghost faults: { Self → ℕ };

    // The slots that its client's pages have, over what the store holds.
    ghost slots: { Self → Holdings → ℕ };

    // The most slots that they have once it took these rows. This never changes.
    ghost slots_for: { Self → List (List Value) → ℕ };

    // The blocks of each of them.
    ghost page_blocks: { ℕ };

    // How many pages it is known to have made, as a count that no row lowers: it rises at least by those that a row makes.
    ghost creates: { Self → ℕ };

    /// Takes the row.
    ///
    /// Whatever it answers, nothing of another client changed. An error leaves open whether the row was taken.
    ///
    /// # Errors
    ///
    /// `Pool`: the store answered so in this call, or there was no memory. `Sink`: a fault came.
    fn row(&mut self, store: &mut St, row: &[Value]) -> Result<(), OpErr>
        requires admits { admits self.old row.now }
        requires client { HasClient (client self.old) (St.holds store.old) }
        requires stands { (rows : List (List Value)) × took self.old (St.holds store.old) rows }
        ensures ok { OnOk result ((rows : List (List Value)) → took self.old (St.holds store.old) rows → took self.new (St.holds store.new) (rows ++ row.now ∷ [])) }
        ensures err { OnErr result ((rows : List (List Value)) → took self.old (St.holds store.old) rows → took self.new (St.holds store.new) rows ⊎ took self.new (St.holds store.new) (rows ++ row.now ∷ [])) }
        ensures cause { IfErr result (CameOf (faults self.old) (faults self.new) (St.signs store.old) (St.signs store.new)) }
        // Slots are wanting only where the free ones and those of its pages are fewer than it may need with the row.
        ensures want { (rows : List (List Value)) → took self.old (St.holds store.old) rows → IfErr result (WantsSlots page_blocks (slots_for self.old (rows ++ row.now ∷ [])) (slots_with (slots self.new (St.holds store.new)) (St.holds store.new))) }

        ensures same { IsSameEmitter (admits self.old) (admits self.new) (client self.old) (client self.new) (slots_for self.old) (slots_for self.new) }
        ensures client_lives { HasClient (client self.old) (St.holds store.new) }
        ensures others { OthersStay (client self.old) (St.holds store.old) (St.holds store.new) }
        ensures room { KeepsRoom (client self.old) (St.holds store.old) (St.holds store.new) }
        ensures slots { slots_with (slots self.new (St.holds store.new)) (St.holds store.new) ≡ slots_with (slots self.old (St.holds store.old)) (St.holds store.old) }
        ensures never_falls { faults self.old ≤ faults self.new }
        ensures grows { GrowsBy (client self.old) (creates self.old) (creates self.new) (St.signs store.old) (St.signs store.new) };

    // It asks of a store nothing but the block length, whether pages show what was left in them, and what is its
    // client's.
    ghost asks_own: { (e : Self) (old new : Holdings) (rows : List (List Value)) → SameOwn (client e) old new → took e old rows → took e new rows };

    // So do the slots that its pages have.
    ghost slots_own: { (e : Self) (old new : Holdings) → SameOwn (client e) old new → slots e new ≡ slots e old };

    // They are no more than the rows that it took may have.
    ghost slots_fit: { (e : Self) (h : Holdings) (rows : List (List Value)) → took e h rows → slots e h ≤ slots_for e rows };

    // Each page has those of its blocks, or none.
    ghost slots_whole: { (e : Self) (h : Holdings) (rows : List (List Value)) → took e h rows → (pages : ℕ) × (slots e h ≡ pages * page_blocks) };
}
