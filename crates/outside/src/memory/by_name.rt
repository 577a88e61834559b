// Entries by name, each with its count of faults.

ghost use Rattle.std.specs.Prelude.{◌≡◌, ◌≤◌, ◌↔◌, ℕ, Some, OnOk, OnErr, IfNone, IfSome, IsSome, IsTrue};
ghost use Rattle.std.specs.BTreeMap.{get_by_text};
ghost use Rattle.outside.specs.Names.{AllStay, Changes};

use crate::memory::Memory;
use std::alloc::Global;
use std::collections::BTreeMap;

// Something with a count of faults.
pub(crate) trait Faulty: Drop {
    ghost faults: { Self → ℕ };

    // The same with so many faults more.
    ghost raised: { ℕ → Self → Self };

    fn raise(&mut self, more: u64)
        ensures state { self.new ≡ raised more self.old }
        ensures never_falls { faults self.old ≤ faults self.new };
}

// Puts an entry under a name, in the place of what stood there.
pub(crate) fn put<X: Drop>(
    entries: &mut BTreeMap<String, X>,
    alloc: Global,
    name: &str,
    entry: X,
) -> Result<(), Memory>
    ensures ok { OnOk result (Changes name.now (Some entry) (get_by_text entries.old) (get_by_text entries.new)) }
    ensures err { OnErr result (AllStay (get_by_text entries.old) (get_by_text entries.new)) }
{
    entries.insert(String::from_str(alloc, name)?, entry)?;
    Ok(())
}

// Adds to the faults of the entry under a name, and answers whether there is one.
pub(crate) fn add_faults<X: Faulty>(
    entries: &mut BTreeMap<String, X>,
    name: &str,
    more: u64,
) -> bool
    ensures found { IsTrue result ↔ IsSome (get_by_text entries.old name.now) }
    ensures some { IfSome (get_by_text entries.old name.now) (λ entry. Changes name.now (Some (X.raised more entry)) (get_by_text entries.old) (get_by_text entries.new)) }
    ensures none { IfNone (get_by_text entries.old name.now) (AllStay (get_by_text entries.old) (get_by_text entries.new)) }
    ensures rises { IfSome (get_by_text entries.old name.now) (λ entry. X.faults entry ≤ X.faults (X.raised more entry)) }
{
    let Some(entry) = entries.get_mut(name) else {
        return false;
    };
    entry.raise(more);
    true
}
