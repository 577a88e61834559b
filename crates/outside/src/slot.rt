// One block of scratch.

ghost use Rattle.std.specs.Prelude.{◌≡◌, ◌≤◌, ℕ, Bool, List, Option, OnOk, OnErr};
ghost use Rattle.outside.specs.Counts.{Rose};
ghost use Rattle.outside.specs.Slots.{told_block, Strays, KeepsStrays, Gave, CountsStore};

use crate::stream::Failed;

/// A place on scratch that holds one block at a time.
pub trait Slot {
    // Whether the slot tells at all what it holds. This never changes.
    ghost tells: { Self → Bool };

    // The block that the slot holds now, where it is known.
    ghost held: { Self → Option (List ℕ) };

    // The stores that went well, where the slot counts them.
    ghost stores: { Self → Option ℕ };

    // The blocks that its loads may give besides the one that it holds, and how many loads gave one, where that is told.
    ghost strays: { Self → Option Strays };

    // The faults so far.
    ghost faults: { Self → ℕ };

    /// Puts `block` in the place of what the slot held.
    ///
    /// After [`Failed`] what the slot holds is left open.
    fn store(&mut self, block: &[u8]) -> Result<(), Failed>
        ensures ok { OnOk result (held self.new ≡ told_block (tells self.old) block.now) }
        ensures stores { CountsStore (stores self.old) (stores self.new) result }
        ensures tells { tells self.new ≡ tells self.old }
        ensures strays { KeepsStrays (strays self.old) (strays self.new) }
        ensures never_falls { faults self.old ≤ faults self.new }
        ensures failed { OnErr result (Rose (faults self.old) (faults self.new)) };

    /// Shows the block that the slot holds, or a further one that it tells.
    ///
    /// Where the held block has another length than `block`, or none is held, the bytes shown are left open:
    /// this is no fault. After [`Failed`] they are left open too.
    fn load(&mut self, block: &mut [u8]) -> Result<(), Failed>
        ensures ok { OnOk result (Gave (held self.old) (strays self.old) (strays self.new) block.new) }
        ensures held { held self.new ≡ held self.old }
        ensures stores { stores self.new ≡ stores self.old }
        ensures tells { tells self.new ≡ tells self.old }
        ensures strays { KeepsStrays (strays self.old) (strays self.new) }
        ensures never_falls { faults self.old ≤ faults self.new }
        ensures failed { OnErr result (Rose (faults self.old) (faults self.new)) };
}
