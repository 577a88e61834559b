//! How one owner has its pool's value: nobody else ever has it.
ghost use Rattle.std.specs.Prelude.{◌≡◌, ◌++◌, [], IfOk, None};
ghost use Rattle.local_pool.specs.Shelving.{counted_since, entered_since};

use outside::{Point, Slot};
use pool_model::Entry;
use session_calls::{Access, Count, Hand, Opened};
use std::alloc::Global;
use std::marker::Brand;
use turn_table::{Adds, Memory, Solo};

/// Where the value lies while it isn't in the owner's hand, and what the owner saw of its history and of its slots'
/// counts when it was there.
#[derive(Drop)]
pub struct Shelf<D> {
    pub(crate) value: Option<Hand<D>>,
    pub(crate) seen: Solo<Entry>,
    pub(crate) counted: Solo<Count>,
}

impl<D> Shelf<D> {
    // Nothing lies there, and nothing was seen.
    pub(crate) fn open(alloc: Global) -> Result<Shelf<D>, Memory>
        ensures { IfOk result (λ shelf. (shelf.value ≡ None) × (shelf.seen ≡ []) × (shelf.counted ≡ [])) }
    {
        let seen = Solo::open(alloc)?;
        let counted = Solo::open(alloc)?;
        Ok(Shelf {
            value: None,
            seen,
            counted,
        })
    }

    // The owner has seen what is in its hand.
    pub(crate) fn see(&mut self, hand: &Hand<D>)
        ensures value { self.new.value ≡ self.old.value }
        ensures seen { self.new.seen ≡ self.old.seen ++ entered_since self.old.seen hand.now.trail }
        ensures counted { self.new.counted ≡ self.old.counted ++ counted_since self.old.counted hand.now.counts }
    {
        see_trail::<Brand, D>(&mut self.seen, hand);
        see_counts::<Brand, D>(&mut self.counted, hand);
    }
}

/// The way of one owner to its pool's value.
#[derive(Clone, Copy)]
pub(crate) struct Sole;

impl<D: Slot + Drop> Access<D> for Sole {
    ghost use Rattle.std.specs.Prelude.{◌≡◌, true, Some};
    ghost use Rattle.own_entries.specs.AboveLaws.{AllBy};
    ghost use Rattle.session_calls.specs.declared.hand.Hand.{Hand};
    ghost use Rattle.session_calls.specs.Having.{MayGive, Taken, sight_of};
    ghost use Rattle.local_pool.specs.Shelving.{LiesThere, sees, sees_its_own};

    type Place = Shelf<D>;

    ghost alone = { true };

    ghost seen = { λ shelf. sees shelf };

    ghost kept = { λ shelf hand. shelf.value ≡ Some hand };

    ghost rests = { λ o u sole shelf m. LiesThere D.Slot o u.told shelf m };

    ghost turns = { λ o u sole shelf m. AllBy m shelf.seen };

    ghost sole = { sees_its_own };

    fn take<O: Opened>(&self, place: &mut Shelf<D>, session: u32) -> Hand<D>
        requires { LiesThere D.Slot O.opening O.outset.told place.old session }
        ensures turns { AllBy session place.new.seen }
        ensures taken { Taken D.Slot O.opening O.outset.told session (sees place.old) (sees place.new) result }
        ensures kept { true ≡ true → (hand : Hand D) → place.old.value ≡ Some hand → result ≡ hand }
    {
        place.value.take().unwrap()
    }

    fn give<O: Opened>(&self, place: &mut Shelf<D>, hand: Hand<D>)
        requires turns { AllBy hand.session place.old.seen }
        requires may { MayGive D.Slot O.opening O.outset.told (sees place.old) hand }
        ensures rests { LiesThere D.Slot O.opening O.outset.told place.new hand.session }
        ensures seen { sees place.new ≡ sight_of hand }
        ensures kept { true ≡ true → place.new.value ≡ Some hand }
    {
        place.see(&hand);
        place.value = Some(hand);
    }

    // Nobody waits for it there.
    fn pass(&self, _point: Point) {}

    fn again(&self, left: u64) -> u64 {
        left
    }
}

// The owner has seen the history so far, of which `N` names what came since.
fn see_trail<N: Adds<Entry>, D>(seen: &mut Solo<Entry>, _hand: &Hand<D>)
    requires named { N.entries ≡ entered_since seen.old _hand.now.trail }
    ensures { seen.new ≡ seen.old ++ entered_since seen.old _hand.now.trail }
{
    seen.tick::<N>();
}

// And what its slots counted.
fn see_counts<N: Adds<Count>, D>(counted: &mut Solo<Count>, _hand: &Hand<D>)
    requires named { N.entries ≡ counted_since counted.old _hand.now.counts }
    ensures { counted.new ≡ counted.old ++ counted_since counted.old _hand.now.counts }
{
    counted.tick::<N>();
}
