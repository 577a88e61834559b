//! What slots count together, for contracts alone.
ghost use Rattle.pin_core.specs.SumLaws.{SumsBegin, SumsStay, SumsStayRefused, SumsGrowWritten, SumsGrowRead, SumsEnd};
ghost use Rattle.pin_core.specs.Plain.{PinsArePlain, RoomsArePlain, StartsArePlain, CreatesArePlain, AllocsArePlain};

use outside::Slot;

/// What some slots count together. No value of it is ever made.
pub struct Tally {
    /// Their faults.
    pub faults: u64,
    /// How many counts of faults stand at their last value.
    pub stuck: u64,
    /// Their stores, as far as they count them.
    pub stores: u64,
    /// How many of them don't count their stores, or stand at the last value.
    pub uncounted: u64,
    /// How many of their loads gave another block than the one held, as far as they tell.
    pub strays: u64,
    /// How many of them don't tell what they hold or how many of their loads strayed, or stand at the last value.
    pub unstrayed: u64,
    /// How many of them don't tell what they hold.
    pub silent: u64,
    /// How many they are.
    pub slots: u64,
}

/// What each kind of call makes of the sums over a pool's slots, where those in a job count as they did when it was made.
pub fn law_sums<D: Slot>()
    ensures begin { SumsBegin D.Slot }

    // A call that begins no job or one, a refusal, a write and a read that were run, and the end of the pool.
    ensures stay { SumsStay D.Slot }
    ensures refused { SumsStayRefused D.Slot }
    ensures written { SumsGrowWritten D.Slot }
    ensures read { SumsGrowRead D.Slot }
    ensures end { SumsEnd D.Slot }
{}

/// Which calls enter no failure and no write that ended well, of those whose entries depend on the pool.
#[tactic(auto, using(crate::proofs::Plain::pins_plain, crate::proofs::Plain::rooms_plain, crate::proofs::Plain::starts_plain, crate::proofs::Plain::creates_plain, crate::proofs::Plain::allocs_plain))]
pub fn law_plain<D: Slot>()
    ensures pins { PinsArePlain D }
    ensures rooms { RoomsArePlain D }
    ensures starts { StartsArePlain D }
    ensures creates { CreatesArePlain D }
    ensures allocs { AllocsArePlain D }
{}
