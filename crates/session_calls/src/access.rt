//! Who has a pool's value, and when.
use crate::hand::Hand;
use crate::opened::Opened;
use outside::{Point, Slot};

/// A session's way to the pool's value: it takes it in hand, and gives it back. While it isn't in hand, others may have
/// it, unless the session is alone.
///
/// `O` names with what the pool opened, for contracts alone.
pub trait Access<D: Slot> {
    ghost use Rattle.std.specs.Prelude.{◌≡◌, ◌+◌, ℕ, Bool, true, false};
    ghost use Rattle.pool_model.specs.State.{Opening};
    ghost use Rattle.own_entries.specs.OwnHoldings.{Outset};
    ghost use Rattle.own_entries.specs.AboveLaws.{AllBy};
    ghost use Rattle.session_calls.specs.declared.hand.Hand.{Hand};
    ghost use Rattle.session_calls.specs.Having.{MayGive, Sight, Taken, sight_of};

    /// Where the session stands.
    type Place;

    // Whether nobody else makes entries.
    ghost alone: { Bool };

    // What was seen from there: the history, and what slots counted.
    ghost seen: { Self.Place → Sight };

    // The value that was given back there is this, and nobody else may have it.
    ghost kept: { Self.Place → Hand D → Type 0 };

    // A session of this number may take the value from there; and has it.
    ghost rests: { Opening → Outset → Self → Self.Place → ℕ → Type 0 };

    ghost turns: { Opening → Outset → Self → Self.Place → ℕ → Type 0 };

    /// Waits until the value is free, and takes it.
    fn take<O: Opened>(&self, place: &mut Self::Place, session: u32) -> Hand<D>
        requires { rests O.opening O.outset self.now place.old session }
        ensures turns { turns O.opening O.outset self.now place.new session }
        ensures taken { Taken D.Slot O.opening O.outset.told session (seen place.old) (seen place.new) result }
        ensures kept { alone ≡ true → (hand : Hand D) → kept place.old hand → result ≡ hand };

    /// Gives it back.
    fn give<O: Opened>(&self, place: &mut Self::Place, hand: Hand<D>)
        requires turns { turns O.opening O.outset self.now place.old hand.session }
        requires may { MayGive D.Slot O.opening O.outset.told (seen place.old) hand }
        ensures rests { rests O.opening O.outset self.now place.new hand.session }
        ensures seen { seen place.new ≡ sight_of hand }
        ensures kept { alone ≡ true → kept place.new hand };

    /// The session stands here, in a job of one of its pages. Nothing is promised of it.
    fn pass(&self, point: Point);

    /// A call that goes on for a turn more: how many more it may go on for, of which a session that is alone needs no
    /// count. It may not return where none is left.
    fn again(&self, left: u64) -> u64
        ensures { alone ≡ false → result + 1 ≡ left };

    // What a session has seen that is alone, it made itself.
    ghost sole: { (o : Opening) (u : Outset) (access : Self) (place : Self.Place) (m : ℕ) → turns o u access place m → alone ≡ true → AllBy m (seen place).trail };
}
