//! Places of fragments: they begin with a part of a queue each, and give it back.
ghost use Rattle.std.specs.Prelude.{◌≡◌, ◌+◌, ◌-◌, ◌<◌, ◌≤◌, ◌^◌, ℕ, [], All, IfOk, IfSome, IsNone, IsOk, OnOk, length, sum_by, vec_len};
ghost use Rattle.crossbeam_queue.specs.Passes.{IsPassOf, IsSamePass, view};
ghost use Rattle.fragments.specs.Balance.{tally};
ghost use Rattle.fragments.specs.Places.{HasDone, IsNewPlace, IsFirstFrom, weight_at};

use crate::moves::{absorb, another};
use crate::place::Place;
use crate::rule::{Admits, Queue, Tally};
use crossbeam_queue::Pass;
use std::alloc::{AllocError, Global};

// So many places, each with a part of the queue.
pub(crate) fn begin<T: Drop, J: Admits<T>, E: Drop>(
    alloc: Global,
    queue: &Queue<T, J>,
    pass: &mut Pass<T, Tally<T>>,
    first: u32,
    count: usize,
) -> Result<Vec<Place<T, E>>, AllocError>
    requires pass { IsPassOf queue.now pass.old }
    requires parts { count < (view pass.old).parts }
    requires numbers { first + count < 2 ^ 32 }
    ensures pass { IsSamePass pass.old pass.new }
    ensures left { OnOk result (view pass.new ≡ tally ((view pass.old).parts - count) (view pass.old).put (view pass.old).taken) }
    ensures len { IfOk result (λ places. vec_len places ≡ count) }
    ensures new { IfOk result (λ places. All (IsNewPlace queue.now) places.items) }
{
    let mut places = Vec::new(alloc);
    places.reserve(count)?;
    for place in 0..count {
        places.push_reserved(Place {
            who: first + place as u32,
            pass: another(queue, pass),
            outcome: Ok(()),
        });
    }
    Ok(places)
}

// Takes the parts back. The answer is the refusal of the place with the least number.
#[tactic(auto, using(crate::proofs::Gathering::first_of_all))]
pub(crate) fn gather<T: Drop, J: Admits<T>, E: Drop>(
    queue: &Queue<T, J>,
    pass: &mut Pass<T, Tally<T>>,
    mut places: Vec<Place<T, E>>,
) -> Option<E>
    requires pass { IsPassOf queue.now pass.old }
    requires part { 0 < (view pass.old).parts }
    requires done { All (HasDone queue.now) places.items }
    ensures pass { IsSamePass pass.old pass.new }
    ensures parts { (view pass.new).parts ≡ (view pass.old).parts + vec_len places }
    ensures put { (view pass.new).put ≡ (view pass.old).put }
    ensures taken { (h : T → ℕ) → sum_by h (view pass.new).taken ≡ sum_by h (view pass.old).taken + sum_by (weight_at h) places.items }
    ensures none { IsNone result → All (λ place. IsOk place.outcome) places.items }
    ensures some { IfSome result (λ e. IsFirstFrom 0 e places.items) }
{
    let mut first = None;
    while !places.is_empty() {
        let Place {
            who: _,
            pass: other,
            outcome,
        } = places.take_last();
        absorb(queue, pass, other);
        if let Err(e) = outcome {
            first = Some(e);
        }
    }
    places.destroy_empty();
    first
}
