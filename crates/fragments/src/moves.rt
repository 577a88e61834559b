//! One move of a queue.
ghost use Rattle.std.specs.Prelude.{◌≡◌, ◌<◌, ◌++◌, ◌∷◌, ◌-◌, ◌+◌, [], IfOk, MatchResult, MatchOption, ⊤};
ghost use Rattle.crossbeam_queue.specs.Passes.{IsPassOf, IsSamePass, view};
ghost use Rattle.fragments.specs.Balance.{IsEven, tally, has_put, has_taken};

use crate::rule::{Admits, Cut, Puts, Queue, Takes, Tally};
use crossbeam_queue::Pass;
use std::alloc::{AllocError, Global};
use std::sync::Wait;

/// A queue with room for so many items, and the pass that has all parts.
pub(crate) fn open<T, J: Admits<T>>(
    alloc: Global,
    room: usize,
) -> Result<(Queue<T, J>, Pass<T, Tally<T>>), AllocError>
    requires { 0 < room }
    ensures { IfOk result (λ q. IsPassOf q.0 q.1 × (view q.1 ≡ tally 1024 [] [])) }
{
    Queue::ruled(alloc, room)
}

/// Puts an item, or hands it back where the queue was full.
pub(crate) fn put<T, J: Admits<T>, R: Wait>(
    rt: &R,
    queue: &Queue<T, J>,
    pass: &mut Pass<T, Tally<T>>,
    item: T,
) -> Result<(), T>
    requires pass { IsPassOf queue.now pass.old }
    requires part { 0 < (view pass.old).parts }
    requires admits { J.admits item }
    ensures pass { IsSamePass pass.old pass.new }
    ensures put { MatchResult result (λ _. view pass.new ≡ has_put (view pass.old) item) (λ back. (back ≡ item) × (view pass.new ≡ view pass.old)) }
{
    queue.push_as::<Puts, R>(rt, pass, item)
}

/// Takes an item, where there is one.
pub(crate) fn take<T, J: Admits<T>, R: Wait>(
    rt: &R,
    queue: &Queue<T, J>,
    pass: &mut Pass<T, Tally<T>>,
) -> Option<T>
    requires pass { IsPassOf queue.now pass.old }
    requires part { 0 < (view pass.old).parts }
    ensures pass { IsSamePass pass.old pass.new }
    ensures some { MatchOption result (view pass.new ≡ view pass.old) (λ x. (view pass.new ≡ has_taken (view pass.old) x) × J.admits x) }
    ensures none { MatchOption result ((view pass.old).parts ≡ 1024 → IsEven (view pass.old)) (λ x. ⊤) }
{
    queue.pop_as::<Takes<J>, R>(rt, pass)
}

/// Another pass, with one part.
pub(crate) fn another<T, J: Admits<T>>(
    queue: &Queue<T, J>,
    pass: &mut Pass<T, Tally<T>>,
) -> Pass<T, Tally<T>>
    requires pass { IsPassOf queue.now pass.old }
    requires parts { 1 < (view pass.old).parts }
    ensures pass { IsSamePass pass.old pass.new × IsPassOf queue.now result }
    ensures left { view pass.new ≡ tally ((view pass.old).parts - 1) (view pass.old).put (view pass.old).taken }
    ensures right { view result ≡ tally 1 [] [] }
{
    queue.another::<Cut>(pass)
}

/// Takes a pass back, with what it did.
pub(crate) fn absorb<T, J: Admits<T>>(
    queue: &Queue<T, J>,
    pass: &mut Pass<T, Tally<T>>,
    other: Pass<T, Tally<T>>,
)
    requires pass { IsPassOf queue.now pass.old × IsPassOf queue.now other }
    requires part { 0 < (view pass.old).parts }
    ensures pass { IsSamePass pass.old pass.new }
    ensures both { view pass.new ≡ tally ((view pass.old).parts + (view other).parts)
        ((view pass.old).put ++ (view other).put) ((view pass.old).taken ++ (view other).taken) }
{
    queue.absorb::<Cut>(pass, other)
}
