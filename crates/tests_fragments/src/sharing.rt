//! Numbers that several threads take into lists.
ghost use Rattle.std.specs.Prelude.{◌≡◌, ◌++◌, ◌≤◌, [], ⊤, ℕ, All, List, OnOk, length, sum_by};

use fragments::{Failure, Feeder, Giver, deal};
use outside::{Gate, MeetGate};
use std::alloc::{AllocError, Global};
use std::marker::Brand;
use std::sync::Wait;
use std::thread;
use std::thread::Threads;

// For how many turns a giver waits.
const TURNS: u64 = 10_000_000;

/// Numbers that were taken.
#[derive(Drop)]
pub struct Kept {
    pub items: Vec<u32>,
}

impl Feeder<u32, (), AllocError> for Kept {
    ghost ready = { λ f c. ⊤ };

    ghost admits = { λ f c x. ⊤ };

    ghost took = { λ f c g d items. g.items.items ≡ f.items.items ++ items };

    ghost went = { λ f c g d. ⊤ };

    ghost stops = { λ f c d e. ⊤ };

    fn take(&mut self, _beside: &mut (), item: u32) -> Result<(), AllocError> {
        self.items.push(item)?;
        Ok(())
    }
}

/// Numbers that are to be given.
pub struct Numbers<'a> {
    rest: &'a [u32],
}

impl<'a> Giver<u32, ()> for Numbers<'a> {
    ghost ready = { λ s. ⊤ };

    ghost gave = { λ a b items. a.rest.now ≡ items ++ b.rest.now };

    ghost ended = { λ a b items. a.rest.now ≡ items };

    ghost went = { λ a b. ⊤ };

    ghost stops = { λ a b q. ⊤ };

    ghost gives = { λ s x. ⊤ };

    fn next(&mut self) -> Result<Option<u32>, ()> {
        let Some((first, rest)) = self.rest.split_first() else {
            return Ok(None);
        };
        self.rest = rest;
        Ok(Some(*first))
    }
}

/// Shares numbers among lists, the first of which is the caller's: each stands in the lists together as often as in `all`.
pub fn share<R: Threads + Wait + Sync, G: Gate>(
    rt: &R,
    alloc: Global,
    gate: &G,
    all: &[u32],
    kept: &mut [Kept],
    besides: &mut [()],
) -> Result<(), Failure<(), AllocError>>
    requires len { length besides.old ≡ length kept.old }
    requires few { (1 ≤ length kept.old) × (length kept.old ≤ 9) }
    requires none { All (λ k. k.items.items ≡ []) kept.old }
    ensures { OnOk result ((h : ℕ → ℕ) → sum_by h all.now ≡ sum_by (λ k. sum_by h k.items.items) kept.new) }
{
    let mut numbers = Numbers { rest: all };
    let dealt = deal::<u32, Brand, (), AllocError, Kept, (), Numbers, R, G>(
        rt,
        alloc,
        gate,
        &mut numbers,
        kept,
        besides,
    );
    let Numbers { rest: _ } = numbers;
    dealt
}

// Numbers after which the giver waits until the gate's first actor has come, so that the queue isn't emptied by one thread.
struct Patient<'a> {
    rest: &'a [u32],
    gate: &'a MeetGate,
}

impl<'a> Giver<u32, ()> for Patient<'a> {
    ghost ready = { λ s. ⊤ };

    ghost gave = { λ a b items. a.rest.now ≡ items ++ b.rest.now };

    ghost ended = { λ a b items. a.rest.now ≡ items };

    ghost went = { λ a b. ⊤ };

    ghost stops = { λ a b q. ⊤ };

    ghost gives = { λ s x. ⊤ };

    fn next(&mut self) -> Result<Option<u32>, ()> {
        let Some((first, rest)) = self.rest.split_first() else {
            for _turn in 0..TURNS {
                if self.gate.came() {
                    break;
                }
                thread::yield_now();
            }
            return Ok(None);
        };
        self.rest = rest;
        Ok(Some(*first))
    }
}

/// Shares a few numbers, fewer than the queue has room for, with fragments that may meet at the gate.
pub fn share_at<R: Threads + Wait + Sync>(
    rt: &R,
    alloc: Global,
    gate: &MeetGate,
    all: &[u32],
    kept: &mut [Kept],
    besides: &mut [()],
) -> Result<(), Failure<(), AllocError>>
    requires len { length besides.old ≡ length kept.old }
    requires few { (1 ≤ length kept.old) × (length kept.old ≤ 9) }
{
    let mut numbers = Patient { rest: all, gate };
    let dealt = deal::<u32, Brand, (), AllocError, Kept, (), Patient, R, MeetGate>(
        rt,
        alloc,
        gate,
        &mut numbers,
        kept,
        besides,
    );
    let Patient { rest: _, gate: _ } = numbers;
    dealt
}
