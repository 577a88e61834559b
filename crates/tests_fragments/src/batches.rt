//! Numbers that several threads take into lists, sixty-four at a time.
ghost use Rattle.std.specs.Prelude.{◌≡◌, ◌≤◌, [], All, OnOk, length};
ghost use Rattle.std.specs.List.{flat_map};
ghost use Rattle.std.specs.List.Sorted.{IsPermutation};

use crate::sharing::Kept;
use fragments::{Failure, Feeder, Giver, deal};
use outside::Gate;
use std::alloc::{AllocError, Global};
use std::marker::Brand;
use std::sync::Wait;
use std::thread::Threads;

// How many numbers a batch has at most.
const BATCH: usize = 64;

/// Some numbers.
#[derive(Drop)]
pub struct Batch {
    pub rows: Vec<u32>,
}

impl Feeder<Batch, (), AllocError> for Kept {
    ghost use Rattle.std.specs.Prelude.{⊤};
    ghost use Rattle.tests_fragments.specs.InBatches.{TookRows};

    ghost ready = { λ f c. ⊤ };

    ghost admits = { λ f c x. ⊤ };

    ghost took = { λ f c g d items. TookRows f g items };

    ghost went = { λ f c g d. ⊤ };

    ghost stops = { λ f c d e. ⊤ };

    #[tactic(auto, using(crate::proofs::InBatches::took_more))]
    fn take(&mut self, _beside: &mut (), item: Batch) -> Result<(), AllocError> {
        self.items.extend_from_slice(item.rows.as_slice())?;
        Ok(())
    }
}

/// Numbers that are to be given.
pub struct Batches<'a> {
    alloc: Global,
    rest: &'a [u32],
}

impl<'a> Giver<Batch, AllocError> for Batches<'a> {
    ghost use Rattle.std.specs.Prelude.{⊤};
    ghost use Rattle.tests_fragments.specs.InBatches.{EndedRows, GaveRows};

    ghost ready = { λ s. ⊤ };

    ghost gave = { λ a b items. GaveRows a.rest.now b.rest.now items };

    ghost ended = { λ a b items. EndedRows a.rest.now items };

    ghost went = { λ a b. ⊤ };

    ghost stops = { λ a b q. ⊤ };

    ghost gives = { λ s x. ⊤ };

    #[tactic(auto, using(crate::proofs::InBatches::gave_more, crate::proofs::InBatches::gave_all))]
    fn next(&mut self) -> Result<Option<Batch>, AllocError> {
        if self.rest.is_empty() {
            return Ok(None);
        }
        let (first, rest) = self.rest.split_at(BATCH.min(self.rest.len()));
        let rows = Vec::from_slice(self.alloc, first)?;
        self.rest = rest;
        Ok(Some(Batch { rows }))
    }
}

/// Shares numbers among lists, in batches: all lists together are a permutation of `all`.
pub fn share_batches<R: Threads + Wait + Sync, G: Gate>(
    rt: &R,
    alloc: Global,
    gate: &G,
    all: &[u32],
    kept: &mut [Kept],
    besides: &mut [()],
) -> Result<(), Failure<AllocError, AllocError>>
    requires len { length besides.old ≡ length kept.old }
    requires few { (1 ≤ length kept.old) × (length kept.old ≤ 9) }
    requires none { All (λ k. k.items.items ≡ []) kept.old }
    ensures { OnOk result (IsPermutation all.now (flat_map (λ k. k.items.items) kept.new)) }
{
    let mut batches = Batches { alloc, rest: all };
    let dealt = deal::<Batch, Brand, (), AllocError, Kept, AllocError, Batches, R, G>(
        rt,
        alloc,
        gate,
        &mut batches,
        kept,
        besides,
    );
    let Batches { alloc: _, rest: _ } = batches;
    dealt
}
