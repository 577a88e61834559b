//! A stack of partitions, and how it grows and shrinks.
ghost use Rattle.std.specs.Prelude.{◌≡◌, ◌+◌, ◌<◌, ◌++◌, ◌∷◌, [], length, slice_get, take, Some, IfOk, IfSome, OnOk, OnErr};
ghost use Rattle.store_api.specs.Conditions.{IsBlockCount};
ghost use Rattle.partition_stack.specs.Stack.{IsPlaced, IsStack, divided, first_sixteen};

use crate::streams::push_sixteen;
use reservation_tree::Memory;
use std::alloc::Global;
use std::marker::Model;
use tuple_stream::Stream;

/// Partitions of one client's rows, the top one last.
///
/// It can't be let go while it has partitions: [`Partitions::end`] ends them.
pub struct Partitions {
    pub(crate) page_blocks: u32,
    pub(crate) streams: Vec<Stream>,
    pub(crate) levels: Vec<u32>,
}

impl Model for Partitions {
    ghost use Rattle.partition_stack.specs.Stack.{IsStack, Stack};

    ghost Value = { Stack };

    ghost view = { λ p. record { page_blocks = p.page_blocks; streams = p.streams.items; levels = p.levels.items } };

    ghost invariant = { λ p. IsStack (record { page_blocks = p.page_blocks; streams = p.streams.items; levels = p.levels.items }) };
}

impl Partitions {
    /// Sixteen partitions of the first level, without rows. Their pages will have so many blocks, a power of two up to
    /// 256.
    pub fn new(alloc: Global, page_blocks: u32) -> Result<Partitions, Memory>
        requires { IsBlockCount page_blocks }
        ensures { IfOk result (λ p. p ≡ first_sixteen page_blocks) }
    {
        let mut streams = Vec::new(alloc);
        let mut levels = Vec::new(alloc);
        if push_sixteen(alloc, page_blocks, 1, &mut streams, &mut levels).is_err() {
            streams.destroy_empty();
            return Err(Memory);
        }
        Ok(Partitions {
            page_blocks,
            streams,
            levels,
        })
    }

    /// How many blocks a page has.
    pub fn page_blocks(&self) -> u32
        ensures { result ≡ self.now.page_blocks }
    {
        self.page_blocks
    }

    /// What always holds of a stack, as a law.
    pub fn law_stack(&self)
        ensures { IsStack self.now }
    {
        let _levels = &self.levels;
    }

    /// How many partitions there are.
    pub fn len(&self) -> usize
        ensures { result ≡ length self.now.streams }
    {
        self.streams.len()
    }

    /// The level of a partition, from 1 to 16.
    pub fn level(&self, at: usize) -> u32
        requires { at < length self.now.streams }
        ensures value { slice_get self.now.levels at ≡ Some result }
        ensures placed { IsPlaced at result }
    {
        self.levels[at]
    }

    /// How many rows a partition has.
    pub fn rows(&self, at: usize) -> u64
        requires { at < length self.now.streams }
        ensures { IfSome (slice_get self.now.streams at) (λ s. result ≡ s.count) }
    {
        self.streams[at].rows()
    }

    /// On how many pages they stand.
    pub fn pages(&self, at: usize) -> usize
        requires { at < length self.now.streams }
        ensures { IfSome (slice_get self.now.streams at) (λ s. result ≡ length s.pages) }
    {
        self.streams[at].pages()
    }

    /// Puts sixteen partitions without rows on top of the top one, whose level is below 16. They and it have the next level
    /// from then on.
    pub fn divide(&mut self, alloc: Global, at: usize, level: u32) -> Result<(), Memory>
        requires top { length self.old.streams ≡ at + 1 }
        requires level { slice_get self.old.levels at ≡ Some level }
        requires deep { level < 16 }
        ensures ok { OnOk result (self.new ≡ divided at level self.old) }
        ensures err { OnErr result (self.new ≡ self.old) }
    {
        push_sixteen(
            alloc,
            self.page_blocks,
            level + 1,
            &mut self.streams,
            &mut self.levels,
        )?;
        self.levels[at] = level + 1;
        Ok(())
    }

    /// Takes the top partition off the stack.
    pub fn pop(&mut self) -> Stream
        requires { 0 < length self.old.streams }
        ensures streams { self.old.streams ≡ self.new.streams ++ result ∷ [] }
        ensures levels { self.new.levels ≡ take (length self.new.streams) self.old.levels }
        ensures blocks { self.new.page_blocks ≡ self.old.page_blocks }
    {
        let _level = self.levels.take_last();
        self.streams.take_last()
    }
}
