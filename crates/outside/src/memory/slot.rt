// A slot that keeps its block in memory.

ghost use Rattle.std.specs.Prelude.{◌≡◌, ◌==◌, ◌&&◌, ◌≤◌, ◌⊎◌, ◌↔◌, [], true, Some, IsErr, OnOk, OnErr, IfOk, IfSome, length, map};
ghost use Rattle.std.specs.Option.{option_map};
ghost use Rattle.outside.specs.Counts.{Rose, counted};
ghost use Rattle.outside.specs.Schedule.{FailsNext, after_call, after_fault};
ghost use Rattle.outside.specs.Slots.{KeepsStrays, Gave, CountsStore};
ghost use Rattle.outside.specs.InMemory.{fresh_slot, lie_at, strays_of, Loaded, StoreFailed, StoreStarved};

use crate::memory::Memory;
use crate::schedule::Schedule;
use crate::slot::Slot;
use crate::stream::Failed;
use std::alloc::Global;
use std::marker::Model;

/// A slot in memory. It tells its block and counts its stores, gives other blocks where that is listed, and fails exactly at the stores and
/// loads that are listed, numbered together, and at the stores that find no memory, which it counts.
/// After a store that failed it holds nothing that is known.
#[derive(Debug, Drop)]
pub struct MemSlot {
    alloc: Global,
    held: Option<Vec<u8>>,
    schedule: Schedule,
    starved: u64,
    stores: u64,
    lies: Vec<(u64, Vec<u8>)>,
    strays: u64,
}

impl Model for MemSlot {
    ghost use Rattle.std.specs.Prelude.{map};
    ghost use Rattle.std.specs.Option.{option_map};
    ghost use Rattle.outside.specs.InMemory.{SlotState};

    ghost Value = { SlotState };

    ghost view = { λ s. record { held = option_map (λ v. v.items) s.held; plan = s.schedule; starved = s.starved; stores = s.stores; lies = map (λ lie. (lie.0, lie.1.items)) s.lies.items; strays = s.strays } };
}

impl MemSlot {
    /// An empty slot. The stores and loads whose numbers, counted together from 0, stand in `fails`
    /// are faults.
    ///
    /// # Errors
    ///
    /// `Memory`: there was none for the list of the calls that fail.
    pub fn new(alloc: Global, fails: &[u64]) -> Result<MemSlot, Memory>
        ensures { IfOk result (λ s. s ≡ fresh_slot fails.now []) }
    {
        MemSlot::lying(alloc, fails, &[])
    }

    /// The same, but that the load with a number in `lies` gives the block beside it, where that is as
    /// long as the load, in the place of what the slot holds.
    ///
    /// # Errors
    ///
    /// `Memory`: there was none for the list of the calls that fail or for the copies of the blocks.
    pub fn lying(alloc: Global, fails: &[u64], lies: &[(u64, Vec<u8>)]) -> Result<MemSlot, Memory>
        ensures { IfOk result (λ s. s ≡ fresh_slot fails.now (map (λ lie. (lie.0, lie.1.items)) lies.now)) }
    {
        let mut copies = Vec::new(alloc);
        for i in 0..lies.len() {
            let lie = &lies[i];
            copies.push((lie.0, Vec::from_slice(alloc, lie.1.as_slice())?))?;
        }
        Ok(MemSlot {
            alloc,
            held: None,
            schedule: Schedule::new(alloc, fails)?,
            starved: 0,
            stores: 0,
            lies: copies,
            strays: 0,
        })
    }

    /// The loads so far that gave another block than the one that is held.
    pub fn strays(&self) -> u64
        ensures { result ≡ self.now.strays }
    {
        self.strays
    }

    /// The stores that went well so far.
    pub fn stores(&self) -> u64
        ensures { result ≡ self.now.stores }
    {
        self.stores
    }

    /// The stores that found no memory so far.
    pub fn starved(&self) -> u64
        ensures { result ≡ self.now.starved }
    {
        self.starved
    }

    /// The stores and loads that failed so far.
    pub fn faults(&self) -> u64
        ensures { result ≡ self.now.plan.faults }
    {
        self.schedule.faults()
    }

    // The block that is listed for the next call, where one is that has this length.
    fn lie(&self, len: usize) -> Option<&[u8]>
        ensures value { option_map (λ lie. lie.now) result ≡ lie_at self.now.plan.calls len self.now.lies }
        ensures len { IfSome result (λ lie. length lie.now ≡ len) }
    {
        let call = self.schedule.calls();
        for i in 0..self.lies.len() {
            let lie = &self.lies[i];
            if is_for(lie, call, len) {
                return Some(lie.1.as_slice());
            }
        }
        None
    }

    // Puts a copy of the block in the place of what was held, or leaves nothing.
    fn keep(&mut self, block: &[u8]) -> Result<(), Memory>
        ensures ok { OnOk result (self.new ≡ record self.old { held = Some block.now }) }
        ensures err { OnErr result (self.new ≡ record self.old { held = None }) }
    {
        // A block of the same length takes no memory.
        let mut room = match self.held.take() {
            Some(room) => room,
            None => Vec::new(self.alloc),
        };
        room.clear();
        room.extend_from_slice(block)?;
        self.held = Some(room);
        Ok(())
    }
}

// Whether the block is listed for this call, and has this length.
fn is_for(lie: &(u64, Vec<u8>), call: u64, len: usize) -> bool
    ensures { result ≡ ((lie.now.0 == call) && (length lie.now.1.items == len)) }
{
    lie.0 == call && lie.1.as_slice().len() == len
}

impl Slot for MemSlot {
    ghost tells = { λ _. true };

    ghost held = { λ s. s.held };

    ghost stores = { λ s. Some s.stores };

    ghost strays = { λ s. Some (strays_of s) };

    ghost faults = { λ s. s.plan.faults };

    fn store(&mut self, block: &[u8]) -> Result<(), Failed>
        ensures listed { FailsNext self.old.plan → IsErr result }
        ensures ok { OnOk result (self.new ≡ record self.old { held = Some block.now; plan = after_call self.old.plan; stores = counted self.old.stores }) }
        // A store that is not listed fails only for want of memory.
        ensures err { OnErr result (StoreFailed self.old self.new ⊎ StoreStarved self.old self.new) }

        ensures stores { CountsStore (Some self.old.stores) (Some self.new.stores) result }
        ensures never_falls { self.old.plan.faults ≤ self.new.plan.faults }
        ensures failed { OnErr result (Rose self.old.plan.faults self.new.plan.faults) }
    {
        if self.schedule.fails_next() {
            self.held = None;
            self.schedule.fail();
            return Err(Failed);
        }
        if self.keep(block).is_err() {
            self.starved = self.starved.saturating_add(1);
            self.schedule.fail();
            return Err(Failed);
        }
        self.stores = self.stores.saturating_add(1);
        self.schedule.pass();
        Ok(())
    }

    fn load(&mut self, block: &mut [u8]) -> Result<(), Failed>
        ensures listed { IsErr result ↔ FailsNext self.old.plan }
        ensures loaded { OnOk result (Loaded self.old block.new self.new) }
        ensures ok { OnOk result (Gave self.old.held (Some (strays_of self.old)) (Some (strays_of self.new)) block.new) }
        ensures strays { KeepsStrays (Some (strays_of self.old)) (Some (strays_of self.new)) }
        ensures err { OnErr result (self.new ≡ record self.old { plan = after_fault self.old.plan }) }

        ensures never_falls { self.old.plan.faults ≤ self.new.plan.faults }
        ensures failed { OnErr result (Rose self.old.plan.faults self.new.plan.faults) }
    {
        if self.schedule.fails_next() {
            self.schedule.fail();
            return Err(Failed);
        }
        if let Some(lie) = self.lie(block.len()) {
            block.copy_from_slice(lie);
            self.strays = self.strays.saturating_add(1);
            self.schedule.pass();
            return Ok(());
        }
        if let Some(held) = &self.held {
            if held.len() == block.len() {
                block.copy_from_slice(held.as_slice());
            }
        }
        self.schedule.pass();
        Ok(())
    }
}
