//! The queue of free slots and the quotas.
ghost use Rattle.std.specs.Prelude.{◌≡◌, ◌+◌, ◌^◌, ◌<◌, ◌≤◌, ◌↔◌, Some, None, IsSome, IsErr, IfOk, IfErr, OnOk, OnErr, length, replicate, take, drop, ◌++◌, vec_len, vec_capacity};
ghost use Rattle.std.specs.VecDeque.{deque_len, deque_capacity};
ghost use Rattle.scratch_dev.specs.Pool.{IsCounted, NoneIsOpen, free_of, lent_of, quota_of, with_open, with_closed, with_taken, with_given};

use crate::quota::Quota;
use crate::shells::{SlotRow, SlotShell};
use reservation_tree::{Memory, PoolErr};
use std::alloc::Global;
use std::collections::VecDeque;
use std::marker::Model;

/// Slots of scratch in one queue, and quotas of them.
#[derive(Drop)]
pub struct SlotPool<D> {
    free: VecDeque<D>,
    quotas: Vec<Option<Quota>>,
    spare: u32,
}

impl<D> Model for SlotPool<D> {
    ghost use Rattle.std.specs.Prelude.{◌≡◌, ◌+◌, ◌^◌, ◌<◌, ◌≤◌, length};
    ghost use Rattle.std.specs.List.{sum_by};
    ghost use Rattle.std.specs.VecDeque.{deque_len, deque_capacity};
    ghost use Rattle.scratch_dev.specs.Pool.{Scratch, free_in, lent_in};

    ghost Value = { Scratch D };

    ghost view = { λ pool. record { free = pool.free.items; quotas = pool.quotas.items; spare = pool.spare } };

    ghost invariant = { λ pool. record {
      listed : length pool.free.items ≡ deque_len pool.free;
      counted : deque_len pool.free ≡ pool.spare + sum_by free_in pool.quotas.items;
      room : deque_len pool.free + sum_by lent_in pool.quotas.items ≤ deque_capacity pool.free;
      short : deque_len pool.free + sum_by lent_in pool.quotas.items < 2 ^ 32;
    } };
}

impl<D> SlotPool<D> {
    /// A pool of these slots, the first of them the first to go out, with that many quotas, all closed.
    ///
    /// # Errors
    ///
    /// `Memory`: there was no memory for the quotas. The slots come back.
    pub fn open(alloc: Global, slots: Vec<D>, quotas: u32) -> Result<SlotPool<D>, (Vec<D>, Memory)>
        requires { vec_len slots < 2 ^ 32 }
        ensures ok { IfOk result (λ pool. pool ≡ record { free = slots.items; quotas = replicate quotas None; spare = vec_len slots }) }
        ensures err { IfErr result (λ e. e.0.items ≡ slots.items) }
    {
        let closed = match vec![in alloc; None; quotas as usize] {
            Ok(closed) => closed,
            Err(_) => return Err((slots, Memory)),
        };
        let spare = slots.len() as u32;
        Ok(SlotPool {
            free: VecDeque::from_vec(slots),
            quotas: closed,
            spare,
        })
    }

    /// All slots, in the order in which they would have gone out. No quota is open.
    pub fn close(self) -> Vec<D>
        requires { NoneIsOpen self }
        ensures slots { result.items ≡ self.free }
        ensures count { vec_len result ≡ self.spare }
    {
        self.free.into_vec()
    }

    /// The number of slots in no quota.
    #[inline]
    pub fn spare(&self) -> u32
        ensures value { result ≡ self.now.spare }
        ensures counted { IsCounted self.now }
    {
        self.spare
    }

    /// What holds of every pool: as many slots are free as are spare or free in a quota.
    #[inline]
    pub fn law_counted(&self)
        ensures { IsCounted self.now }
    {
        let _free = &self.free;
    }

    /// Sets `size` spare slots aside for the quota `q`, which is closed.
    pub fn open_quota(&mut self, q: u32, size: u32)
        requires number { q < length self.old.quotas }
        requires closed { quota_of self.old q ≡ None }
        requires spare { size ≤ self.old.spare }
        ensures { self.new ≡ with_open q size self.old }
    {
        self.quotas[q as usize] = Some(Quota {
            free: size,
            lent: 0,
        });
        self.spare -= size;
    }

    /// Ends the quota `q`, whose slots all came back. They are spare again.
    pub fn close_quota(&mut self, q: u32)
        requires number { q < length self.old.quotas }
        requires open { IsSome (quota_of self.old q) }
        requires home { lent_of self.old q ≡ 0 }
        ensures { self.new ≡ with_closed q self.old }
    {
        let quota = self.quota(q);
        self.quotas[q as usize] = None;
        self.spare += quota.free;
    }

    /// The first free slots, as many as the shell has room for, on the quota `q`.
    ///
    /// # Errors
    ///
    /// `ScratchFull`: fewer slots of the quota are free. The shell comes back.
    pub fn take(
        &mut self,
        q: u32,
        shell: SlotShell<D>,
    ) -> Result<SlotRow<D>, (SlotShell<D>, PoolErr)>
        requires number { q < length self.old.quotas }
        requires open { IsSome (quota_of self.old q) }
        ensures ok { OnOk result (self.new ≡ with_taken q shell self.old) }
        ensures row { IfOk result (λ row. row ≡ take shell self.old.free) }
        ensures len { IfOk result (λ row. length row ≡ shell) }

        // It is refused exactly where fewer slots of the quota are free than the shell has room for.
        ensures refused { IsErr result ↔ (free_of self.old q < shell) }
        ensures cause { IfErr result (λ e. e.1 ≡ PoolErr.ScratchFull shell (free_of self.old q)) }
        ensures shell { IfErr result (λ e. e.0 ≡ shell) }
        ensures err { OnErr result (self.new ≡ self.old) }
    {
        let need = shell.room;
        let quota = self.quota(q);
        if quota.free < need {
            return Err((
                shell,
                PoolErr::ScratchFull {
                    need,
                    free: quota.free,
                },
            ));
        }
        self.quotas[q as usize] = Some(Quota {
            free: quota.free - need,
            lent: quota.lent + need,
        });
        let SlotShell {
            room: _,
            none: mut slots,
        } = shell;
        move_first(&mut self.free, &mut slots, need);
        Ok(SlotRow { slots })
    }

    /// Takes a row back on the quota `q`, at the end of the queue, and gives a shell with room for as many slots.
    pub fn give(&mut self, q: u32, row: SlotRow<D>) -> SlotShell<D>
        requires number { q < length self.old.quotas }
        requires open { IsSome (quota_of self.old q) }
        requires lent { length row ≤ lent_of self.old q }
        ensures shell { result ≡ length row }
        ensures pool { self.new ≡ with_given q row self.old }
    {
        let quota = self.quota(q);
        let room = row.slots.len() as u32;
        self.quotas[q as usize] = Some(Quota {
            free: quota.free + room,
            lent: quota.lent - room,
        });
        let mut slots = VecDeque::from_vec(row.slots);
        self.free.append(&mut slots).unwrap();
        SlotShell {
            room,
            none: slots.into_vec(),
        }
    }

    // The numbers of a quota that is open.
    #[inline]
    fn quota(&self, q: u32) -> Quota
        requires number { q < length self.now.quotas }
        requires open { IsSome (quota_of self.now q) }
        ensures { quota_of self.now q ≡ Some result }
    {
        self.quotas[q as usize].unwrap()
    }
}

// Moves that many slots from the front of the queue to the end of the list.
fn move_first<D>(queue: &mut VecDeque<D>, list: &mut Vec<D>, count: u32)
    requires enough { count ≤ deque_len queue.old }
    requires room { vec_len list.old + count ≤ vec_capacity list.old }
    ensures moved { list.new.items ≡ list.old.items ++ take count queue.old.items }
    ensures left { queue.new.items ≡ drop count queue.old.items }
    ensures list_len { vec_len list.new ≡ vec_len list.old + count }
    ensures queue_len { deque_len queue.new + count ≡ deque_len queue.old }
    ensures capacity { deque_capacity queue.new ≡ deque_capacity queue.old }
{
    for _i in 0..count {
        list.push_reserved(queue.pop_front().unwrap());
    }
}
