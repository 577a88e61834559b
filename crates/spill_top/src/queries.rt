// A plan's queries over one pool, which gives back the slots that it takes.

ghost use Rattle.std.specs.Prelude.{◌≡◌, ◌*◌, ◌≤◌, [], IfOk, OnErr, Some, length, vec_len};
ghost use Rattle.pin_core.specs.calls.Setup.{IsOpeningOf};
ghost use Rattle.pin_core.specs.Tallies.{tally_of};
ghost use Rattle.pin_core.specs.declared.tally.Tally.{Tally};
ghost use Rattle.pool.specs.Items.{all_rights};
ghost use Rattle.pool.specs.Opening.{OpensAs};
ghost use Rattle.pool.specs.Passing.{writers_out};
ghost use Rattle.pool.specs.Seats.{live_in};
ghost use Rattle.query_plan.specs.Rules.{KeepsRules};
ghost use Rattle.spill_top.specs.Pooled.{ComeBack, all_tell};
ghost use Rattle.spill_top.specs.Reserving.{refusals_of};
ghost use Rattle.spill_top.specs.Running.{AreApart, HaveEnded, Went, seen};
ghost use Rattle.spill_top.specs.Storing.{HaveStored, all_owed};
ghost use Rattle.spill_top.specs.Together.{RanTogether};

use crate::ending::Ending;
use crate::job::endings;
use crate::run::{answer_beside, close_all, create_all, finish_all, open_all};
use crate::seats::{asks_of, end_all, seat_all};
use crate::writers::{begin_writers, end_writers};
use outside::{Gate, Inputs, Outputs, Slot};
use pin_core::PoolConf;
use pool::{Opened, Pass, Pool};
use query_plan::Plan;
use query_run::law_spill;
use row_codec::Memory;
use session_shares::law_shares;
use std::alloc::Global;
use std::marker::Brand;
use std::mem;
use std::sync::Wait;
use std::thread::Threads;
use std::time::Clock;

// Runs the queries of a plan over one pool of these slots, and tells how each ended. All slots are there again afterwards,
// whatever the answer.
pub(crate) fn run_queries<
    W: Wait + Threads + Clock + Sync,
    I: Inputs,
    O: Outputs,
    D: Slot + Drop + Send,
    G: Gate,
>(
    rt: &W,
    alloc: Global,
    plan: &Plan,
    inputs: &mut I,
    outputs: &mut O,
    slots: &mut Vec<D>,
    gate: &G,
) -> Result<Vec<Ending>, Memory>
    requires rules { KeepsRules (vec_len slots.old) plan.now }
    requires few { vec_len slots.old ≤ 1048576 }
    requires apart { AreApart plan.now.queries }
    ensures len { IfOk result (λ ends. vec_len ends ≡ length plan.now.queries) }
    ensures ended { IfOk result (λ ends. HaveEnded (seen (I.bytes_at inputs.old) (I.faults_at inputs.old) (O.written outputs.old) (O.is_created outputs.old) (O.faults_at outputs.old) (tally_of D.Slot slots.old.items))
        (seen (I.bytes_at inputs.new) (I.faults_at inputs.new) (O.written outputs.new) (O.is_created outputs.new) (O.faults_at outputs.new) (tally_of D.Slot slots.new.items)) plan.now.block_len (refusals_of plan.now) plan.now.queries ends.items) }
    ensures stored { IfOk result (λ ends. HaveStored plan.now.block_len (all_owed (plan.now.blocks * plan.now.block_len) (I.bytes_at inputs.old) plan.now.queries ends.items) (tally_of D.Slot slots.old.items) (tally_of D.Slot slots.new.items)) }
    ensures err { OnErr result (outputs.new ≡ outputs.old) }
    ensures went { Went (seen (I.bytes_at inputs.old) (I.faults_at inputs.old) (O.written outputs.old) (O.is_created outputs.old) (O.faults_at outputs.old) (tally_of D.Slot slots.old.items))
        (seen (I.bytes_at inputs.new) (I.faults_at inputs.new) (O.written outputs.new) (O.is_created outputs.new) (O.faults_at outputs.new) (tally_of D.Slot slots.new.items)) }
{
    run_shared::<W, I, O, D, Brand, G>(rt, alloc, plan, inputs, outputs, slots, gate)
}

// The same, where `T` names with what the pool opens, for contracts alone.
fn run_shared<
    W: Wait + Threads + Clock + Sync,
    I: Inputs,
    O: Outputs,
    D: Slot + Drop + Send,
    T: Opened + Send,
    G: Gate,
>(
    rt: &W,
    alloc: Global,
    plan: &Plan,
    inputs: &mut I,
    outputs: &mut O,
    slots: &mut Vec<D>,
    gate: &G,
) -> Result<Vec<Ending>, Memory>
    requires rules { KeepsRules (vec_len slots.old) plan.now }
    requires few { vec_len slots.old ≤ 1048576 }
    requires apart { AreApart plan.now.queries }
    requires opens { OpensAs D.Slot (record { blocks = plan.now.blocks; block_len = plan.now.block_len; first_name = 0; profile = 1; trace = 0 }) slots.old.items T.opening T.outset.told T.first }
    requires told { T.outset.told ≡ all_tell (tally_of D.Slot slots.old.items) }
    requires first { T.first ≡ tally_of D.Slot slots.old.items }
    ensures len { IfOk result (λ ends. vec_len ends ≡ length plan.now.queries) }
    ensures ended { IfOk result (λ ends. HaveEnded (seen (I.bytes_at inputs.old) (I.faults_at inputs.old) (O.written outputs.old) (O.is_created outputs.old) (O.faults_at outputs.old) (tally_of D.Slot slots.old.items))
        (seen (I.bytes_at inputs.new) (I.faults_at inputs.new) (O.written outputs.new) (O.is_created outputs.new) (O.faults_at outputs.new) (tally_of D.Slot slots.new.items)) plan.now.block_len (refusals_of plan.now) plan.now.queries ends.items) }
    ensures stored { IfOk result (λ ends. HaveStored plan.now.block_len (all_owed (plan.now.blocks * plan.now.block_len) (I.bytes_at inputs.old) plan.now.queries ends.items) (tally_of D.Slot slots.old.items) (tally_of D.Slot slots.new.items)) }
    ensures err { OnErr result (outputs.new ≡ outputs.old) }
    ensures went { Went (seen (I.bytes_at inputs.old) (I.faults_at inputs.old) (O.written outputs.old) (O.is_created outputs.old) (O.faults_at outputs.old) (tally_of D.Slot slots.old.items))
        (seen (I.bytes_at inputs.new) (I.faults_at inputs.new) (O.written outputs.new) (O.is_created outputs.new) (O.faults_at outputs.new) (tally_of D.Slot slots.new.items)) }
{
    let conf = PoolConf {
        blocks: plan.blocks,
        block_len: plan.block_len,
        first_name: 0,
        profile: 1,
        trace: 0,
    };
    let taken = mem::replace(slots, Vec::new(alloc));
    let (pool, mut pass) = match Pool::<D, T>::open(alloc, &conf, taken) {
        Ok(opened) => opened,
        Err((back, _)) => {
            *slots = back;
            return Err(Memory);
        }
    };
    let ends = run_together::<W, I, O, D, T, Brand, G>(
        rt, alloc, &pool, &mut pass, plan, inputs, outputs, gate,
    );
    *slots = pool.close(pass);
    law_spill();
    law_shares();
    ends
}

// Runs the queries over sessions of a pool in which no other is, all of which come before anything is done for a query. `N`
// names the pool's lock, for contracts alone.
fn run_together<
    'a,
    W: Wait + Threads + Clock + Sync,
    I: Inputs,
    O: Outputs,
    D: Slot + Drop + Send,
    T: Opened + Send,
    N: Opened + Send,
    G: Gate,
>(
    rt: &'a W,
    alloc: Global,
    pool: &'a Pool<D, T>,
    pass: &mut Pass<D, T>,
    plan: &Plan,
    inputs: &mut I,
    outputs: &mut O,
    gate: &'a G,
) -> Result<Vec<Ending>, Memory>
    requires rules { KeepsRules T.opening.slots plan.now }
    requires apart { AreApart plan.now.queries }
    requires opening { IsOpeningOf (record { blocks = plan.now.blocks; block_len = plan.now.block_len; first_name = 0; profile = 1; trace = 0 }) T.opening.slots T.opening }
    requires named { N.table ≡ Some pool.now }
    requires table { pass.old.table ≡ pool.now }
    requires fresh { (pass.old.knows.seen ≡ []) × (pass.old.knows.rights ≡ all_rights) × (writers_out pass.old ≡ 0) }
    ensures table { pass.new.table ≡ pool.now }
    ensures gone { (live_in pass.new.knows.seen ≡ 0) × (writers_out pass.new ≡ 0) }
    ensures len { IfOk result (λ ends. vec_len ends ≡ length plan.now.queries) }
    ensures ran { IfOk result (λ ends. RanTogether T.opening T.outset.told (refusals_of plan.now) (seen (I.bytes_at inputs.old) (I.faults_at inputs.old) (O.written outputs.old) (O.is_created outputs.old) (O.faults_at outputs.old) T.first)
        (seen (I.bytes_at inputs.new) (I.faults_at inputs.new) (O.written outputs.new) (O.is_created outputs.new) (O.faults_at outputs.new) T.first) plan.now.queries pass.new ends.items) }
    ensures err { OnErr result (outputs.new ≡ outputs.old) }
    ensures went { (last : Tally) → ComeBack T.first last → Went (seen (I.bytes_at inputs.old) (I.faults_at inputs.old) (O.written outputs.old) (O.is_created outputs.old) (O.faults_at outputs.old) T.first)
        (seen (I.bytes_at inputs.new) (I.faults_at inputs.new) (O.written outputs.new) (O.is_created outputs.new) (O.faults_at outputs.new) last) }
{
    let queries = plan.queries.as_slice();
    let ends = Vec::with_capacity(alloc, queries.len())?;
    let asks = asks_of(alloc, queries, plan.block_len)?;
    // Jobs and writers can't be let go, so that their lists come last.
    let jobs = Vec::with_capacity(alloc, queries.len())?;
    let Ok(writers) = Vec::with_capacity(alloc, plan.writers as usize) else {
        jobs.destroy_empty();
        return Err(Memory);
    };
    let mut writers = begin_writers(rt, pool, pass, plan.writers, writers);
    pass.law_pass();
    let Ok(answers) = pool.sessions::<W, N>(alloc, rt, pass, asks.as_slice()) else {
        jobs.destroy_empty();
        end_writers(writers, pass);
        return Err(Memory);
    };
    pass.law_pass();
    let mut jobs = seat_all(answers, jobs, gate);
    create_all(queries, &mut jobs, outputs);
    open_all(queries, &mut jobs, inputs);
    answer_beside(
        rt,
        alloc,
        queries,
        jobs.as_mut_slice(),
        writers.as_mut_slice(),
        pool,
        pass,
        gate,
    );
    end_writers(writers, pass);
    pass.law_pass();
    close_all(queries, &mut jobs, inputs);
    finish_all(queries, &mut jobs, outputs);
    let ends = endings(jobs.as_slice(), ends);
    end_all(jobs, pass);
    Ok(ends)
}
