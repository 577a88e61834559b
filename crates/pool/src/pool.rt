//! A pool that sessions share.
ghost use Rattle.std.specs.Prelude.{◌≡◌, ◌≤◌, ◌+◌, ℕ, [], None, IfErr, IfOk, OnErr, map, vec_len};
ghost use Rattle.std.specs.List.{All, sum_by};
ghost use Rattle.std.specs.Option.{ForSome};
ghost use Rattle.pin_core.specs.calls.Setup.{OpensWith};
ghost use Rattle.pool.specs.Items.{all_rights};
ghost use Rattle.pool.specs.Opening.{ClosesTraced, ClosesWith, OpensAs};
ghost use Rattle.pool.specs.Passing.{writers_out};
ghost use Rattle.pool.specs.Seats.{live_in, taken_in};
ghost use Rattle.pool.specs.Seating.{Begins, TurnsAway};
ghost use Rattle.pool.specs.Remaining.{all_left, quotas_of, refusal_of, refusals};
ghost use Rattle.pool.specs.Asking.{Admits, answer_of, refusal_in};

use crate::accounts::ClientAccounts;
use crate::ask::Ask;
use crate::at_gate::AtGate;
use crate::named::Named;
use crate::pass::Pass;
use crate::rooms::{close_rooms, most_of, open_rooms, open_slates};
use crate::seating::seat_session;
use crate::session::Session;
use crate::shared::Shared;
use crate::together::seat_sessions;
use outside::Slot;
use pin_core::{EvictedPages, PoolConf, PoolState};
use pool_model::law_traces;
use reservation_tree::{Memory, PoolErr};
use session_calls::{Log, Opened, Trace, count_opening};
use std::alloc::Global;
use std::marker::{Brand, Model, PhantomData};
use std::sync::Wait;
use turn_table::{Solo, Turns};

/// A pool that sessions share, one turn after the other. `T` names with what it opened.
///
/// Contracts see which turn lock it is. It can't be let go: it ends by `close`.
pub struct Pool<D: Slot, T: Opened = Brand> {
    pub(crate) turns: Turns<Shared<D, T>>,
    pub(crate) blocks: u32,
    pub(crate) block_len: u32,
    pub(crate) first_name: u64,
}

impl<D: Slot, T: Opened> Model for Pool<D, T> {
    ghost use Rattle.std.specs.Prelude.{◌≡◌};
    ghost use Rattle.atomic_table.specs.Seated.{TableId};
    ghost use Rattle.block_arena.specs.Blocks.{IsBlockLen};

    ghost Value = { TableId };

    ghost view = { λ p. p.turns };

    ghost invariant = { λ p. IsBlockLen p.block_len × (p.block_len ≡ T.opening.block_len) × (p.blocks ≡ T.opening.blocks) × (p.first_name ≡ T.opening.first_name) };
}

impl<D: Slot + Drop, T: Opened> Pool<D, T> {
    /// A pool with these numbers and slots, without sessions, and its pass. Takes all the memory that it will ever
    /// use, but for what sessions bring.
    ///
    /// # Errors
    ///
    /// `Memory`: there was not so much. The slots come back.
    pub fn open(
        alloc: Global,
        conf: &PoolConf,
        slots: Vec<D>,
    ) -> Result<(Pool<D, T>, Pass<D, T>), (Vec<D>, Memory)>
        requires conf { OpensWith conf.now }
        requires slots { vec_len slots ≤ 1048576 }
        requires opens { OpensAs D.Slot conf.now slots.items T.opening T.outset.told T.first }
        ensures table { IfOk result (λ p. p.1.table ≡ p.0) }
        ensures seen { IfOk result (λ p. p.1.knows.seen ≡ []) }
        ensures writers { IfOk result (λ p. (p.1.knows.rights ≡ all_rights) × (writers_out p.1 ≡ 0)) }
        ensures back { IfErr result (λ e. (measure : D → ℕ) → sum_by measure e.0.items ≡ sum_by measure slots.items) }
    {
        let spare = slots.len() as u32;
        let Ok(trail) = Log::open(alloc, conf.trace) else {
            return Err((slots, Memory));
        };
        let Ok(mut counts) = Solo::open(alloc) else {
            return Err((slots, Memory));
        };
        let Ok(gone) = EvictedPages::open(alloc) else {
            return Err((slots, Memory));
        };
        count_opening(&mut counts, slots.as_slice());
        let state = match PoolState::open(alloc, conf, slots) {
            Ok(state) => state,
            Err((slots, _)) => return Err((slots, Memory)),
        };
        let shared = Shared {
            state,
            trail,
            counts,
            gone,
            stopped: false,
            first: PhantomData,
        };
        match Turns::with(alloc, shared) {
            Ok((turns, seat)) => {
                let pool = Pool {
                    turns,
                    blocks: conf.blocks,
                    block_len: conf.block_len,
                    first_name: conf.first_name,
                };
                Ok((pool, Pass { seat, spare }))
            }
            Err((shared, _)) => Err((shared.state.close(), Memory)),
        }
    }

    /// Lets a session in, which may reserve up to `limit` bytes and has `least` of them, and whose pages may take
    /// `quota` slots.
    ///
    /// # Errors
    ///
    /// `TooManyTrackers`: each of 240 numbers has a session, which is looked at first. `NoReservation`: `least` passes
    /// the limit, or the root would have to grow by more than it may. `Memory`: there was none for the accounts of its
    /// clients, which is looked at last.
    pub fn session<'a, R: Wait, N: Opened>(
        &'a self,
        alloc: Global,
        rt: &'a R,
        pass: &mut Pass<D, T>,
        limit: u64,
        quota: u32,
        least: u64,
    ) -> Result<Session<'a, D, R, T, N>, PoolErr>
        requires named { ForSome N.table (λ table. self.now ≡ table) }
        requires table { pass.old.table ≡ self.now }
        requires spare { quota + taken_in pass.old.knows.seen ≤ T.opening.slots }
        ensures ok { IfOk result (λ s. Begins T.opening T.outset.told limit quota least pass.old pass.new s.seat) }
        ensures err { IfErr result (λ e. TurnsAway T.opening limit least pass.old pass.new e) }
        ensures fresh { live_in pass.old.knows.seen ≡ 0 → refusal_of (record { limit = limit; quota = quota; least = least; count = 1 }) (all_left T.opening) ≡ None → IfErr result (λ e. e ≡ PoolErr.Memory) }
    {
        let accounts = ClientAccounts::open(alloc);
        let seat = seat_session(
            rt,
            &self.turns,
            pass,
            limit,
            quota,
            least,
            self.block_len,
            accounts,
        )?;
        seat.law_whole();
        Ok(Session {
            rt,
            turns: &self.turns,
            at: AtGate::open(),
            seat,
            named: Named { names: PhantomData },
        })
    }

    /// Lets sessions in, all in one turn: each ask is answered after those before it. It gets all of its sessions, or
    /// none and why the first of them is refused that is.
    ///
    /// Where no session was live, the refusals are told by the asks and the pool's size alone.
    ///
    /// # Errors
    ///
    /// `Memory`: there was not so much for the sessions that are asked for. Then nothing is asked.
    pub fn sessions<'a, R: Wait, N: Opened>(
        &'a self,
        alloc: Global,
        rt: &'a R,
        pass: &mut Pass<D, T>,
        asks: &[Ask],
    ) -> Result<Vec<Result<Vec<Session<'a, D, R, T, N>>, PoolErr>>, Memory>
        requires named { ForSome N.table (λ table. self.now ≡ table) }
        requires table { pass.old.table ≡ self.now }
        requires some { All (λ ask. 1 ≤ ask.count) asks.now }
        requires spare { quotas_of asks.now + taken_in pass.old.knows.seen ≤ T.opening.slots }
        ensures ok { IfOk result (λ answers. Admits T.opening T.outset.told asks.now pass.old pass.new (map (answer_of (λ v. v.items) (λ s. s.seat)) answers.items)) }
        ensures fresh { live_in pass.old.knows.seen ≡ 0 → IfOk result (λ answers. map refusal_in (map (answer_of (λ v. v.items) (λ s. s.seat)) answers.items) ≡ refusals asks.now (all_left T.opening)) }
        ensures err { OnErr result (pass.new ≡ pass.old) }
    {
        let most = most_of(asks);
        let slates = open_slates(alloc, asks.len(), most)?;
        let numbers = Vec::with_capacity(alloc, asks.len())?;
        let rooms = open_rooms(alloc, asks.len(), most)?;
        let Ok(answers) = Vec::with_capacity(alloc, asks.len()) else {
            close_rooms(rooms);
            return Err(Memory);
        };
        Ok(seat_sessions(
            rt,
            &self.turns,
            pass,
            self.block_len,
            asks,
            slates,
            numbers,
            rooms,
            answers,
        ))
    }

    /// Ends a pool whose sessions and writers have all ended into its pass, and gives back its slots.
    pub fn close(self, pass: Pass<D, T>) -> Vec<D>
        requires table { pass.table ≡ self }
        requires none { live_in pass.knows.seen ≡ 0 }
        requires no_writer { writers_out pass ≡ 0 }
        ensures { ClosesWith D.Slot T.opening T.outset.told T.first pass result.items }
    {
        let Pool {
            turns,
            blocks: _,
            block_len: _,
            first_name: _,
        } = self;
        let Pass { seat, spare: _ } = pass;
        turns.close(seat).state.close()
    }

    /// The same, with the first entries of the pool's history, as many as it was opened to keep, and whether there were
    /// more; and with the numbers with which it opened. How many entries it was opened to keep, contracts don't tell.
    pub fn close_traced(self, pass: Pass<D, T>) -> (Vec<D>, Trace)
        requires table { pass.table ≡ self }
        requires none { live_in pass.knows.seen ≡ 0 }
        requires no_writer { writers_out pass ≡ 0 }
        ensures { ClosesTraced D.Slot T.opening T.outset.told T.first pass result.0.items result.1 }
    {
        let Pool {
            turns,
            blocks,
            block_len,
            first_name,
        } = self;
        let Pass { seat, spare: _ } = pass;
        let Shared {
            state,
            trail,
            counts: _,
            gone: _,
            stopped: _,
            first: _,
        } = turns.close(seat);
        law_traces();
        let trace = trail.into_trace(blocks, block_len, first_name);
        (state.close(), trace)
    }
}
