//! Pages and loans come, once there is room.
ghost use Rattle.std.specs.Prelude.{◌≡◌, ◌<◌, [], ◌∷◌, ◌++◌, None, true, IfErr, IfOk, OnErr, OnOk};
ghost use Rattle.std.specs.FinMap.{get};
ghost use Rattle.reservation_tree.specs.declared.errors.PoolErr.TheVariants as refusal;
ghost use Rattle.pool_model.specs.declared.event.Event.TheVariants as event;
ghost use Rattle.pool_model.specs.Bytes.{bytes_of};
ghost use Rattle.pool_model.specs.Sums.{HasRoom};
ghost use Rattle.pin_core.specs.StateOf.{state_of};
ghost use Rattle.pin_core.specs.calls.Coming.{CanHold, zeros};
ghost use Rattle.pin_core.specs.calls.Evictions.{MakesRoom, names_gone};
ghost use Rattle.store_api.specs.Holdings.{length_of};
ghost use Rattle.store_api.specs.Conditions.{IsBlockCount, IsLiveClient};
ghost use Rattle.session_calls.specs.Needing.{EntersNeeded};
ghost use Rattle.session_calls.specs.Coming.{Evicts, IsFreshLoan};
ghost use Rattle.session_calls.specs.Ready.{IsReady};
ghost use Rattle.session_calls.specs.Acting.{Acts, Goes, held_by, signs_by};
ghost use Rattle.session_calls.specs.Coming.{IsFreshPage, evicts_for};

use crate::entering::{enter, enter_evicted};
use crate::hand::Hand;
use crate::opened::Opened;
use block_arena::{Buf, Shell};
use outside::Slot;
use pool_model::Event;
use reservation_tree::{PoolErr, TrackerId};
use scratch_dev::SlotShell;
use store_api::{Client, Loan, Page};

impl<D: Slot + Drop> Hand<D> {
    /// There is room for the page, so it comes, unless no name is left. Clean pages make room for its blocks.
    pub fn create<O: Opened>(
        &mut self,
        c: &Client,
        shell: Shell,
        slots: SlotShell<D>,
    ) -> Result<(Page, Buf), PoolErr>
        requires ready { IsReady D.Slot O.opening O.outset self.old }
        requires client { IsLiveClient c.now (held_by O.opening O.outset self.old) }
        requires blocks { IsBlockCount shell }
        requires slots { slots ≡ shell }
        requires room { HasRoom (state_of self.old.state) c.now.tracker (length_of shell (held_by O.opening O.outset self.old)) }
        ensures ok { IfOk result (λ made. Acts (Evicts (event.Create made.0.name c.now.tracker shell made.0.key ∷ [])) self.old self.new) }
        ensures page { IfOk result (λ made. IsFreshPage c.now.tracker shell made (held_by O.opening O.outset self.old) (signs_by O.opening self.old)) }
        ensures cause { IfErr result (λ e. e ≡ refusal.NamesSpent) }
        ensures err { OnErr result ((self.new ≡ self.old) × ((signs_by O.opening self.old).spent ≡ true)) }
        ensures needed { EntersNeeded c.now.tracker (length_of shell (held_by O.opening O.outset self.old)) self.old self.new }
        ensures ready { IsReady D.Slot O.opening O.outset self.new }
    {
        bring_page(self, c.tracker(), shell, slots)
    }

    /// There is room for the loan, so it comes. Clean pages make room for its blocks.
    pub fn alloc<O: Opened>(&mut self, c: &Client, shell: Shell) -> Loan
        requires ready { IsReady D.Slot O.opening O.outset self.old }
        requires client { IsLiveClient c.now (held_by O.opening O.outset self.old) }
        requires blocks { IsBlockCount shell }
        requires room { HasRoom (state_of self.old.state) c.now.tracker (length_of shell (held_by O.opening O.outset self.old)) }
        ensures acts { Acts (Evicts (event.Alloc result.number c.now.tracker shell ∷ [])) self.old self.new }
        ensures loan { IsFreshLoan c.now.tracker shell result (held_by O.opening O.outset self.old) }
        ensures needed { EntersNeeded c.now.tracker (length_of shell (held_by O.opening O.outset self.old)) self.old self.new }
        ensures ready { IsReady D.Slot O.opening O.outset self.new }
    {
        bring_loan(self, c.tracker(), shell)
    }
}

// A page comes behind the clean pages that go.
fn bring_page<D: Slot + Drop>(
    hand: &mut Hand<D>,
    client: TrackerId,
    shell: Shell,
    slots: SlotShell<D>,
) -> Result<(Page, Buf), PoolErr>
    requires can { CanHold (state_of hand.old.state) (record { session = hand.old.session; tracker = client }) shell }
    requires slots { slots ≡ shell }
    ensures goes { IfOk result (λ made. Goes D.Slot (evicts_for shell hand.old ++ event.Create made.0.name client shell made.0.key ∷ []) hand.old hand.new) }
    ensures room { OnOk result (MakesRoom (state_of hand.old.state) (bytes_of (state_of hand.old.state).block_len shell) (names_gone shell hand.old.state)) }
    ensures page { IfOk result (λ made. made.0 ≡ record { name = (state_of hand.old.state).next_name; key = made.0.key; client = client }) }
    ensures buffer { IfOk result (λ made. made.1 ≡ zeros shell (state_of hand.old.state).block_len) }
    ensures left { IfOk result (λ made. made.0.name < 18446744073709551615) }
    ensures err { IfErr result (λ e. (e ≡ refusal.NamesSpent) × (hand.new ≡ hand.old) × ((state_of hand.old.state).next_name ≡ 18446744073709551615)) }
{
    let blocks = shell.room();
    let mine = Client::of(hand.session, client);
    let made = hand.state.create_now(&mine, shell, slots, &mut hand.gone);
    mine.into_tracker();
    let Ok((page, buf)) = made else {
        return Err(PoolErr::NamesSpent);
    };
    enter_evicted(&mut hand.trail, hand.session, &hand.gone);
    enter(
        &mut hand.trail,
        hand.session,
        Event::Create {
            page: page.name(),
            client,
            blocks,
            key: page.key(),
        },
    );
    Ok((page, buf))
}

// The same of a loan.
fn bring_loan<D: Slot + Drop>(hand: &mut Hand<D>, client: TrackerId, shell: Shell) -> Loan
    requires can { CanHold (state_of hand.old.state) (record { session = hand.old.session; tracker = client }) shell }
    ensures goes { Goes D.Slot (evicts_for shell hand.old ++ event.Alloc result.number client shell ∷ []) hand.old hand.new }
    ensures room { MakesRoom (state_of hand.old.state) (bytes_of (state_of hand.old.state).block_len shell) (names_gone shell hand.old.state) }
    ensures fresh { get (state_of hand.old.state).buffers result.number ≡ None }
    ensures loan { result ≡ record { number = result.number; client = client; buf = zeros shell (state_of hand.old.state).block_len } }
{
    let blocks = shell.room();
    let mine = Client::of(hand.session, client);
    let loan = hand.state.alloc_now(&mine, shell, &mut hand.gone);
    mine.into_tracker();
    enter_evicted(&mut hand.trail, hand.session, &hand.gone);
    enter(
        &mut hand.trail,
        hand.session,
        Event::Alloc {
            buffer: loan.number(),
            client,
            blocks,
        },
    );
    loan
}
