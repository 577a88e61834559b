//! Rows handed to an emitter: what a call needs and leaves is one word each, over any store and any emitter.
ghost use Rattle.std.specs.Prelude.{[], ◌∷◌};
ghost use Rattle.store_api.specs.Handing.{MayHand, Hands, HandsThen, HandsStopped, LeavesThen};

use crate::emit::Emit;
use crate::op_err::OpErr;
use crate::store::Store;
use row_codec::Value;

/// Hands one row on.
///
/// # Errors
///
/// As for [`Emit::row`].
pub fn hand<St: Store, E: Emit<St>>(
    store: &mut St,
    emit: &mut E,
    row: &[Value],
) -> Result<(), OpErr>
    requires { MayHand St.Store E.Emit (row.now ∷ []) emit.old store.old }
    ensures { Hands St.Store E.Emit (row.now ∷ []) emit.old emit.new store.old store.new result }
{
    emit.row(store, row)
}

/// Calls in a row that hand rows on are one that hands on the rows of all; an error ends them.
#[tactic(auto, using(crate::proofs::Chained::hands_then, crate::proofs::Chained::hands_stopped))]
pub fn law_hands<St: Store, E: Emit<St>>()
    ensures then { HandsThen St.Store E.Emit }
    ensures stopped { HandsStopped St.Store E.Emit }
{}

/// Calls of a client in a row leave their store as one does.
#[tactic(auto, using(crate::proofs::Chained::leaves_then))]
pub fn law_leaves<St: Store>()
    ensures { LeavesThen St.Store }
{}
