//! Why an operator, or what takes its rows, gave up.
ghost use Rattle.std.specs.Prelude.{◌≡◌};

use reservation_tree::PoolErr;
use thiserror::Error;

/// The error of operators and emitters.
#[derive(Clone, Copy, Debug, PartialEq, Eq, Error)]
pub enum OpErr {
    /// The store refused a call so, or there was no memory.
    #[error("{0}")]
    Pool(PoolErr),
    /// Rows could not be handed on.
    #[error("rows could not be written")]
    Sink,
}

impl From<PoolErr> for OpErr {
    ghost use Rattle.store_api.specs.declared.op_err.OpErr.TheVariants as failure;

    ghost from_gives = { λ cause e. e ≡ failure.Pool cause };

    fn from(cause: PoolErr) -> OpErr {
        OpErr::Pool(cause)
    }
}
