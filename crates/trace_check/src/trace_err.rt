//! Why a text is no legal trace.

use std::alloc::AllocError;
use thiserror::Error;

/// Why a text is refused.
#[derive(Clone, Copy, Debug, PartialEq, Eq, Error)]
pub enum TraceErr {
    /// It has more bytes than a trace may have.
    #[error("the text is too large")]
    Large,
    /// This line, counted from 1, isn't one of a trace.
    #[error("line {line} is no line of a trace")]
    Syntax { line: u64 },
    /// This entry, counted from 0, can't follow those before it.
    #[error("entry {entry} can't follow")]
    Illegal { entry: u64 },
    /// No memory was left.
    #[error("out of memory")]
    Memory,
}

impl From<AllocError> for TraceErr {
    ghost use Rattle.std.specs.Prelude.{◌≡◌};
    ghost use Rattle.trace_check.specs.declared.trace_err.TraceErr.TheVariants as why;

    ghost from_gives = { λ _ e. e ≡ why.Memory };

    fn from(_failure: AllocError) -> TraceErr {
        TraceErr::Memory
    }
}
