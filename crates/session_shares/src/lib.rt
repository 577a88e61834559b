//! What each session of a pool did by its own entries, and what all of them did together.
//!
//! A session that fills pages and neither pins one again nor ends one leaves bytes in them. What of these isn't stored
//! waits in memory to be written, and that fits what the session's clients have reserved. What is stored of the pages of
//! several sessions, and the pages that they make, are parts of what the whole history tells.
#![tactic(auto)]

#[cfg(test)]
mod tests;

ghost use Rattle.session_shares.specs.Shares.{LaidIsStored, NamesFit, PartsFit};

/// Laws of every legal history: of what a session laid on pages all was stored but for what fits its limit and all memory;
/// what was stored of several sessions' pages is no more than all that was stored; and all pages were made by sessions.
pub fn law_shares()
    ensures stored { LaidIsStored }
    ensures parts { PartsFit }
    ensures names { NamesFit }
{}
