//! A text: any bytes, which contracts see as a list.

ghost use Rattle.std.specs.Prelude.{◌≡◌, ℕ, List, IfOk, OnOk, ◌==◌};
ghost use Rattle.std.specs.Cmp.Lexicographic.{pointwise};
ghost use Rattle.std.specs.Cmp.Rules.{comparing};
ghost use Rattle.std.proofs.Common.{rules};

use crate::shortage::Memory;
use std::alloc::Global;
use std::marker::Model;

/// Any bytes; nothing asks that they be UTF-8.
#[derive(Debug, Drop)]
pub struct Bytes {
    items: Vec<u8>,
}

impl Model for Bytes {
    ghost Value = { List ℕ };

    ghost view = { λ text. text.items.items };
}

impl PartialEq for Bytes {
    ghost eq = { pointwise ◌==◌ };

    ghost laws = { Prim.search (comparing, rules) };

    fn eq(&self, other: &Bytes) -> bool {
        self.as_slice() == other.as_slice()
    }
}

impl Eq for Bytes {
    ghost laws = { Prim.search (comparing, rules) };
}

impl Bytes {
    /// A copy of these bytes.
    ///
    /// # Errors
    ///
    /// `Memory`: there was none for the copy.
    pub fn of(alloc: Global, bytes: &[u8]) -> Result<Bytes, Memory>
        ensures copy { IfOk result (λ text. text ≡ bytes.now) }
    {
        let items = Vec::from_slice(alloc, bytes)?;
        Ok(Bytes { items })
    }

    /// Holds these bytes in place of its own. Its memory is used again.
    ///
    /// # Errors
    ///
    /// `Memory`: there was none for the bytes. What the text holds then is left open.
    #[inline]
    pub fn refill(&mut self, bytes: &[u8]) -> Result<(), Memory>
        ensures copy { OnOk result (self.new ≡ bytes.now) }
    {
        self.items.clear();
        self.items.extend_from_slice(bytes)?;
        Ok(())
    }

    /// The vector's own memory, with no copy.
    pub fn from_vec(items: Vec<u8>) -> Bytes
        ensures moved { result ≡ items.items }
    {
        Bytes { items }
    }

    /// The memory inside, with no copy.
    pub fn into_vec(self) -> Vec<u8>
        ensures moved { result.items ≡ self }
    {
        let Bytes { items } = self;
        items
    }

    #[inline]
    pub fn as_slice(&self) -> &[u8]
        ensures value { result.now ≡ self.now }
    {
        self.items.as_slice()
    }
}
