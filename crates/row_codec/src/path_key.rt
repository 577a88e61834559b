//! A key that is kept in the order by path.

ghost use Rattle.std.specs.Prelude.{◌≡◌, ℕ, List, ◌==◌, IfOk, OnOk, OnErr};
ghost use Rattle.std.specs.Cmp.Lexicographic.{pointwise};
ghost use Rattle.std.specs.Cmp.{partial_order_from_own_ties};
ghost use Rattle.std.specs.Cmp.Rules.{comparing};
ghost use Rattle.std.specs.Ordering.{as_partial_cmp};
ghost use Rattle.std.proofs.Common.{rules};
ghost use Rattle.row_codec.specs.KeyInside.{path_number};
ghost use Rattle.row_codec.specs.Order.{path_order};

use crate::order::path_number;
use crate::shortage::Memory;
use std::alloc::Global;
use std::cmp::Ordering;
use std::marker::Model;

/// The bytes of a key, ready to be compared by path: one comparison of numbers mostly decides.
#[derive(Debug, Drop)]
pub struct PathKey {
    path: u64,
    bytes: Vec<u8>,
}

impl Model for PathKey {
    ghost Value = { List ℕ };

    ghost view = { λ key. key.bytes.items };

    ghost invariant = { λ key. key.path ≡ path_number key.bytes.items };
}

impl PathKey {
    /// A key of a copy of these bytes.
    ///
    /// # Errors
    ///
    /// `Memory`: there was none for the copy.
    pub fn of(alloc: Global, bytes: &[u8]) -> Result<PathKey, Memory>
        ensures copy { IfOk result (λ key. key ≡ bytes.now) }
    {
        Ok(PathKey::from_vec(Vec::from_slice(alloc, bytes)?))
    }

    /// A key in the vector's own memory, with no copy.
    #[inline]
    pub fn from_vec(bytes: Vec<u8>) -> PathKey
        ensures moved { result ≡ bytes.items }
    {
        PathKey {
            path: path_number(&bytes),
            bytes,
        }
    }

    /// The memory inside, with no copy.
    #[inline]
    pub fn into_vec(self) -> Vec<u8>
        ensures moved { result.items ≡ self }
    {
        let PathKey { path: _, bytes } = self;
        bytes
    }

    /// Takes other bytes, in the memory that is there where they fit.
    ///
    /// # Errors
    ///
    /// `Memory`: there was none for the bytes. The key stays as it was.
    pub fn set(&mut self, bytes: &[u8]) -> Result<(), Memory>
        ensures ok { OnOk result (self.new ≡ bytes.now) }
        ensures err { OnErr result (self.new ≡ self.old) }
    {
        let missing = bytes.len().saturating_sub(self.bytes.len());
        self.bytes.reserve(missing)?;
        self.bytes.clear();
        self.bytes.extend_from_slice(bytes).unwrap();
        self.path = path_number(bytes);
        Ok(())
    }

    /// The same key again, with no second hash.
    ///
    /// # Errors
    ///
    /// `Memory`: there was none for the copy.
    pub fn copy(&self, alloc: Global) -> Result<PathKey, Memory>
        ensures copy { IfOk result (λ key. key ≡ self.now) }
    {
        Ok(PathKey {
            path: self.path,
            bytes: Vec::from_slice(alloc, &self.bytes)?,
        })
    }

    #[inline]
    pub fn as_slice(&self) -> &[u8]
        ensures value { result.now ≡ self.now }
    {
        self.bytes.as_slice()
    }
}

impl PartialEq for PathKey {
    ghost eq = { pointwise ◌==◌ };

    ghost laws = { Prim.search (comparing, rules) };

    #[inline]
    fn eq(&self, other: &PathKey) -> bool {
        self.bytes.as_slice() == other.bytes.as_slice()
    }
}

impl Eq for PathKey {
    ghost laws = { Prim.search (comparing, rules) };
}

impl PartialOrd for PathKey {
    ghost partial_cmp = { as_partial_cmp path_order };

    ghost laws = { partial_order_from_own_ties (Prim.search (comparing, rules)) (Prim.search (comparing, rules)) };

    #[inline]
    fn partial_cmp(&self, other: &PathKey) -> Option<Ordering> {
        Some(self.cmp(other))
    }
}

impl Ord for PathKey {
    ghost cmp = { path_order };

    ghost total = { Prim.search (comparing, rules) };

    ghost matches_partial_cmp = { Prim.search (comparing, rules) };

    ghost matches_eq = { Prim.search (comparing, rules) };

    #[inline]
    #[tactic(auto, using(crate::proofs::PathNumber::path_number_order))]
    fn cmp(&self, other: &PathKey) -> Ordering {
        // Bytes are looked at only where the paths are one.
        match self.path.cmp(&other.path) {
            Ordering::Equal => self.bytes.as_slice().cmp(other.bytes.as_slice()),
            apart => apart,
        }
    }
}
