//! The bytes of a page.

use std::marker::Model;

/// The bytes that an unpin leaves in a page. Contracts see a list of numbers.
#[derive(Drop)]
pub struct Content {
    bytes: Vec<u8>,
}

impl Model for Content {
    ghost use Rattle.std.specs.Prelude.{ℕ, List};

    ghost Value = { List ℕ };

    ghost view = { λ content. content.bytes.items };
}

impl Content {
    ghost use Rattle.std.specs.Prelude.{◌≡◌};

    /// These bytes.
    #[inline]
    pub fn of(bytes: Vec<u8>) -> Content
        ensures { result ≡ bytes.items }
    {
        Content { bytes }
    }

    /// The bytes.
    #[inline]
    pub fn as_slice(&self) -> &[u8]
        ensures { result.now ≡ self.now }
    {
        self.bytes.as_slice()
    }
}
