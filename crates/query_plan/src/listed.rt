//! A list: contracts see the list of its members.

ghost use Rattle.std.specs.Prelude.{◌≡◌, []};

use std::alloc::Global;
use std::marker::Model;

/// Members in their order.
#[derive(Debug, Drop)]
pub struct Listed<T> {
    items: Vec<T>,
}

impl<T> Model for Listed<T> {
    ghost use Rattle.std.specs.Prelude.{List};

    ghost Value = { List T };

    ghost view = { λ list. list.items.items };
}

impl<T> Listed<T> {
    /// No member.
    pub fn empty(alloc: Global) -> Listed<T>
        ensures none { result ≡ [] }
    {
        Listed {
            items: Vec::new(alloc),
        }
    }

    /// The vector's own memory, with no copy.
    pub fn from_vec(items: Vec<T>) -> Listed<T>
        ensures moved { result ≡ items.items }
    {
        Listed { items }
    }

    #[inline]
    pub fn as_slice(&self) -> &[T]
        ensures value { result.now ≡ self.now }
    {
        self.items.as_slice()
    }
}
