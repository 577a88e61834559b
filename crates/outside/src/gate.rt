// Points that an actor passes, so that a test can hold it there.

mod meet;

pub use meet::MeetGate;

/// Where an actor stands in its work.
#[derive(Clone, Copy, Debug, PartialEq, Eq)]
pub enum Point {
    /// A block is about to be stored.
    BeforeStore,
    /// A block was stored, or could not be.
    AfterStore,
    /// A block is about to be loaded.
    BeforeLoad,
    /// A block was loaded, or could not be.
    AfterLoad,
    /// A query has read all its input.
    QueryRead,
    /// A query has written its whole answer.
    QueryWrote,
    /// A fragment has taken a batch.
    FragmentTook,
}

/// Something that actors pass at the points of their work. It promises nothing.
pub trait Gate: Sync {
    /// Lets `who` pass `point`: a query by its number from 0, a writer by its own from 1000, a
    /// fragment by its own from 2000.
    fn pass(&self, who: u32, point: Point);
}

/// The gate that lets all pass at once.
#[derive(Clone, Copy, Debug)]
pub struct OpenGate;

impl Gate for OpenGate {
    #[inline]
    fn pass(&self, _who: u32, _point: Point) {}
}
