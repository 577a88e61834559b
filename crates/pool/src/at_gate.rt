//! Where a session's jobs may be held.
use outside::{Gate, OpenGate, Point};

/// What a session passes at the points of its jobs. It promises nothing.
pub trait Points {
    /// The session stands at this point.
    fn pass(&self, point: Point);
}

/// A gate, and as whom a session passes it.
#[derive(Clone, Copy, Drop)]
pub struct AtGate<'a, G: Gate> {
    pub(crate) gate: &'a G,
    pub(crate) who: u32,
}

impl<'a> AtGate<'a, OpenGate> {
    // The gate that lets all pass.
    pub(crate) fn open() -> AtGate<'a, OpenGate> {
        AtGate {
            gate: &OpenGate,
            who: 0,
        }
    }
}

impl<'a, G: Gate> Points for AtGate<'a, G> {
    fn pass(&self, point: Point) {
        self.gate.pass(self.who, point);
    }
}
