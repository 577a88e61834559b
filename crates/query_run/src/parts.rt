// A text that is written a part at a time.

ghost use Rattle.std.specs.Prelude.{Option, ◌≡◌, ◌≢◌, ◌≤◌, ℕ, List, [], ◌++◌, IfErr, IfOk, IsErrOf, OnErr, OnOk};
ghost use Rattle.std.specs.Io.KnownBytes.{Appends};
ghost use Rattle.outside.specs.Counts.{Rose};
ghost use Rattle.outside.specs.Sinks.{EndsAt, StopsAt};
ghost use Rattle.row_codec.specs.declared.values.Value.{Value};
ghost use Rattle.csv_edge.specs.Lines.{line_of};
ghost use Rattle.query_run.specs.Parts.{FrontOf, HasSent, StopsWriting};

use csv_edge::{Lines, write_whole};
use outside::{Failed, Sink};
use query_plan::QueryErr;
use row_codec::{Memory, Value};
use std::alloc::Global;
use std::mem;

// The most bytes of a part, unless one line has more.
const PART: usize = 65536;

// The most bytes beside a text in its line, or of a number: quotes, a comma, the digits and a newline.
const BESIDE: usize = 48;

// The lines that are not written yet, and no fewer bytes than they have.
#[derive(Drop)]
pub(crate) struct Part {
    pub(crate) lines: Lines,
    bytes: usize,
}

impl Part {
    // The line of this row waits.
    pub(crate) fn with(alloc: Global, row: &[Value]) -> Result<Part, Memory>
        ensures { IfOk result (λ part. part.lines ≡ line_of row.now) }
    {
        let mut lines = Lines::new(alloc);
        lines.push(row)?;
        Ok(Part {
            lines,
            bytes: room_of(row),
        })
    }

    // Adds the line of a row. Where it does not fit the part, the part is written before.
    pub(crate) fn push<K: Sink>(
        &mut self,
        alloc: Global,
        row: &[Value],
        sink: &mut K,
    ) -> Result<(), QueryErr>
        ensures ok { OnOk result ((start : Option (List ℕ)) (text : List ℕ) → HasSent start (K.contents sink.old) self.old.lines text → HasSent start (K.contents sink.new) self.new.lines (text ++ line_of row.now)) }
        ensures front { OnErr result (FrontOf (K.contents sink.old) (K.contents sink.new) self.old.lines) }
        ensures cause { IfErr result StopsWriting }
        ensures fault { IsErrOf result QueryErr.SinkFault → Rose (K.faults sink.old) (K.faults sink.new) }
        ensures unbroken { OnOk result (K.at_failure sink.new ≡ K.at_failure sink.old) }
        ensures stops { IfErr result (λ e. StopsAt (e ≡ QueryErr.SinkFault) (K.at_failure sink.old) (K.at_failure sink.new) (K.contents sink.new)) }
        ensures quiet { OnOk result (K.faults sink.new ≡ K.faults sink.old) }
        ensures quiet_stop { IfErr result (λ e. e ≢ QueryErr.SinkFault → K.faults sink.new ≡ K.faults sink.old) }
        ensures never_falls { K.faults sink.old ≤ K.faults sink.new }
    {
        let room = room_of(row);
        self.make_room(alloc, room, sink)?;
        self.lines.push(row)?;
        Ok(())
    }

    // Sets so many bytes aside. Where the part has them no more, it is written before.
    fn make_room<K: Sink>(
        &mut self,
        alloc: Global,
        room: usize,
        sink: &mut K,
    ) -> Result<(), QueryErr>
        ensures ok { OnOk result ((start : Option (List ℕ)) (text : List ℕ) → HasSent start (K.contents sink.old) self.old.lines text → HasSent start (K.contents sink.new) self.new.lines text) }
        ensures front { OnErr result (FrontOf (K.contents sink.old) (K.contents sink.new) self.old.lines) }
        ensures cause { IfErr result StopsWriting }
        ensures fault { IsErrOf result QueryErr.SinkFault → Rose (K.faults sink.old) (K.faults sink.new) }
        ensures unbroken { OnOk result (K.at_failure sink.new ≡ K.at_failure sink.old) }
        ensures stops { IfErr result (λ e. StopsAt (e ≡ QueryErr.SinkFault) (K.at_failure sink.old) (K.at_failure sink.new) (K.contents sink.new)) }
        ensures quiet { OnOk result (K.faults sink.new ≡ K.faults sink.old) }
        ensures quiet_stop { IfErr result (λ e. e ≢ QueryErr.SinkFault → K.faults sink.new ≡ K.faults sink.old) }
        ensures never_falls { K.faults sink.old ≤ K.faults sink.new }
    {
        let bytes = self.bytes.saturating_add(room);
        if bytes <= PART {
            self.bytes = bytes;
            return Ok(());
        }
        self.send(alloc, sink)?;
        self.bytes = room;
        Ok(())
    }

    // Writes the lines of the part, which has none from then on.
    pub(crate) fn send<K: Sink>(&mut self, alloc: Global, sink: &mut K) -> Result<(), QueryErr>
        ensures ok { OnOk result (Appends (K.contents sink.old) (K.contents sink.new) self.old.lines) }
        ensures empty { OnOk result (self.new.lines ≡ []) }
        ensures front { OnErr result (FrontOf (K.contents sink.old) (K.contents sink.new) self.old.lines) }
        ensures cause { IfErr result StopsWriting }
        ensures fault { IsErrOf result QueryErr.SinkFault → Rose (K.faults sink.old) (K.faults sink.new) }
        ensures unbroken { OnOk result (K.at_failure sink.new ≡ K.at_failure sink.old) }
        ensures stops { IfErr result (λ e. StopsAt (e ≡ QueryErr.SinkFault) (K.at_failure sink.old) (K.at_failure sink.new) (K.contents sink.new)) }
        ensures quiet { OnOk result (K.faults sink.new ≡ K.faults sink.old) }
        ensures quiet_stop { IfErr result (λ e. e ≢ QueryErr.SinkFault → K.faults sink.new ≡ K.faults sink.old) }
        ensures never_falls { K.faults sink.old ≤ K.faults sink.new }
    {
        self.bytes = 0;
        let lines = mem::replace(&mut self.lines, Lines::new(alloc));
        let text = lines.finish()?;
        if write_parts(sink, text.as_slice()).is_err() {
            return Err(QueryErr::SinkFault);
        }
        Ok(())
    }
}

// The most bytes of the line of a row: each byte of a text may be a quote, which is written twice.
fn room_of(row: &[Value]) -> usize {
    let mut room = 0usize;
    for value in row {
        let text = match value {
            Value::Text(text) => text.as_slice().len(),
            Value::Int(_) | Value::Wide(_) => 0,
        };
        room = room.saturating_add(text.saturating_mul(2).saturating_add(BESIDE));
    }
    room
}

// Appends a text in pieces of at most the bytes of a part.
fn write_parts<K: Sink>(sink: &mut K, text: &[u8]) -> Result<(), Failed>
    ensures ok { OnOk result (Appends (K.contents sink.old) (K.contents sink.new) text.now) }
    ensures err { IfErr result (λ _. FrontOf (K.contents sink.old) (K.contents sink.new) text.now) }
    ensures unbroken { OnOk result (K.at_failure sink.new ≡ K.at_failure sink.old) }
    ensures stops { OnErr result (EndsAt (K.at_failure sink.old) (K.at_failure sink.new) (K.contents sink.new)) }
    ensures quiet { OnOk result (K.faults sink.new ≡ K.faults sink.old) }
    ensures failed { IfErr result (λ _. Rose (K.faults sink.old) (K.faults sink.new)) }
    ensures never_falls { K.faults sink.old ≤ K.faults sink.new }
{
    let mut left = text;
    while !left.is_empty() {
        let (piece, rest) = left.split_at(left.len().min(PART));
        write_whole(sink, piece)?;
        left = rest;
    }
    Ok(())
}
