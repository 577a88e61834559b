// Rows as lines of text.

ghost use Rattle.std.specs.Prelude.{◌≡◌, ◌++◌, [], IfOk, OnOk};
ghost use Rattle.csv_edge.specs.Lines.{line_of, text_of};
ghost use Rattle.csv_edge.specs.Writer.{IsBetween, text_in};

use csv::{Writer, WriterBuilder};
use itoa::Buffer;
use row_codec::{Memory, Value};
use std::alloc::Global;
use std::marker::Model;

/// The line of a row, quoted where `csv` quotes, with a newline at its end.
///
/// # Errors
///
/// `Memory`: there was none for the line.
pub fn row_text(alloc: Global, row: &[Value]) -> Result<Vec<u8>, Memory>
    ensures { IfOk result (λ text. text.items ≡ line_of row.now) }
{
    let mut lines = Lines::new(alloc);
    lines.push(row)?;
    lines.finish()
}

/// Lines of rows, one after the other.
///
/// After want of memory each later call answers the same.
#[derive(Drop)]
pub struct Lines {
    writer: Writer<Vec<u8>>,
    failed: bool,
}

impl Model for Lines {
    ghost use Rattle.std.specs.Prelude.{◌≡◌, ℕ, List, false};
    ghost use Rattle.csv_edge.specs.Writer.{IsBetween, text_in};

    ghost Value = { List ℕ };

    ghost view = { λ lines. text_in lines.writer };

    ghost invariant = { λ lines. lines.failed ≡ false → IsBetween lines.writer };
}

impl Lines {
    /// No line.
    pub fn new(alloc: Global) -> Lines
        ensures { result ≡ [] }
    {
        let writer = WriterBuilder::new()
            .flexible(true)
            .from_writer(Vec::new(alloc));
        Lines {
            writer,
            failed: false,
        }
    }

    /// Adds the line of this row. Rows may be of any length.
    ///
    /// # Errors
    ///
    /// `Memory`: there was none for the line. A part of it may stand in the text, which must not be used: each later
    /// call answers `Memory` too.
    pub fn push(&mut self, row: &[Value]) -> Result<(), Memory>
        ensures ok { OnOk result (self.new ≡ self.old ++ line_of row.now) }
    {
        if self.failed {
            return Err(Memory);
        }
        self.failed = true;
        write_row(&mut self.writer, row)?;
        self.failed = false;
        Ok(())
    }

    /// The text of all lines.
    ///
    /// # Errors
    ///
    /// `Memory`: there was none for a line, in this call or in an earlier one. There is no text then.
    pub fn finish(self) -> Result<Vec<u8>, Memory>
        ensures { IfOk result (λ text. text.items ≡ self) }
    {
        let Lines { writer, failed } = self;
        if failed {
            return Err(Memory);
        }
        let Ok(text) = writer.into_inner() else {
            return Err(Memory);
        };
        Ok(text)
    }
}

// Writes one record. The writer holds its text in memory, so that an error is want of memory.
fn write_row(writer: &mut Writer<Vec<u8>>, row: &[Value]) -> Result<(), Memory>
    requires { IsBetween writer.old }
    ensures text { OnOk result (text_in writer.new ≡ text_in writer.old ++ line_of row.now) }
    ensures between { OnOk result (IsBetween writer.new) }
{
    let mut digits = Buffer::new();
    for value in row {
        let Ok(()) = writer.write_field(value_text(value, &mut digits)) else {
            return Err(Memory);
        };
    }
    let Ok(()) = writer.end_record() else {
        return Err(Memory);
    };
    Ok(())
}

// The text of a value; that of a number stands in `digits`.
fn value_text<'a>(value: &'a Value, digits: &'a mut Buffer) -> &'a [u8]
    ensures { result.now ≡ text_of value.now }
{
    match value {
        Value::Int(number) => digits.format(*number).as_bytes(),
        Value::Text(text) => text.as_slice(),
        Value::Wide(number) => digits.format(*number).as_bytes(),
    }
}
