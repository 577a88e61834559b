// Names of files and columns as a terminal may show them.

use std::fmt;
use std::fmt::{Display, Formatter};

/// A text whose control characters are shown by escapes, so that no name ends the line or moves the cursor.
#[derive(Clone, Copy)]
pub struct Shown<'a>(pub &'a str);

impl Display for Shown<'_> {
    fn fmt<W: fmt::Write>(&self, f: &mut Formatter<W>) -> fmt::Result {
        for c in self.0.chars() {
            match c {
                '\n' => f.write_str("\\n")?,
                '\r' => f.write_str("\\r")?,
                '\t' => f.write_str("\\t")?,
                c if c.is_control() => write!(f, "\\u{{{:x}}}", u32::from(c))?,
                c => f.write_char(c)?,
            }
        }
        Ok(())
    }
}

// The same of bytes. What is no text among them is shown as the character that stands for it.
#[derive(Clone, Copy)]
pub(crate) struct ShownBytes<'a>(pub(crate) &'a [u8]);

impl Display for ShownBytes<'_> {
    fn fmt<W: fmt::Write>(&self, f: &mut Formatter<W>) -> fmt::Result {
        for chunk in self.0.utf8_chunks() {
            write!(f, "{}", Shown(chunk.valid()))?;
            if !chunk.invalid().is_empty() {
                f.write_char(char::REPLACEMENT_CHARACTER)?;
            }
        }
        Ok(())
    }
}

// Of a field, which may be any length, so many bytes are shown.
const MOST_OF_A_FIELD: usize = 60;

/// The front of a field of a file, at most 60 bytes, with three dots behind it where the field has more. Control characters
/// are shown as in [`Shown`], and what is no text as U+FFFD.
#[derive(Clone, Copy)]
pub struct ShownField<'a>(pub &'a [u8]);

impl Display for ShownField<'_> {
    fn fmt<W: fmt::Write>(&self, f: &mut Formatter<W>) -> fmt::Result {
        match self.0.get(..MOST_OF_A_FIELD) {
            Some(front) if front.len() < self.0.len() => write!(f, "{}...", ShownBytes(front)),
            _ => write!(f, "{}", ShownBytes(self.0)),
        }
    }
}
