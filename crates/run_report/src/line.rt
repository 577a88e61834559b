// A line that is being made.

ghost use Rattle.std.specs.Prelude.{◌≡◌, ◌++◌, ◌∷◌, [], codes, IfOk, OnOk};
ghost use Rattle.run_report.specs.Report.{spaced};

use itoa::{Buffer, Integer};
use row_codec::Memory;
use std::alloc::Global;
use std::marker::Model;

// Bytes that a line mostly fits into; longer ones grow.
const USUAL: usize = 96;

/// The text so far. After want of memory nothing is said of it.
#[derive(Drop)]
pub struct Line {
    text: Vec<u8>,
}

impl Model for Line {
    ghost use Rattle.std.specs.Prelude.{List, ℕ};

    ghost Value = { List ℕ };

    ghost view = { λ line. line.text.items };
}

impl Line {
    pub fn new(alloc: Global) -> Result<Line, Memory>
        ensures { IfOk result (λ line. line ≡ []) }
    {
        let text = Vec::with_capacity(alloc, USUAL)?;
        Ok(Line { text })
    }

    /// Adds these bytes as they are.
    pub fn put(&mut self, bytes: &[u8]) -> Result<(), Memory>
        ensures { OnOk result (self.new ≡ self.old ++ bytes.now) }
    {
        self.text.extend_from_slice(bytes)?;
        Ok(())
    }

    /// Adds a number with no space before it.
    pub fn put_number<I: Integer>(&mut self, number: I) -> Result<(), Memory>
        ensures { OnOk result (self.new ≡ self.old ++ I.text number) }
    {
        let mut digits = Buffer::new();
        self.put(digits.format(number).as_bytes())
    }

    /// Adds a space and a word.
    pub fn word(&mut self, word: &[u8]) -> Result<(), Memory>
        ensures { OnOk result (self.new ≡ self.old ++ codes " " ++ word.now) }
    {
        self.put(b" ")?;
        self.put(word)
    }

    /// Adds a space and a number.
    pub fn number<I: Integer>(&mut self, number: I) -> Result<(), Memory>
        ensures { OnOk result (self.new ≡ self.old ++ codes " " ++ I.text number) }
    {
        self.put(b" ")?;
        self.put_number(number)
    }

    /// Adds a word and a number, each with a space before it.
    pub fn counted<I: Integer>(&mut self, what: &[u8], number: I) -> Result<(), Memory>
        ensures { OnOk result (self.new ≡ self.old ++ spaced (what.now ∷ I.text number ∷ [])) }
    {
        self.word(what)?;
        self.number(number)
    }

    /// The line with a newline at its end.
    pub fn end(self) -> Result<Vec<u8>, Memory>
        ensures { IfOk result (λ text. text.items ≡ self ++ codes "\n") }
    {
        let Line { mut text } = self;
        text.push(b'\n')?;
        Ok(text)
    }
}
