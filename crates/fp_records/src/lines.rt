//! Lines of text.

ghost use Rattle.std.specs.Prelude.{◌≡◌, [], false, decimal, OnOk, OnErr, IfOk};
ghost use Rattle.fp_records.specs.Text.{with_end, with_field};

use crate::NoMemory;
use itoa::Buffer;
use std::alloc::Global;
use std::marker::Model;

/// A builder of lines. The fields of a line are joined by commas, and a line feed ends it. It keeps
/// the allocator that it was made with.
#[derive(Drop)]
pub struct Line {
    text: Vec<u8>,
    begun: bool,
}

impl Model for Line {
    ghost use Rattle.fp_records.specs.Text.{Lines};

    ghost Value = { Lines };

    ghost view = { λ a. record { text = a.text.items; begun = a.begun } };
}

impl Line {
    /// A builder with no text yet.
    ///
    /// # Errors
    /// `NoMemory` only where no memory is found.
    pub fn new(alloc: Global) -> Result<Line, NoMemory>
        ensures { IfOk result (λ s. s ≡ record { text = []; begun = false }) }
    {
        Ok(Line {
            text: Vec::new(alloc),
            begun: false,
        })
    }

    /// Adds these bytes as a field of the line at hand, as they are.
    ///
    /// # Errors
    /// `NoMemory` only where no memory is found. The text is as before then.
    pub fn word(&mut self, bytes: &[u8]) -> Result<(), NoMemory>
        ensures ok { OnOk result (self.new ≡ with_field self.old bytes.now) }
        ensures err { OnErr result (self.new ≡ self.old) }
    {
        let before = self.text.len();
        if self.begun {
            self.text.push(b',')?;
        }
        if let Err(e) = self.text.extend_from_slice(bytes) {
            self.text.truncate(before);
            return Err(e);
        }
        self.begun = true;
        Ok(())
    }

    /// Adds a number as a field of the line at hand, in decimal digits without leading zeros.
    ///
    /// # Errors
    /// `NoMemory` only where no memory is found. The text is as before then.
    pub fn number(&mut self, value: u128) -> Result<(), NoMemory>
        ensures ok { OnOk result (self.new ≡ with_field self.old (decimal value)) }
        ensures err { OnErr result (self.new ≡ self.old) }
    {
        let mut buffer = Buffer::new();
        self.word(buffer.format(value).as_bytes())
    }

    /// Ends the line at hand by a line feed.
    ///
    /// # Errors
    /// `NoMemory` only where no memory is found. The text is as before then.
    pub fn end(&mut self) -> Result<(), NoMemory>
        ensures ok { OnOk result (self.new ≡ with_end self.old) }
        ensures err { OnErr result (self.new ≡ self.old) }
    {
        self.text.push(b'\n')?;
        self.begun = false;
        Ok(())
    }

    /// The text of all lines so far.
    pub fn into_bytes(self) -> Vec<u8>
        ensures { result.items ≡ self.text }
    {
        self.text
    }
}
