// Standard output, through a buffer.
ghost use Rattle.std.specs.Prelude.{◌≡◌, ℕ, ◌≤◌, ◌⊎◌, List, [], ◌∷◌, ◌++◌, length, take, OnOk};

use std::fmt;
use std::fmt::Write;
use std::marker::Model;
use streams::Failure;

// The most bytes that the buffer holds.
const SIZE: usize = 65536;

// What is put stands in the front of the buffer, which is written out when it is full and more is to come, and at the
// end. A write that fails was said, and nothing is to be put behind it.
#[derive(Drop)]
pub struct Output {
    rt: HostRuntime,
    buffer: [u8; SIZE],
    held: usize,
}

impl Model for Output {
    // the bytes that are put and not written out yet
    ghost Value = { List ℕ };

    ghost view = { λ o. take o.held o.buffer };

    ghost invariant = { λ o. o.held ≤ 65536 };
}

impl Output {
    // With nothing put.
    pub fn new(rt: HostRuntime) -> Output
        ensures { result ≡ [] }
    {
        Output {
            rt,
            buffer: [0; SIZE],
            held: 0,
        }
    }

    // Puts a text.
    pub fn put<T: fmt::Display + Drop>(&mut self, text: T) -> Result<(), Failure> {
        write!(self, "{text}").map_err(|_| Failure::Write)
    }

    // Writes out what the buffer holds.
    pub fn flush(&mut self) -> Result<(), Failure>
        ensures { OnOk result (self.new ≡ []) }
    {
        streams::write_output(self.rt, b"trial", &self.buffer[..self.held])?;
        self.held = 0;
        Ok(())
    }

    // Puts a byte.
    fn put_byte(&mut self, byte: u8) -> Result<(), Failure>
        ensures { OnOk result ((self.new ≡ self.old ++ byte ∷ []) ⊎ (self.new ≡ byte ∷ [])) }
    {
        if self.held == SIZE {
            self.flush()?;
        }
        self.buffer[self.held] = byte;
        self.held += 1;
        Ok(())
    }
}

impl Write for Output {
    fn write_str(&mut self, text: &str) -> fmt::Result {
        for byte in text.bytes() {
            self.put_byte(byte).map_err(|_| fmt::Error)?;
        }
        Ok(())
    }
}
