// Standard input, one line at a time. It is read in pieces, so a script may have any length.
ghost use Rattle.std.specs.Prelude.{◌≡◌, ◌+◌, ◌<◌, ◌≤◌, IfOk, Ok, Some, slice_index};

use crate::numbers::numbers;
use std::ops::Range;
use streams::Failure;

// The most bytes of a piece.
const SIZE: usize = 65536;

// One byte more than a line may have.
const LINE: usize = 4001;

// The piece that was read last, which of its bytes are still to be given, and the number of the line that they are in.
#[derive(Drop)]
pub struct Input {
    rt: HostRuntime,
    piece: [u8; SIZE],
    left: Range<usize>,
    line: u64,
    ghost within: { left.end ≤ 65536 },
}

impl Input {
    // Before anything was read.
    pub fn new(rt: HostRuntime) -> Input {
        Input {
            rt,
            piece: [0; SIZE],
            left: 0..0,
            line: 0,
        }
    }

    // The number of the line that was asked for last, counted from 1.
    pub fn line(&self) -> u64 {
        self.line
    }

    // Reads the next piece, and gives its length: 0 where the input is at its end.
    fn read_piece(&mut self) -> Result<usize, Failure>
        ensures { IfOk result (λ len. len ≤ 65536) }
    {
        streams::read_input(self.rt, b"trial", &mut self.piece)
    }

    // The next byte, unless the input is at its end.
    fn next_byte(&mut self) -> Result<Option<u8>, Failure>
        ensures first { self.old.left.start < self.old.left.end
            → result ≡ Ok (Some (slice_index self.old.piece self.old.left.start)) }
        ensures rest { self.old.left.start < self.old.left.end
            → (self.new.left.start ≡ self.old.left.start + 1) × (self.new.left.end ≡ self.old.left.end)
            × (self.new.piece ≡ self.old.piece) }
    {
        if self.left.is_empty() {
            self.left = 0..self.read_piece()?;
        }
        Ok(self.left.next().map(|at| self.piece[at]))
    }

    // Reads a line into the front of the room for it, without its newline; one that fills the room is broken. The last
    // line may lack its newline.
    fn next_line<'l>(&mut self, room: &'l mut [u8]) -> Result<Option<&'l [u8]>, Failure> {
        self.line = self.line.saturating_add(1);
        for len in 0..room.len() {
            match self.next_byte()? {
                Some(b'\n') => return Ok(Some(&room[..len])),
                Some(byte) => room[len] = byte,
                None if len == 0 => return Ok(None),
                None => return Ok(Some(&room[..len])),
            }
        }
        Err(Failure::Broken)
    }

    // The numbers of the next line, in the front of the room for them.
    pub fn next_numbers<'n>(
        &mut self,
        room: &'n mut [usize],
    ) -> Result<Option<&'n [usize]>, Failure> {
        let mut line = [0u8; LINE];
        let Some(line) = self.next_line(&mut line)? else {
            return Ok(None);
        };
        numbers(line, room).map(Some).ok_or(Failure::Broken)
    }

    // The two capacities of a script's first line, behind `T` and a space.
    pub fn capacities(&mut self) -> Result<Option<(usize, usize)>, Failure> {
        let mut line = [0u8; LINE];
        let Some(line) = self.next_line(&mut line)? else {
            return Ok(None);
        };
        let words = line.strip_prefix(b"T ").ok_or(Failure::Broken)?;
        match numbers(words, &mut [0; 2]) {
            Some([a, b]) => Ok(Some((*a, *b))),
            _ => Err(Failure::Broken),
        }
    }
}
