// What a program says on standard error, under its name. A sentence that can't be written there is lost: there is
// nobody left to tell.
ghost use Rattle.std.specs.Prelude.{◌≤◌, length};
ghost use Rattle.streams.specs.Outcomes.{bytes_in};

use crate::judging::number_of;
use crate::moving::{read, write};
use crate::statuses::Failure;
use std::fmt;
use std::fmt::Write;
use std::io::{Error, ErrorKind};

// The number of a read from a descriptor that is closed or not open for reading, as Linux has it.
const EBADF: i32 = 9;

// The most bytes of an error's words.
const WORDS: usize = 128;

// Standard error, as something that text is written to.
#[derive(Clone, Copy)]
struct Told(HostRuntime);

impl Write for Told {
    fn write_str(&mut self, text: &str) -> fmt::Result {
        say(self.0, text.as_bytes());
        Ok(())
    }
}

// Says bytes.
// Stays: bytes, and no text, which would ask more of who speaks.
pub fn say(rt: HostRuntime, text: &[u8]) {
    let _ = write(rt, &mut rt.stderr(), text);
}

// Says what is shown as text.
pub fn tell<T: fmt::Display + Drop>(rt: HostRuntime, shown: T) {
    let mut told = Told(rt);
    let _ = write!(told, "{shown}");
}

// The words before the first bracket, or before the bytes that are 0.
fn before_bracket(words: &[u8]) -> &[u8]
    ensures { length result.now ≤ length words.now }
{
    let end = words
        .iter()
        .position(|byte| *byte == b'(' || *byte == 0)
        .unwrap_or(words.len());
    words[..end].trim_ascii_end()
}

// Says that a call failed, and why: in the system's words for the number. std puts the number behind them, in brackets,
// which isn't said.
fn say_failed(rt: HostRuntime, program: &[u8], what: &[u8], error: Error) {
    let error = Error::from_raw_os_error(number_of(error));
    let mut words = [0u8; WORDS];
    let mut room: &mut [u8] = &mut words;
    // Words that have no room are cut.
    let _ = std::io::Write::write_fmt(&mut room, format_args!("{error}"));
    say(rt, program);
    say(rt, what);
    say(rt, b": ");
    say(rt, before_bracket(&words));
    say(rt, b"\n");
}

// What to do next where a read failed.
fn advice(error: Error) -> &'static [u8] {
    if error.kind() == ErrorKind::IsADirectory {
        return b": it is a folder: give it a file\n";
    }
    if error.raw_os_error() == Some(EBADF) {
        return b": it is closed, or not open for reading: give it a file or a pipe\n";
    }
    b": what was answered so far is written, and more may have come: mend it and run it again\n"
}

// Reads once from standard input: none where it is at its end. A read that fails is said at once.
pub fn read_input(rt: HostRuntime, program: &[u8], buf: &mut [u8]) -> Result<usize, Failure>
    ensures { bytes_in result ≤ length buf.old }
{
    match read(rt, &mut rt.stdin(), buf) {
        Ok(count) => Ok(count),
        Err(error) => {
            say_failed(rt, program, b": standard input could not be read", error);
            say(rt, program);
            say(rt, advice(error));
            Err(Failure::Read)
        }
    }
}

// Writes bytes to standard output. A write that fails is said at once.
pub fn write_output(rt: HostRuntime, program: &[u8], bytes: &[u8]) -> Result<(), Failure> {
    match write(rt, &mut rt.stdout(), bytes) {
        Ok(()) => Ok(()),
        Err(error) => {
            say_failed(
                rt,
                program,
                b": standard output could not be written",
                error,
            );
            say(rt, program);
            say(
                rt,
                b": what stands there is not complete: make room, or open it for writing, and run it again\n",
            );
            Err(Failure::Write)
        }
    }
}
