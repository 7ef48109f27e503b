// Reading and writing that go on: a call that was interrupted, or for which nothing was ready yet, is made again. A
// proved loop has to end, and nothing says that the other side gets ready: the tries are counted.
ghost use Rattle.std.specs.Prelude.{◌≤◌, length};
ghost use Rattle.streams.specs.Outcomes.{bytes_of, bytes_in};

use crate::judging::{EAGAIN, came_to, moving};
use crate::waiting::wait;
use std::io;
use std::io::{Read, Write};

// Reads once into the buffer. None are read at the end of the input, and into an empty buffer.
pub fn read<R: Read>(rt: HostRuntime, from: &mut R, buf: &mut [u8]) -> io::Result<usize>
    ensures { bytes_in result ≤ length buf.old }
{
    for _ in 0..u64::MAX {
        if let Some(count) = read_once(from, buf)? {
            return Ok(count);
        }
        wait(rt);
    }
    Err(io::Error::from_raw_os_error(EAGAIN))
}

// Asks the system once for bytes.
fn read_once<R: Read>(from: &mut R, buf: &mut [u8]) -> io::Result<Option<usize>>
    ensures { bytes_of result ≤ length buf.old }
{
    came_to(from.read(buf))
}

// Writes all of the bytes.
pub fn write<W: Write>(rt: HostRuntime, to: &mut W, bytes: &[u8]) -> io::Result<()> {
    let mut left = bytes;
    for _ in 0..u64::MAX {
        if left.is_empty() {
            return Ok(());
        }
        match write_once(to, left)?.and_then(moving) {
            Some(count) => left = &left[count..],
            None => wait(rt),
        }
    }
    Err(io::Error::from_raw_os_error(EAGAIN))
}

// Hands the system bytes once.
fn write_once<W: Write>(to: &mut W, bytes: &[u8]) -> io::Result<Option<usize>>
    ensures { bytes_of result ≤ length bytes.now }
{
    came_to(to.write(bytes))
}
