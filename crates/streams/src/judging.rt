// What an answer of read or write means.
ghost use Rattle.std.specs.Prelude.{◌≡◌};
ghost use Rattle.std.specs.IoError.{raw_os_error};
ghost use Rattle.streams.specs.Outcomes as rules;

use std::io;

// The numbers of a call that was interrupted, and of one that could not be made yet, as Linux has them.
const EINTR: i32 = 4;

pub const EAGAIN: i32 = 11;

// The number of an error of input or output, as Linux has it.
const EIO: i32 = 5;

// The number of an error: errno, or for an error that is not the system's EIO.
pub fn number_of(error: io::Error) -> i32
    ensures { result ≡ rules.number_of (raw_os_error error) }
{
    error.raw_os_error().unwrap_or(EIO)
}

// Whether an error says that the call was interrupted or could not be made yet.
fn is_passing(error: io::Error) -> bool
    ensures { result ≡ rules.passing (raw_os_error error) }
{
    match error.raw_os_error() {
        Some(EINTR) => true,
        Some(number) => number == EAGAIN,
        None => false,
    }
}

// So many bytes moved, or none.
pub fn moving(bytes: usize) -> Option<usize>
    ensures { result ≡ rules.moving bytes }
{
    if bytes == 0 {
        return None;
    }
    Some(bytes)
}

// What one call of read or write came to: so many bytes, or `None` where it is to be made again.
pub fn came_to(answer: io::Result<usize>) -> io::Result<Option<usize>>
    ensures { result ≡ rules.came_to answer }
{
    match answer {
        Ok(bytes) => Ok(Some(bytes)),
        Err(error) if is_passing(error) => Ok(None),
        Err(error) => Err(error),
    }
}
