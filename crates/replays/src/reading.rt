// What is read, through a buffer: the number of reads grows with the bytes and not with the records.
ghost use Rattle.std.specs.Prelude.{◌+◌, ◌≤◌, length};
ghost use Rattle.streams.specs.Outcomes.{bytes_in};

use streams::Failure;

// Where a read of at most `most` bytes ends that begins at `have`, in a buffer of that size.
fn reach(size: usize, have: usize, most: u64) -> usize
    requires { have ≤ size }
    ensures { (have ≤ result) × (result ≤ size) × (result ≤ have + most) }
{
    let free = size - have;
    have + free.min(most as usize)
}

// Reads once, at most `most` bytes, into the buffer behind its first `have` bytes: none where the input is at its end,
// or the buffer full.
pub fn more(
    rt: HostRuntime,
    program: &[u8],
    input: &mut [u8],
    have: usize,
    most: u64,
) -> Result<usize, Failure>
    requires { have ≤ length input.old }
    ensures { (have + bytes_in result ≤ length input.old) × (bytes_in result ≤ most) }
{
    let end = reach(input.len(), have, most);
    streams::read_input(rt, program, &mut input[have..end])
}

// Reads that many bytes and throws them away, and gives how many of them were missing, since the input ended before.
pub fn pass_over(
    rt: HostRuntime,
    program: &[u8],
    input: &mut [u8],
    bytes: u64,
) -> Result<u64, Failure> {
    let mut left = bytes;
    for _ in 0..u64::MAX {
        // Where none is left to be read, nothing is asked of the system.
        if left == 0 {
            break;
        }
        let count = more(rt, program, input, 0, left)?;
        if count == 0 {
            break;
        }
        left -= count as u64;
    }
    Ok(left)
}
