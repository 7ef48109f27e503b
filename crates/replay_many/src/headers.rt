// The length before a journal.
use streams::{Failure, say, tell};

// Reads the length of the next journal; none where the input is at its end. An input that ends within a length is
// broken, which is said, with the number of the journal.
pub fn next_length(rt: HostRuntime, program: &[u8], number: u64) -> Result<Option<u32>, Failure> {
    let mut bytes = [0u8; 4];
    let mut have: usize = 0;
    // Each read gives one byte at least, so four are enough.
    for _ in 0..4 {
        if have == 4 {
            break;
        }
        let count = streams::read_input(rt, program, &mut bytes[have..])?;
        if count == 0 {
            break;
        }
        have += count;
    }
    match have {
        0 => Ok(None),
        4 => Ok(Some(u32::from_be_bytes(bytes))),
        _ => {
            say(rt, program);
            tell(rt, format_args!(": journal {number} is cut short: "));
            say(rt, b"its length has fewer than 4 bytes\n");
            Err(Failure::Broken)
        }
    }
}
