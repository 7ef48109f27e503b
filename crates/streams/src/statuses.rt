// The status that a program leaves: a script that wants it opens descriptor 3 and passes the argument `status=3`, and
// the program writes its digit there. Without it nothing is written.
use crate::moving::write;
use std::fs::OpenOptions;
use std::rt::Env;

// Why a program did not end well: its input is broken, a read failed, or a write. A read or a write that failed was
// said on standard error.
#[derive(Clone, Copy, Debug, PartialEq, Eq)]
pub enum Failure {
    Broken,
    Read,
    Write,
}

// The descriptor that it is written to, as a file.
const STATUS_FILE: &str = "/dev/fd/3";

// Whether the program was asked for its status.
fn asked(rt: HostRuntime) -> bool {
    let mut argument = [0u8; 8];
    match rt.arg(1, &mut argument) {
        Ok(count) => &argument[..count] == b"status=3".as_slice(),
        Err(_) => false,
    }
}

// The digit of a status.
fn digit(ended: Result<(), Failure>) -> u8 {
    match ended {
        Ok(()) => b'0',
        Err(Failure::Broken) => b'1',
        Err(Failure::Read) => b'3',
        Err(Failure::Write) => b'4',
    }
}

// Leaves the status, if it was asked for. Where descriptor 3 is a file, the digit goes behind what stands there.
pub fn leave(rt: HostRuntime, ended: Result<(), Failure>) {
    if asked(rt) {
        if let Ok(mut file) = OpenOptions::new().append(true).open(&rt, STATUS_FILE) {
            let _ = write(rt, &mut file, &[digit(ended)]);
        }
    }
}
