// One journal, and what is said of it.
use replays::Desk;
use streams::{Failure, say, tell};

// Passes over what a journal left unread; where the input ends before, says so.
fn pass_over(rt: HostRuntime, desk: &mut Desk, number: u64, unread: u64) -> Result<(), Failure> {
    let missing = desk.pass_over(rt, unread)?;
    if missing == 0 {
        return Ok(());
    }
    say(rt, desk.program);
    tell(
        rt,
        format_args!(": journal {number} is cut short: {missing} of its bytes are missing\n"),
    );
    Err(Failure::Broken)
}

// Runs a journal of that length, counted from 1, and passes over what a broken record left unread.
pub fn run_one(rt: HostRuntime, desk: &mut Desk, number: u64, length: u32) -> Result<(), Failure> {
    let replayed = desk.replay(rt, u64::from(length));
    if let Some(place) = replayed.broken {
        say(rt, desk.program);
        tell(rt, format_args!(": journal {number}: {place}"));
    }
    match replayed.ended {
        Ok(()) | Err(Failure::Broken) => {
            pass_over(rt, desk, number, replayed.unread)?;
            replayed.ended
        }
        failed => failed,
    }
}
