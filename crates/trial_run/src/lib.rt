// Reads a script of calls on two queues, A and B, over separate slots, and writes what each call gave: how the proved
// queue is held against anything else.
#![tactic(auto)]

mod play; // play.rt: a script, line by line

use play::play;
use streams::{Failure, tell};
use trial_text::{Input, Output};

// The most slots of A and of B.
const SLOTS: usize = 16002;

// Plays the script of standard input. A broken line is said, and has a line of output.
pub fn play_script(rt: HostRuntime) -> Result<(), Failure> {
    let mut a_slots = [0u32; SLOTS];
    let mut b_slots = [0u32; SLOTS];
    let mut input = Input::new(rt);
    let mut out = Output::new(rt);
    let played = play(&mut input, &mut a_slots, &mut b_slots, &mut out);
    match played {
        Ok(()) | Err(Failure::Read) => {}
        Err(Failure::Broken) => {
            let line = input.line();
            tell(
                rt,
                format_args!("trial: line {line} is broken: nothing behind it was played\n"),
            );
            out.put(format_args!("broken line {line}\n"))?;
        }
        Err(Failure::Write) => return played,
    }
    out.flush()?;
    played
}
