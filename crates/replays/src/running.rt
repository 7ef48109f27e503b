// A journal, from its first byte to its last line.
ghost use Rattle.std.specs.Prelude.{◌≡◌, ◌+◌, ◌≤◌, length};

use crate::reading::{more, pass_over};
use crate::telling::Place;
use crate::{BUFFER, SLOTS};
use plays::{Advanced, Playing, Stage};
use streams::Failure;

// How a replay ended: how many bytes of the limit were not read, where the journal broke, if it did, and why the
// replay did not end well. A read or a write that failed was said.
#[derive(Clone, Copy)]
pub struct Replayed {
    pub unread: u64,
    pub broken: Option<Place>,
    pub ended: Result<(), Failure>,
}

// What a replay program works with: the name that it speaks under, the queue's slots, and a buffer for what is read and
// one for what is written.
// Stays: arrays, since a slice would not say how long they are.
#[derive(Drop)]
pub struct Desk<'a> {
    pub program: &'a [u8],
    pub slots: &'a mut [u32; SLOTS],
    pub input: &'a mut [u8; BUFFER],
    pub out: &'a mut [u8; BUFFER],
}

// A replay between two steps: where it stands in the journal, the records that it played, where the journal broke, the
// bytes that wait at the front of the input's buffer, and those that were read, of at most `limit`.
#[derive(Clone, Copy)]
struct Run {
    playing: Playing,
    records: u64,
    broken: Option<Place>,
    have: usize,
    read: u64,
    limit: u64,
    ghost within: { (have ≤ read) × (read ≤ limit) },
}

impl<'a> Desk<'a> {
    // Plays the records of at most `limit` bytes of standard input on an empty queue in the slots, and writes a line for
    // each and the last line. A read or a write that fails ends it, is said, and leaves the last line unwritten.
    pub fn replay(&mut self, rt: HostRuntime, limit: u64) -> Replayed
        ensures { result.unread ≤ limit }
    {
        let slots = self.slots.as_mut_slice();
        let input = self.input.as_mut_slice();
        let out = self.out.as_mut_slice();
        replay(rt, self.program, slots, input, out, limit)
    }

    // Reads that many bytes and throws them away, and gives how many of them were missing.
    pub fn pass_over(&mut self, rt: HostRuntime, bytes: u64) -> Result<u64, Failure> {
        pass_over(rt, self.program, self.input, bytes)
    }
}

// As `Desk::replay`, in slots and buffers of any length. A record that the input's buffer has no room for, of 12 bytes
// at most, reads as cut short, and in a buffer of no bytes as the end; where the output's has fewer bytes than a line
// may have, 105, the replay does not get on.
pub fn replay(
    rt: HostRuntime,
    program: &[u8],
    slots: &mut [u32],
    input: &mut [u8],
    out: &mut [u8],
    limit: u64,
) -> Replayed
    ensures { result.unread ≤ limit }
{
    let mut run = begun(limit);
    let ended = run_on(rt, program, slots, input, out, &mut run);
    left_of(run, ended)
}

// Before the first byte.
fn begun(limit: u64) -> Run
    ensures { (result.have ≡ 0) × (result.read ≡ 0) × (result.limit ≡ limit) }
{
    Run {
        playing: plays::start(),
        records: 0,
        broken: None,
        have: 0,
        read: 0,
        limit,
    }
}

// What is left of a replay.
fn left_of(run: Run, ended: Result<(), Failure>) -> Replayed
    ensures { result.unread + run.read ≡ run.limit }
{
    Replayed {
        unread: run.limit - run.read,
        broken: run.broken,
        ended,
    }
}

// Plays the first `have` bytes of the input, as far as the output has room, and moves what is left of them to the front.
fn play_piece(
    slots: &mut [u32],
    playing: Playing,
    input: &mut [u8],
    have: usize,
    last: bool,
    out: &mut [u8],
) -> Advanced
    requires { have ≤ length input.old }
    ensures { (result.used ≤ have) × (result.written ≤ length out.old) }
{
    let advanced = plays::advance(slots, playing, &input[..have], last, out);
    input.copy_within(advanced.used..have, 0);
    advanced
}

// Plays the bytes that wait, of which no more come if these are the last, as far as the output's buffer has room, moves
// what is left of them to the front, and writes the lines. Gives how many bytes it wrote.
fn play_on(
    rt: HostRuntime,
    program: &[u8],
    slots: &mut [u32],
    input: &mut [u8],
    out: &mut [u8],
    run: &mut Run,
    last: bool,
) -> Result<usize, Failure>
    requires { run.old.have ≤ length input.old }
    ensures run { (run.new.have ≤ run.old.have) × (run.new.read ≡ run.old.read) × (run.new.limit ≡ run.old.limit) }
{
    let playing = run.playing;
    let have = run.have;
    let advanced = play_piece(slots, playing, input, have, last, out);
    run.have -= advanced.used;
    run.playing = advanced.playing;
    // A record has bytes of its own, so a u64 can count them.
    run.records = run.records.wrapping_add(advanced.records as u64);
    if advanced.broken {
        run.broken = Some(Place {
            record: run.records.wrapping_add(1),
            byte: run.read - run.have as u64,
        });
    }
    streams::write_output(rt, program, &out[..advanced.written])?;
    Ok(advanced.written)
}

// Reads on, behind the bytes that wait, and gives whether no more came.
fn read_on(
    rt: HostRuntime,
    program: &[u8],
    input: &mut [u8],
    run: &mut Run,
) -> Result<bool, Failure>
    requires { run.old.have ≤ length input.old }
    ensures run { (run.new.have ≤ length input.new) × (run.new.limit ≡ run.old.limit)
        × (run.new.read + run.old.have ≡ run.old.read + run.new.have) }
{
    let count = more(rt, program, input, run.have, run.limit - run.read)?;
    run.have += count;
    run.read += count as u64;
    Ok(count == 0)
}

// Reads the journal in pieces, plays its records, and writes the lines of each piece before it reads the next. A proved
// loop has to end, and nothing says that the input does: the turns are counted.
// Stays: slots and buffers one by one, since behind a struct's fields a program's own sizes are not seen when it is
// built: one instruction more in a hundred.
fn run_on(
    rt: HostRuntime,
    program: &[u8],
    slots: &mut [u32],
    input: &mut [u8],
    out: &mut [u8],
    run: &mut Run,
) -> Result<(), Failure>
    requires { run.old.have ≤ length input.old }
    ensures { run.new.limit ≡ run.old.limit }
{
    let mut last = read_on(rt, program, input, run)?;
    for _ in 0..u64::MAX {
        let written = play_on(rt, program, slots, input, out, run, last)?;
        if let Stage::Over = run.playing.stage {
            return match run.broken {
                Some(_) => Err(Failure::Broken),
                None => Ok(()),
            };
        }
        if written == 0 {
            last = read_on(rt, program, input, run)?;
        }
    }
    Err(Failure::Read)
}
