// The steps of a replay: each puts one record's line or one word of the last line behind what is written.
ghost use Rattle.std.specs.Prelude.{◌+◌, ◌-◌, ◌<◌, ◌≤◌, length};
ghost use Rattle.std.proofs.Math.ListN.{get_elem?};
ghost use Rattle.journals.specs.Records.{entry_for};
ghost use Rattle.plays.specs.Pieces.{begin_last, do_got, step, word_of};
ghost use Rattle.plays.specs.Playing.{Does, Within, play_of};
ghost use Rattle.rules.specs.WholeReplay.{◌then◌, break_off, elements, play_record};
ghost use Rattle.queue.specs.Answers.{rec_of};
ghost use Rattle.rules.specs.Journals.{record_at};

use crate::playing::{Advanced, Playing, Stage};
use journals::{Fault, Record};

// Performs the operation of a record, and puts its line.
fn play_record(slots: &mut [u32], before: Advanced, taken: Record, out: &mut [u8]) -> Advanced
    requires { (before.written + 105 ≤ length out.old) × (before.used ≤ taken.next) × (before.records < taken.next) }
    ensures { Does slots.old slots.new out.old out.new before result
        (play_record (play_of slots.old before.playing) (entry_for taken.operation) (taken.next - before.used))
        × (result.written ≤ before.written + 105) }
{
    let queue = before.playing.queue;
    let done = taken.operation.perform(slots, queue);
    let written = lines::answer_line(out, before.written, queue, taken.operation, done);
    Advanced {
        playing: Playing {
            queue: done.record_or(queue),
            stage: Stage::Records,
        },
        used: taken.next,
        records: before.records + 1,
        written,
        ..before
    }
}

// Puts the last line's first word.
fn begin_last(slots: &[u32], before: Advanced, out: &mut [u8]) -> Advanced
    requires { before.written + 3 ≤ length out.old }
    ensures { Does slots.now slots.now out.old out.new before result
        (begin_last (play_of slots.now before.playing)) × (result.written ≤ before.written + 3) }
{
    Advanced {
        playing: Playing {
            queue: before.playing.queue,
            stage: Stage::Elements(0),
        },
        written: lines::put_end(out, before.written),
        ..before
    }
}

// Puts the line of a broken, unknown or cut record, which ends the records, and the last line's first word.
fn break_off(slots: &[u32], before: Advanced, out: &mut [u8]) -> Advanced
    requires { before.written + 105 ≤ length out.old }
    ensures { Does slots.now slots.now out.old out.new before result
        (break_off (play_of slots.now before.playing)
        then begin_last (play_of slots.now before.playing)) × (result.written ≤ before.written + 105) }
{
    let broken = Advanced {
        broken: true,
        written: lines::broken_line(out, before.written, before.playing.queue),
        ..before
    };
    begin_last(slots, broken, out)
}

// The next record, as far as its bytes are there: `last` says that no more come.
fn next_record(
    slots: &mut [u32],
    before: Advanced,
    bytes: &[u8],
    last: bool,
    out: &mut [u8],
) -> Advanced
    requires { (before.written + 105 ≤ length out.old)
        × Within (length bytes.now) (length out.old) before }
    ensures { Does slots.old slots.new out.old out.new before result
        (do_got last before.used (play_of slots.old before.playing)
        (record_at bytes.now before.used))
        × Within (length bytes.now) (length out.old) result }
{
    match journals::record_at(bytes, before.used) {
        Ok(Some(taken)) => play_record(slots, before, taken, out),
        Ok(None) if last => begin_last(slots, before, out),
        Err(Fault::Broken) => break_off(slots, before, out),
        Err(Fault::Cut) if last => break_off(slots, before, out),
        Ok(None) | Err(Fault::Cut) => before,
    }
}

// Puts element i after a space, or the newline behind the last one.
fn next_element(slots: &[u32], before: Advanced, i: usize, out: &mut [u8]) -> Advanced
    requires { before.written + 105 ≤ length out.old }
    ensures { Does slots.now slots.now out.old out.new before result
        (word_of (play_of slots.now before.playing) i
        (get_elem? (elements slots.now (rec_of before.playing.queue)) i))
        × (result.written ≤ before.written + 105) }
{
    let queue = before.playing.queue;
    match ends::get(slots, queue, i).ok().flatten() {
        Some(number) => Advanced {
            playing: Playing {
                queue,
                stage: Stage::Elements(i + 1),
            },
            written: lines::put_word(out, before.written, number as usize),
            ..before
        },
        None => Advanced {
            playing: Playing {
                queue,
                stage: Stage::Over,
            },
            written: lines::put_newline(out, before.written),
            ..before
        },
    }
}

// One step, where the buffer has room for a line. Nothing changes where it has not, where more bytes
// have to come, and where the replay is over.
pub fn step(
    slots: &mut [u32],
    before: Advanced,
    bytes: &[u8],
    last: bool,
    out: &mut [u8],
) -> Advanced
    requires { Within (length bytes.now) (length out.old) before }
    ensures { Does slots.old slots.new out.old out.new before result
        (step (length out.old - before.written) last bytes.now before.used
        (play_of slots.old before.playing))
        × Within (length bytes.now) (length out.old) result }
{
    if out.len() - before.written < 105 {
        return before;
    }
    match before.playing.stage {
        Stage::Records => next_record(slots, before, bytes, last, out),
        Stage::Elements(i) => next_element(slots, before, i, out),
        Stage::Over => before,
    }
}
