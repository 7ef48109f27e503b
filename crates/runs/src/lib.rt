// The two runs of a range of positions: their places, and each run as that part of the lent slots itself.
#![tactic(auto)]

ghost use Rattle.std.specs.Prelude.{◌≡◌, length};
ghost use Rattle.rules.specs.Records.{held};
ghost use Rattle.rules.specs.Refusals.{on_queue};
ghost use Rattle.rules.specs.Runs.{look_runs, runs_or, front_run, back_run};
ghost use Rattle.queue.specs.Answers.{rec_of};
ghost use Rattle.queue.specs.Looks.{look_of, runs_of};
ghost use Rattle.runs.specs.Parts.{BothWithin, part_start};
ghost use Rattle.runs.specs.Lists.{listed};

use queue::{Deque, Refusal, Runs, Span};

// No place at all, and two runs without one.
const NOWHERE: Span = Span { start: 0, end: 0 };

const NO_RUNS: Runs = Runs {
    front: NOWHERE,
    back: NOWHERE,
};

// The places of the two runs of positions start..end.
pub fn slice_ranges(slots: &[u32], q: Deque, start: usize, end: usize) -> Result<Runs, Refusal>
    ensures { look_of runs_of result ≡ look_runs slots.now (rec_of q) start end }
{
    let cap = slots.len();
    queue::check(cap, q)?;
    queue::check_range(q.len, start, end)?;
    if start == end {
        return Ok(NO_RUNS);
    }
    let first = places::wrap_add(cap, q.head, start).as_index();
    let n = end - start;
    let room = cap - first;
    if n <= room {
        return Ok(Runs {
            front: Span {
                start: first,
                end: first + n,
            },
            back: NOWHERE,
        });
    }
    Ok(Runs {
        front: Span {
            start: first,
            end: cap,
        },
        back: Span {
            start: 0,
            end: n - room,
        },
    })
}

// The places of the two runs; refused, none.
fn runs_or_none(slots: &[u32], q: Deque, start: usize, end: usize) -> Runs
    ensures places { runs_of result ≡ runs_or slots.now (rec_of q) start end }
    ensures within { BothWithin (length slots.now) (runs_of result) }
{
    slice_ranges(slots, q, start, end).unwrap_or(NO_RUNS)
}

// A list in two runs of slots: the front run, and behind it the back run.
#[derive(Clone, Copy)]
pub struct TwoRuns<'a> {
    pub front: &'a [u32],
    pub back: &'a [u32],
}

// The two runs of positions start..end, as those parts of the lent slots themselves; refused, the empty part twice.
fn both_runs(slots: &[u32], q: Deque, start: usize, end: usize) -> TwoRuns<'_>
    ensures front { result.front.now ≡ front_run slots.now (rec_of q) start end }
    ensures back { result.back.now ≡ back_run slots.now (rec_of q) start end }
    ensures front_place { result.front.ref_ptr ≡ part_start slots.entry (runs_or slots.now (rec_of q) start end).front }
    ensures back_place { result.back.ref_ptr ≡ part_start slots.entry (runs_or slots.now (rec_of q) start end).back }
{
    let Runs { front, back } = runs_or_none(slots, q, start, end);
    TwoRuns {
        front: &slots[front.start..front.end],
        back: &slots[back.start..back.end],
    }
}

// The front run of positions start..end, as that part of the lent slots itself; refused, the empty part.
pub fn front_run(slots: &[u32], q: Deque, start: usize, end: usize) -> &[u32]
    ensures value { result.now ≡ front_run slots.now (rec_of q) start end }
    ensures place { result.ref_ptr ≡ part_start slots.entry (runs_or slots.now (rec_of q) start end).front }
{
    both_runs(slots, q, start, end).front
}

// The back run of positions start..end, as that part of the lent slots itself; refused, the empty part.
pub fn back_run(slots: &[u32], q: Deque, start: usize, end: usize) -> &[u32]
    ensures value { result.now ≡ back_run slots.now (rec_of q) start end }
    ensures place { result.ref_ptr ≡ part_start slots.entry (runs_or slots.now (rec_of q) start end).back }
{
    both_runs(slots, q, start, end).back
}

// The two runs of a queue's whole list.
pub fn whole_runs(slots: &[u32], q: Deque) -> TwoRuns<'_>
    ensures front { result.front.now ≡ front_run slots.now (rec_of q) 0 q.len }
    ensures back { result.back.now ≡ back_run slots.now (rec_of q) 0 q.len }
    ensures list { on_queue (length slots.now) (rec_of q) 0 ≡ 0 → listed result ≡ held slots.now (rec_of q) }
{
    both_runs(slots, q, 0, q.len)
}
