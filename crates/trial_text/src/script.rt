// A line of a script: the queue that it calls on, and what it does there. Only this file knows the calls' numbers.
ghost use Rattle.std.specs.Prelude.{◌≡◌, ◌<◌, ◌≤◌, ◌↔◌, length, IsSome, IfSome, slice_index};

use conditions::Test;
use places::WrappedIndex;
use queue::{Deque, Drain, State, Walk};
use turn_calls::{
    Ask, AskBoth, Call, DrainCall, Edit, Join, PairCall, QueueCall, QueueChange, Removal, Side,
};

// The most words of a line.
pub const WORDS: usize = 2000;

// The most bytes of an image's target, and the byte that each of them is at first.
const TARGET: usize = 64100;

const UNWRITTEN: u8 = 238;

// Room for the values of a line's list, as elements or as bytes, and for an image's target.
#[derive(Drop)]
pub struct Room {
    elements: [u32; WORDS],
    bytes: [u8; WORDS],
    target: [u8; TARGET],
}

// What a line does: a call of a sequence, a look that no sequence has, a call of a walk, or the setting of a state. A
// list and a target stand in the room.
#[derive(Drop)]
pub enum Action<'r> {
    Turn(Call<'r>),
    FrontRun(usize, usize),
    BackRun(usize, usize),
    WriteImage(&'r mut [u8]),
    BeginWalk,
    WalkNext,
    WalkNextBack,
    SetState(State),
    SetWalk(Walk),
    Plant(Deque),
}

// A line: the queue that it calls on, and what it does.
#[derive(Drop)]
pub struct Line<'r> {
    pub side: Side,
    pub action: Action<'r>,
}

// A call that can change one queue.
fn change(change: QueueChange) -> Action {
    Action::Turn(Call::OfQueue(QueueCall::Changing(change)))
}

// A call that hands nothing over and takes numbers alone.
fn edit<'r>(edit: Edit) -> Action<'r> {
    change(QueueChange::Editing(edit))
}

// A call that takes a list of elements.
fn join(join: Join) -> Action {
    change(QueueChange::Joining(join))
}

// A call that hands an element over.
fn removal<'r>(removal: Removal) -> Action<'r> {
    change(QueueChange::Removing(removal))
}

// A call that only looks at one queue.
fn ask<'r>(ask: Ask) -> Action<'r> {
    Action::Turn(Call::OfQueue(QueueCall::Asking(ask)))
}

// A call of an open drain.
fn drain_call<'r>(call: DrainCall) -> Action<'r> {
    Action::Turn(Call::OfDrain(call))
}

// A call on both queues.
fn pair_call<'r>(call: PairCall) -> Action<'r> {
    Action::Turn(Call::OfBoth(call))
}

// A number as an element.
fn element(number: usize) -> Option<u32> {
    u32::try_from(number).ok()
}

// A test by its kind and the number that it compares with.
fn test(kind: usize, k: usize) -> Option<Test> {
    let k = element(k)?;
    match kind {
        1 => Some(Test::Below(k)),
        2 => Some(Test::AtLeast(k)),
        3 => Some(Test::Equal(k)),
        4 => Some(Test::NotEqual(k)),
        _ => None,
    }
}

// A record of any two numbers, its mark 0 or 1.
fn record(head: usize, len: usize, mark: usize) -> Option<Deque> {
    if mark > 1 {
        return None;
    }
    Some(Deque {
        head: WrappedIndex::from_arbitrary_number(head),
        len,
        mark: mark == 1,
    })
}

// The values of a list, which are as many as its first number says.
fn list(numbers: &[usize]) -> Option<&[usize]> {
    let (count, values) = numbers.split_first()?;
    if *count == values.len() {
        return Some(values);
    }
    None
}

// Numbers as elements or as bytes, in the front of the room for them, if each of them fits.
fn narrow<'r, T>(numbers: &[usize], room: &'r mut [T]) -> Option<&'r [T]>
where
    T: TryFrom<usize, Error: Drop> + Drop,
{
    let values = room.get_mut(..numbers.len())?;
    for (value, number) in values.iter_mut().zip(numbers) {
        *value = T::try_from(*number).ok()?;
    }
    Some(values)
}

impl Room {
    // With nothing in it yet.
    pub fn new() -> Room {
        Room {
            elements: [0; WORDS],
            bytes: [0; WORDS],
            target: [0; TARGET],
        }
    }

    // The values of a list as elements.
    fn elements(&mut self, numbers: &[usize]) -> Option<&[u32]> {
        narrow(list(numbers)?, &mut self.elements)
    }

    // The values of a list as bytes.
    fn bytes(&mut self, numbers: &[usize]) -> Option<&[u8]> {
        narrow(list(numbers)?, &mut self.bytes)
    }

    // An image's target of so many bytes.
    fn target(&mut self, len: usize) -> Option<&mut [u8]> {
        let target = self.target.get_mut(..len)?;
        target.fill(UNWRITTEN);
        Some(target)
    }
}

// The action of a number, with its operands.
fn action_of<'r>(number: usize, operands: &[usize], room: &'r mut Room) -> Option<Action<'r>> {
    Some(match (number, operands) {
        (0, []) => change(QueueChange::Fresh),
        (1, &[x]) => edit(Edit::PushBack(element(x)?)),
        (2, &[x]) => edit(Edit::PushFront(element(x)?)),
        (3, []) => removal(Removal::PopFront),
        (4, []) => removal(Removal::PopBack),
        (5, &[kind, k]) => removal(Removal::PopFrontIf(test(kind, k)?)),
        (6, &[kind, k]) => removal(Removal::PopBackIf(test(kind, k)?)),
        (7, &[i]) => ask(Ask::Get(i)),
        (8, []) => ask(Ask::Front),
        (9, []) => ask(Ask::Back),
        (10, &[n]) => edit(Edit::Truncate(n)),
        (11, &[n]) => edit(Edit::TruncateFront(n)),
        (12, []) => edit(Edit::Clear),
        (13, values) => join(Join::Extend(room.elements(values)?)),
        (14, values) => join(Join::Prepend(room.elements(values)?)),
        (15, values) => join(Join::ExtendFront(room.elements(values)?)),
        (16, &[n, x]) => edit(Edit::Resize(n, element(x)?)),
        (17, &[i, x]) => edit(Edit::Insert(i, element(x)?)),
        (18, &[i]) => removal(Removal::Remove(i)),
        (19, &[i, j]) => edit(Edit::Swap(i, j)),
        (20, &[i]) => removal(Removal::SwapRemoveFront(i)),
        (21, &[i]) => removal(Removal::SwapRemoveBack(i)),
        (22, []) => pair_call(PairCall::Append),
        (23, &[at]) => pair_call(PairCall::SplitOff(at)),
        (24, &[kind, k]) => edit(Edit::Retain(test(kind, k)?)),
        (25, &[x]) => ask(Ask::Contains(element(x)?)),
        (26, []) => pair_call(PairCall::Comparing(AskBoth::Eq)),
        (27, []) => pair_call(PairCall::Comparing(AskBoth::Cmp)),
        (28, &[start, end]) => ask(Ask::SliceRanges(start, end)),
        (29, &[start, end]) => Action::FrontRun(start, end),
        (30, &[start, end]) => Action::BackRun(start, end),
        (31, &[x]) => ask(Ask::BinarySearch(element(x)?)),
        (32, &[kind, k]) => ask(Ask::PartitionPoint(test(kind, k)?)),
        (33, [start, end, values @ ..]) => {
            join(Join::Splice(*start, *end, room.elements(values)?))
        }
        (34, &[start, end]) => change(QueueChange::Drain(start, end)),
        (35, []) => drain_call(DrainCall::Next),
        (36, []) => drain_call(DrainCall::NextBack),
        (37, []) => drain_call(DrainCall::Close),
        (38, []) => Action::BeginWalk,
        (39, []) => Action::WalkNext,
        (40, []) => Action::WalkNextBack,
        (41, values) => change(QueueChange::ReadImage(room.bytes(values)?)),
        (42, &[len]) => Action::WriteImage(room.target(len)?),
        (43, []) => pair_call(PairCall::MoveAll),
        (44, &[n]) => pair_call(PairCall::MovePortion(n)),
        (90, &[head, len, mark]) => Action::SetState(State::Shut(record(head, len, mark)?)),
        (91, &[head, start, drain_len, idx, tail_len, remaining]) => {
            Action::SetState(State::Draining(Drain {
                head: WrappedIndex::from_arbitrary_number(head),
                start,
                drain_len,
                idx,
                tail_len,
                remaining,
            }))
        }
        (92, &[head, len, mark, low, high]) => Action::SetWalk(Walk {
            queue: record(head, len, mark)?,
            low,
            high,
        }),
        (93, &[head, len]) => Action::Plant(record(head, len, 0)?),
        (94, []) => Action::SetState(State::Shut(queue::new_record(0))),
        _ => return None,
    })
}

// The queue of a number.
fn side_of(number: usize) -> Option<Side>
    ensures known { IsSome result ↔ (number < 2) }
    ensures a { IfSome result (λ side. side ≡ Side.A ↔ (number ≡ 0)) }
    ensures b { IfSome result (λ side. side ≡ Side.B ↔ (number ≡ 1)) }
{
    match number {
        0 => Some(Side::A),
        1 => Some(Side::B),
        _ => None,
    }
}

impl<'r> Line<'r> {
    // The line that these numbers are, if they are one; the values of its list go into the room.
    pub fn new(numbers: &[usize], room: &'r mut Room) -> Option<Line<'r>>
        ensures words { IsSome result → 2 ≤ length numbers.now }
        ensures on_a { IfSome result (λ line. line.side ≡ Side.A ↔ (slice_index numbers.now 0 ≡ 0)) }
        ensures on_b { IfSome result (λ line. line.side ≡ Side.B ↔ (slice_index numbers.now 0 ≡ 1)) }
    {
        let [queue, number, operands @ ..] = numbers else {
            return None;
        };
        Some(Line {
            side: side_of(*queue)?,
            action: action_of(*number, operands, room)?,
        })
    }
}
