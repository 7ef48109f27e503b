// The calls of a sequence, as values: in groups by what they are made on, as in the rules, and within these by what
// they answer.
// Stays: values that are matched on and no closures, since the rules, the contract of `turns::turn` and its theorems
// name the calls.
#![tactic(auto)]

use conditions::Test;

// Calls that hand nothing over and take numbers alone.
#[derive(Clone, Copy)]
pub enum Edit {
    PushBack(u32),
    PushFront(u32),
    Truncate(usize),
    TruncateFront(usize),
    Clear,
    Resize(usize, u32),
    Insert(usize, u32),
    Swap(usize, usize),
    Retain(Test),
}

// Calls that take the values that are lent with them.
#[derive(Clone, Copy)]
pub enum Join<'a> {
    Extend(&'a [u32]),
    Prepend(&'a [u32]),
    ExtendFront(&'a [u32]),
    Splice(usize, usize, &'a [u32]),
}

// Calls that hand an element over.
#[derive(Clone, Copy)]
pub enum Removal {
    PopFront,
    PopBack,
    PopFrontIf(Test),
    PopBackIf(Test),
    Remove(usize),
    SwapRemoveFront(usize),
    SwapRemoveBack(usize),
}

// The calls that can change a queue of which no drain is open. `ReadImage` takes the bytes that are lent with it.
#[derive(Clone, Copy)]
pub enum QueueChange<'a> {
    Editing(Edit),
    Joining(Join<'a>),
    Removing(Removal),
    Fresh,
    ReadImage(&'a [u8]),
    Drain(usize, usize),
}

// The calls that only look at it. Not among them: a walk's, which keeps a record of its own, and `write_image`, to
// which bytes are lent to be written.
#[derive(Clone, Copy)]
pub enum Ask {
    Get(usize),
    Front,
    Back,
    Contains(u32),
    SliceRanges(usize, usize),
    BinarySearch(u32),
    PartitionPoint(Test),
}

// Both.
#[derive(Clone, Copy)]
pub enum QueueCall<'a> {
    Changing(QueueChange<'a>),
    Asking(Ask),
}

// The calls of its open drain.
#[derive(Clone, Copy)]
pub enum DrainCall {
    Next,
    NextBack,
    Close,
}

// The calls that only look at two queues.
#[derive(Clone, Copy)]
pub enum AskBoth {
    Eq,
    Cmp,
}

// The calls on two queues of which no drain is open: `Append` takes the other queue's elements, `SplitOff` and
// `MoveAll` fill the other's slots, `MovePortion` passes elements on to the other.
#[derive(Clone, Copy)]
pub enum PairCall {
    Append,
    SplitOff(usize),
    MoveAll,
    MovePortion(usize),
    Comparing(AskBoth),
}

// A call on a queue, of its drain, or on both.
#[derive(Clone, Copy)]
pub enum Call<'a> {
    OfQueue(QueueCall<'a>),
    OfDrain(DrainCall),
    OfBoth(PairCall),
}

// The queue that a call is made on.
#[derive(Clone, Copy)]
pub enum Side {
    A,
    B,
}
