// Operations, and the bytes that name them.
ghost use Rattle.std.specs.Prelude.{◌≡◌, ◌+◌, ◌*◌, ◌≤◌, length, MatchOption};
ghost use Rattle.rules.specs.Journals.{entry_of, length_of, word_at};
ghost use Rattle.journals.specs.Records.{code_of, entry_for, operands_of};

// The nine operations of a journal, with their operands.
#[derive(Clone, Copy)]
pub enum Operation {
    PushBack(u32),
    PushFront(u32),
    PopFront,
    PopBack,
    Drain(u32, u32),
    Truncate(u32),
    TruncateFront(u32),
    Insert(u32, u32),
    Remove(u32),
}

// An operation without its operands.
#[derive(Clone, Copy)]
pub enum Kind {
    PushBack,
    PushFront,
    PopFront,
    PopBack,
    Drain,
    Truncate,
    TruncateFront,
    Insert,
    Remove,
}

// The operand that stands at a position.
#[tactic(auto, unfolding(rules::specs::Journals::word_at))]
fn operand_at(bytes: &[u8], at: usize) -> u32
    requires { at + 4 ≤ length bytes.now }
    ensures { result ≡ word_at bytes.now at }
{
    images::four_at(bytes, at)
}

impl Kind {
    // The operation that a byte names; `None` where it names none.
    pub fn of_byte(byte: u8) -> Option<Kind>
        ensures { MatchOption result (length_of byte ≡ 0) (λ k. byte ≡ code_of k) }
    {
        match byte {
            1 => Some(Kind::PushBack),
            2 => Some(Kind::PushFront),
            3 => Some(Kind::PopFront),
            4 => Some(Kind::PopBack),
            5 => Some(Kind::Drain),
            6 => Some(Kind::Truncate),
            7 => Some(Kind::TruncateFront),
            8 => Some(Kind::Insert),
            9 => Some(Kind::Remove),
            _ => None,
        }
    }

    // How long its record says that it is: a version, this byte, and four bytes for each operand.
    #[tactic(auto, unfolding(rules::specs::Journals::length_of, rules::specs::Choices::whether))]
    pub fn length(self) -> usize
        ensures told { result ≡ length_of (code_of self) }
        ensures operands { result ≡ 2 + 4 * operands_of self }
    {
        match self {
            Kind::PopFront | Kind::PopBack => 2,
            Kind::Drain | Kind::Insert => 10,
            _ => 6,
        }
    }

    // The operation with its operands, which stand from `at` on.
    #[tactic(auto, unfolding(rules::specs::Journals::entry_of, rules::specs::Choices::whether))]
    pub fn operation(self, bytes: &[u8], at: usize) -> Operation
        requires { at + 4 * operands_of self ≤ length bytes.now }
        ensures { entry_for result ≡ entry_of (code_of self) (word_at bytes.now at) (word_at bytes.now (at + 4)) }
    {
        match self {
            Kind::PushBack => Operation::PushBack(operand_at(bytes, at)),
            Kind::PushFront => Operation::PushFront(operand_at(bytes, at)),
            Kind::PopFront => Operation::PopFront,
            Kind::PopBack => Operation::PopBack,
            Kind::Drain => Operation::Drain(operand_at(bytes, at), operand_at(bytes, at + 4)),
            Kind::Truncate => Operation::Truncate(operand_at(bytes, at)),
            Kind::TruncateFront => Operation::TruncateFront(operand_at(bytes, at)),
            Kind::Insert => Operation::Insert(operand_at(bytes, at), operand_at(bytes, at + 4)),
            Kind::Remove => Operation::Remove(operand_at(bytes, at)),
        }
    }
}
