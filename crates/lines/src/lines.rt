// The lines of the replay program, as bytes. Each function puts its
// bytes from a position on, and gives the position behind them.
ghost use Rattle.std.specs.Prelude.{◌≡◌, ◌∷◌, [], ◌++◌, ◌+◌, ◌≤◌, length};
ghost use Rattle.rules.specs.Replays.{answer_line, broken_line, decimal, handed_word, newline, number_or_none, space, spaced};
ghost use Rattle.queue.specs.Answers.{rec_of};
ghost use Rattle.journals.specs.Records.{entry_for};
ghost use Rattle.elements.specs.Answers.{given};
ghost use Rattle.answers.specs.Answers.{number_told, of_answer};
ghost use Rattle.lines.specs.Puts.{Puts, four_numbers};

use super::decimals::put_decimal;
use answers::Answer;
use journals::Operation;
use queue::{Deque, Refusal};

// Puts a text.
fn put_text(out: &mut [u8], at: usize, text: &[u8]) -> usize
    requires { at + length text.now ≤ length out.old }
    ensures { Puts out.old out.new at result text.now }
{
    let end = at + text.len();
    out[at..end].copy_from_slice(text);
    end
}

// Puts a newline.
pub fn put_newline(out: &mut [u8], at: usize) -> usize
    requires { at + 1 ≤ length out.old }
    ensures { Puts out.old out.new at result (newline ∷ []) }
{
    put_text(out, at, b"\n")
}

// Puts `end`, the last line's first word.
pub fn put_end(out: &mut [u8], at: usize) -> usize
    requires { at + 3 ≤ length out.old }
    ensures { Puts out.old out.new at result (101 ∷ 110 ∷ 100 ∷ []) }
{
    put_text(out, at, b"end")
}

// Puts n after a space.
pub fn put_word(out: &mut [u8], at: usize, n: usize) -> usize
    requires { at + 21 ≤ length out.old }
    ensures { Puts out.old out.new at result (space ∷ decimal n) × (result ≤ at + 21) }
{
    let behind = put_text(out, at, b" ");
    put_decimal(out, behind, n)
}

// Puts the number that was handed over, or `none`, after a space.
fn put_given(out: &mut [u8], at: usize, handed: Option<u32>) -> usize
    requires { at + 21 ≤ length out.old }
    ensures { Puts out.old out.new at result (space ∷ number_or_none (given handed)) × (result ≤ at + 21) }
{
    match handed {
        Some(number) => put_word(out, at, number as usize),
        None => put_text(out, at, b" none"),
    }
}

// Puts what was handed over, for the operations whose line says it.
fn put_handed(out: &mut [u8], at: usize, operation: Operation, handed: Option<u32>) -> usize
    requires { at + 21 ≤ length out.old }
    ensures { Puts out.old out.new at result (spaced (handed_word (entry_for operation) (given handed)))
        × (result ≤ at + 21) }
{
    match operation {
        Operation::PopFront | Operation::PopBack | Operation::Remove(_) => {
            put_given(out, at, handed)
        }
        _ => at,
    }
}

// Puts the four numbers that begin every record's line, parted by one space: refusal, moved, head and len.
fn put_numbers(out: &mut [u8], at: usize, refused: usize, moved: usize, q: Deque) -> usize
    requires { at + 83 ≤ length out.old }
    ensures { Puts out.old out.new at result (four_numbers refused moved (rec_of q)) × (result ≤ at + 83) }
{
    let a = put_decimal(out, at, refused);
    let b = put_word(out, a, moved);
    let c = put_word(out, b, q.head.as_index());
    put_word(out, c, q.len)
}

// The number that a line tells of a call: its refusal's, 0 if there is none.
fn number_told(refused: Option<Refusal>) -> usize
    ensures { result ≡ number_told refused }
{
    match refused {
        None => 0,
        Some(refusal) => usize::from(refusal.number()),
    }
}

// Puts the line of a record: what its operation answered, and the queue, which was `before` ahead of it.
pub fn answer_line(
    out: &mut [u8],
    at: usize,
    before: Deque,
    operation: Operation,
    done: Answer,
) -> usize
    requires { at + 105 ≤ length out.old }
    ensures { Puts out.old out.new at result
        (answer_line (rec_of before) (entry_for operation) (of_answer done)) × (result ≤ at + 105) }
{
    let refused = number_told(done.refused);
    let queue = done.record_or(before);
    let a = put_numbers(out, at, refused, done.moved, queue);
    let b = put_handed(out, a, operation, done.handed);
    put_newline(out, b)
}

// Puts the line of a broken, unknown or cut record.
pub fn broken_line(out: &mut [u8], at: usize, q: Deque) -> usize
    requires { at + 84 ≤ length out.old }
    ensures { Puts out.old out.new at result (broken_line (rec_of q)) × (result ≤ at + 84) }
{
    let refused = usize::from(Refusal::Image.number());
    let a = put_numbers(out, at, refused, 0, q);
    put_newline(out, a)
}
