// The record at a position of a journal's bytes.
ghost use Rattle.std.specs.Prelude.{◌≡◌, ◌≤◌, ◌<◌, MatchResult};
ghost use Rattle.rules.specs.Journals.{record_at, some_length};
ghost use Rattle.journals.specs.Records.{of_record};
ghost use Rattle.journals.specs.declared.records.Fault.TheVariants.{Cut};

use super::kinds::{Kind, Operation};

// The version of the layout.
const VERSION: u8 = 1;

// An operation, and the position behind its record.
#[derive(Clone, Copy)]
pub struct Record {
    pub operation: Operation,
    pub next: usize,
}

// Why no record is read: it is broken, or cut short, so that more bytes may help.
#[derive(Clone, Copy, Debug, PartialEq, Eq, Drop)]
pub enum Fault {
    Broken,
    Cut,
}

// Whether some operation has a record of that length.
#[tactic(auto, unfolding(rules::specs::Journals::some_length))]
fn some_length(n: usize) -> bool
    ensures { result ≡ some_length n }
{
    matches!(n, 2 | 6 | 10)
}

// A record is cut short unless as many of its bytes are there as are needed.
fn check_there(rest: usize, needed: usize) -> Result<(), Fault>
    ensures { MatchResult result (λ _. needed ≤ rest) (λ e. (e ≡ Cut) × (rest < needed)) }
{
    if rest < needed {
        return Err(Fault::Cut);
    }
    Ok(())
}

// The record at a position; `None` at the end of the bytes.
pub fn record_at(bytes: &[u8], at: usize) -> Result<Option<Record>, Fault>
    ensures { of_record result ≡ record_at bytes.now at }
{
    if bytes.len() <= at {
        return Ok(None);
    }
    let rest = bytes.len() - at;
    check_there(rest, 2)?;
    let length = images::two_at(bytes, at);
    if !some_length(length) {
        return Err(Fault::Broken);
    }
    check_there(rest, 3)?;
    let version = bytes[at + 2];
    if version != VERSION {
        return Err(Fault::Broken);
    }
    check_there(rest, 4)?;
    let kind = Kind::of_byte(bytes[at + 3]).ok_or(Fault::Broken)?;
    if length != kind.length() {
        return Err(Fault::Broken);
    }
    check_there(rest, 2 + length)?;
    Ok(Some(Record {
        operation: kind.operation(bytes, at + 4),
        next: at + (2 + length),
    }))
}
