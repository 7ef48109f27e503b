// Saved images: a queue's elements as bytes, and bytes as a queue's elements.
#![tactic(auto)]

ghost use Rattle.std.specs.Prelude.{true, ◌≡◌, ◌∷◌, [], ◌++◌, ◌+◌, ◌*◌, ◌≤◌, ◌<◌, length, take, drop};
ghost use Rattle.std.proofs.lemmas.List.Edits.{sets};
ghost use Rattle.rules.specs.Images.{two_bytes, four_bytes, big_endian, version, all_bytes, how_many, laid_out, fours};
ghost use Rattle.rules.specs.Makes.{told_make, read_image};
ghost use Rattle.rules.specs.Records.{held};
ghost use Rattle.queue.specs.Answers.{Fits, rec_of, of_made};
ghost use Rattle.queue.specs.Looks.{seen};
ghost use Rattle.images.specs.Answers.{told_writing};

use queue::{Change, Deque, Refusal};

// The bytes in front of the elements: two for the number of bytes that follow, and one for the version.
const FRONT_BYTES: usize = 3;

// The bytes of an element.
const ELEMENT_BYTES: usize = 4;

// The version of the layout.
const VERSION: u8 = 1;

// The most elements that an image holds.
const MOST_ELEMENTS: usize = 16000;

// The number of the two bytes from `at` on, big-endian.
#[tactic(auto, using(crate::proofs::Bytes::two_there))]
pub fn two_at(bytes: &[u8], at: usize) -> usize
    requires { at + 2 ≤ length bytes.now }
    ensures { result ≡ big_endian 0 (take 2 (drop at bytes.now)) }
{
    usize::from(u16::from_be_bytes(*bytes[at..].first_chunk().unwrap()))
}

// The number of the four bytes from `at` on, big-endian.
#[tactic(auto, using(crate::proofs::Bytes::four_there))]
pub fn four_at(bytes: &[u8], at: usize) -> u32
    requires { at + 4 ≤ length bytes.now }
    ensures { result ≡ big_endian 0 (take 4 (drop at bytes.now)) }
{
    u32::from_be_bytes(*bytes[at..].first_chunk().unwrap())
}

// Puts the number of bytes that follow, and the version.
#[tactic(auto, using(crate::proofs::Bytes::part_sets), unfolding(rules::specs::Images::two_bytes))]
fn put_front(target: &mut [u8], after: u16)
    requires { 3 ≤ length target.old }
    ensures { target.new ≡ sets target.old 0 (two_bytes after ++ version ∷ []) }
{
    let [high, low] = after.to_be_bytes();
    target[..FRONT_BYTES].copy_from_slice(&[high, low, VERSION]);
}

// Puts v as four bytes from `at` on, big-endian.
#[tactic(auto, using(crate::proofs::Bytes::part_sets), unfolding(rules::specs::Images::four_bytes))]
fn put_four(target: &mut [u8], at: usize, v: u32)
    requires { at + 4 ≤ length target.old }
    ensures { target.new ≡ sets target.old at (four_bytes v) }
{
    target[at..at + ELEMENT_BYTES].copy_from_slice(&v.to_be_bytes());
}

// Puts the elements of a queue behind the first three bytes.
#[tactic(auto, using(crate::proofs::Writing::puts))]
fn put_elements(slots: &[u32], q: Deque, target: &mut [u8])
    requires { Fits (length slots.now) q × (3 + 4 * q.len ≤ length target.old) }
    ensures { target.new ≡ sets target.old 3 (all_bytes (held slots.now (rec_of q))) }
{
    for i in 0..q.len {
        let v = slots[places::wrap_add(slots.len(), q.head, i).as_index()];
        put_four(target, FRONT_BYTES + ELEMENT_BYTES * i, v);
    }
}

// Writes the image of a queue into the first bytes of `target`, and keeps the later ones.
#[tactic(auto, using(crate::proofs::Writing::returns))]
pub fn write_image(slots: &[u32], q: Deque, target: &mut [u8]) -> Result<usize, Refusal>
    ensures { (seen result, target.new) ≡ told_writing slots.now (rec_of q) target.old }
{
    queue::check(slots.len(), q)?;
    let after = 1 + ELEMENT_BYTES * q.len;
    let count = 2 + after;
    if target.len() < count {
        return Err(Refusal::Room);
    }
    put_front(target, after as u16);
    put_elements(slots, q, target);
    Ok(count)
}

// How many elements the bytes hold behind the first three.
#[tactic(auto, unfolding(rules::specs::Images::how_many))]
fn how_many(bytes: &[u8]) -> usize
    ensures count { result ≡ how_many bytes.now }
    ensures within { 4 * result ≤ length bytes.now }
{
    bytes.len().saturating_sub(FRONT_BYTES) / ELEMENT_BYTES
}

// Whether the bytes keep the layout of an image.
#[tactic(auto, using(std::proofs::lemmas::Bool::Decides::nat_tests), unfolding(rules::specs::Images::laid_out))]
fn laid_out(bytes: &[u8]) -> bool
    ensures layout { result ≡ laid_out bytes.now }
    ensures size { result ≡ true → length bytes.now ≡ 3 + 4 * how_many bytes.now }
{
    let n = how_many(bytes);
    let after = 1 + ELEMENT_BYTES * n;
    bytes.len() == 2 + after
        && two_at(bytes, 0) == after
        && bytes[2] == VERSION
        && n <= MOST_ELEMENTS
}

// Fills the slots with the numbers of four bytes each.
#[tactic(auto, using(crate::proofs::Reading::takes))]
fn take_elements(slots: &mut [u32], bytes: &[u8])
    requires { 4 * length slots.old ≤ length bytes.now }
    ensures { slots.new ≡ fours (length slots.old) bytes.now }
{
    for (i, slot) in slots.iter_mut().enumerate() {
        *slot = four_at(bytes, ELEMENT_BYTES * i);
    }
}

// Reads an image into bare slots, and makes the record of its elements.
#[tactic(auto, using(crate::proofs::Reading::returns), unfolding(queue::specs::Answers::number_of))]
pub fn read_image(slots: &mut [u32], bytes: &[u8]) -> Result<Change<Deque>, Refusal>
    ensures { (of_made result, slots.new) ≡ told_make (read_image slots.old bytes.now) }
{
    if slots.len() > rules::most_slots() {
        return Err(Refusal::Slots);
    }
    if !laid_out(bytes) {
        return Err(Refusal::Image);
    }
    let n = how_many(bytes);
    if slots.len() < n {
        return Err(Refusal::Room);
    }
    take_elements(&mut slots[..n], &bytes[FRONT_BYTES..]);
    Ok(Change {
        after: queue::new_record(n),
        moved: 0,
    })
}
