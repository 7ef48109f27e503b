// A line's words as numbers: decimal digits, up to the largest usize, with one space between two words. Anything else
// is broken.
ghost use Rattle.std.specs.Prelude.{◌≡◌, ◌<◌, ◌^◌, ◌↔◌, IsSome, IfSome};
ghost use Rattle.std.specs.Str.Parse.{IsNumeral, digits_value};

use std::str;

// The number that a word writes, if it does: a sign is none of the digits.
fn number(word: &str) -> Option<usize>
    ensures writes { IsSome result ↔ (IsNumeral 10 word.now × (digits_value 10 word.now < 2 ^ 64)) }
    ensures value { IfSome result (λ n. n ≡ digits_value 10 word.now) }
{
    if word.starts_with('+') {
        return None;
    }
    word.parse().ok()
}

// The numbers of a line's words, in the front of the room for them; a broken line has none, nor has one of more words
// than have room.
pub fn numbers<'r>(line: &[u8], room: &'r mut [usize]) -> Option<&'r [usize]> {
    let text = str::from_utf8(line).ok()?;
    let numbers = room.get_mut(..text.split(' ').count())?;
    for (place, word) in numbers.iter_mut().zip(text.split(' ')) {
        *place = number(word)?;
    }
    Some(numbers)
}
