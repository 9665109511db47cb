// The map and the alphabet that a line names.
ghost use Rattle.std.specs.Prelude.{length};
ghost use Rattle.inspect.specs.Asking.{Begins, Follows};

use crate::alphabets::Alphabet;
use crate::maps::Map;
use lines::fields::stands;

// The place after a space that stands at a place.
#[tactic(auto, unfolding(lines::specs::Work::stands))]
pub fn space_after(s: &[u8], i: usize) -> Option<usize>
    ensures { Begins (length s.now) result }
{
    if stands(s, i, b' ') {
        Some(i + 1)
    } else {
        None
    }
}

// A letter that names nothing.
#[derive(Clone, Copy)]
pub struct Unnamed;

// A space at a place, and what the letter behind it names, with the place after the letter.
pub fn named_after<T: TryFrom<u8, Error = Unnamed>>(s: &[u8], i: usize) -> Option<(T, usize)>
    ensures { Follows (length s.now) result }
{
    let at = space_after(s, i)?;
    let letter = *s.get(at)?;
    let named = T::try_from(letter).ok()?;
    Some((named, at + 1))
}

// What a line names beside its string: a map and an alphabet.
#[derive(Clone, Copy)]
pub struct Letters {
    pub map: Map,
    pub alphabet: Alphabet,
}

// The map's letter and the alphabet's, each behind a space, with the place after them.
pub fn both_after(s: &[u8], i: usize) -> Option<(Letters, usize)>
    ensures { Follows (length s.now) result }
{
    let (map, a) = named_after(s, i)?;
    let (alphabet, next) = named_after(s, a)?;
    Some((Letters { map, alphabet }, next))
}
