// The first longest exact palindrome of a string.
ghost use Rattle.std.specs.Prelude.{◌+◌, ◌≤◌, ◌<◌, length};
ghost use Rattle.terms.specs.Passed.{SoundString};
ghost use Rattle.longest.specs.Longest.{FirstLongest, PartOf};
ghost use Rattle.longest.specs.Work.{Longer};

use spans::centre_count;
use spans::outward::walk;
use terms::alphabets;
use texts::Text;

// A part of a string by its place; of no letters where there is no palindrome, since that empty part is what `longest` hands back.
#[derive(Clone, Copy)]
pub struct Span {
    pub start: usize,
    pub len: usize,
}

// Of the best so far and the palindrome of length letters at the centre c, the longer; the best stays among equals.
fn longer_of(best: Span, c: usize, length: usize) -> Span
    requires { (c < 2000) × (length ≤ c + 1) }
    ensures { Longer best c length result }
{
    if best.len < length {
        return Span {
            start: (c + 1 - length) / 2,
            len: length,
        };
    }
    best
}

// Through all centres in order, with all 256 bytes for alphabet: of equal lengths the smaller centre starts earlier.
pub(crate) fn first_longest(s: &[u8], map: &[u8]) -> Span
    requires { SoundString s.now map.now }
    ensures { FirstLongest s.now map.now result.start result.len }
{
    let all = alphabets::all();
    let text = Text {
        letters: s,
        map,
        alphabet: &all,
    };
    let own = text.own_partner();
    let mut best = Span { start: 0, len: 0 };
    for c in 0..centre_count(s.len()) {
        let found = walk(text, 0, c, own);
        best = longer_of(best, c, usize::from(found.length));
    }
    best
}

// The letters of s in the span.
pub(crate) fn part(s: &[u8], span: Span) -> &[u8]
    requires { span.start + span.len ≤ length s.now }
    ensures { PartOf result s.entry span.start span.len }
{
    &s[span.start..span.start + span.len]
}
