// The longest palindrome of one string and of two, handed back as part of the caller's own.
#![tactic(auto)]

mod search;

ghost use Rattle.std.specs.Prelude.{◌≡◌};
ghost use Rattle.terms.specs.Refusals.{first_fault, fault_of};
ghost use Rattle.terms.specs.Texts.{string_faults, pair_faults};
ghost use Rattle.longest.specs.Longest.{HandsLongest, HandsLonger};

use crate::search::{Span, first_longest, part};
use terms::refusal::Refusal;

// String and map stand apart: the part handed back may outlive the map, which one lifetime for both would forbid, and `longer` has two strings with one map.

// The first refusal of the longest palindrome of a string.
pub fn check_longest(s: &[u8], map: &[u8]) -> Result<(), Refusal>
    ensures { fault_of result ≡ first_fault (string_faults s.now map.now) }
{
    texts::check_string(s, map)
}

// The first longest exact palindrome, as that part of the caller's own string; an empty part at the start for none and for a refusal.
pub fn longest<'a>(s: &'a [u8], map: &[u8]) -> &'a [u8]
    ensures { HandsLongest result s.entry map.now }
{
    if check_longest(s, map).is_err() {
        return part(s, Span { start: 0, len: 0 });
    }
    part(s, first_longest(s, map))
}

// The first refusal of the longer palindrome of two strings: either too long counts as 1.
pub fn check_longer(s: &[u8], t: &[u8], map: &[u8]) -> Result<(), Refusal>
    ensures { fault_of result ≡ first_fault (pair_faults s.now t.now map.now) }
{
    texts::check_pair(s, t, map)
}

// The longer of two strings' longest palindromes, as part of the string that holds it; of equals, the first string's.
pub fn longer<'a>(s: &'a [u8], t: &'a [u8], map: &[u8]) -> &'a [u8]
    ensures { HandsLonger result s.entry t.entry map.now }
{
    if check_longer(s, t, map).is_err() {
        return part(s, Span { start: 0, len: 0 });
    }
    let mine = first_longest(s, map);
    let other = first_longest(t, map);
    if mine.len < other.len {
        return part(t, other);
    }
    part(s, mine)
}
