// The walk of one centre, from the middle outward.
ghost use Rattle.std.specs.Prelude.{◌≡◌, not, ◌&&◌, ◌+◌, ◌-◌, ◌%◌, ◌≤◌, ◌<◌, eqb, length};
ghost use Rattle.terms.specs.Passed.{EverySound};
ghost use Rattle.texts.specs.Work.{Sized};
ghost use Rattle.spans.specs.Palindromes.{centres, MaximalLength};
ghost use Rattle.spans.specs.Stops.{Stops};
ghost use Rattle.spans.specs.Work.{Own, Unbarred};

use crate::pairs::differ;
use texts::Text;

// What stops a walk: the first pair that would exceed d, of which a middle letter is one with itself; an end of the string; or the bar.
#[derive(Clone, Copy, Debug, PartialEq, Eq)]
pub enum Stop {
    Pair { left: usize, right: usize },
    End,
    Barred,
}

// How far a walk came: the length of the longest palindrome on it, 0 where there is none, as `MaximalLength` has it, and what stops it.
#[derive(Clone, Copy, Debug, PartialEq, Eq)]
pub struct Reach {
    pub length: u16,
    pub stop: Stop,
}

// The span from a of the centre c, none where a is past the middle, with what stops it.
fn reached(c: usize, a: usize, stop: Stop) -> Reach
    requires { (c < 2000) × (a + a ≤ c + 2) }
    ensures { (result.length ≡ c + 1 - (a + a)) × (result.stop ≡ stop) }
{
    if a + a <= c {
        return Reach {
            length: (c + 1 - (a + a)) as u16,
            stop,
        };
    }
    Reach { length: 0, stop }
}

// Outward from the middle of the centre c, until an end is met or the next pair would exceed d; for every alphabet that does not bar the centre.
fn walk_out(text: Text, d: usize, c: usize) -> Reach
    requires { Sized text × (c < centres (length text.letters.now)) × (d ≤ 15) }
    ensures maximal { EverySound text.entry.letters.now text.entry.map.now (Unbarred c) (λ x. MaximalLength x d c result.length) }
    ensures stopped { EverySound text.entry.letters.now text.entry.map.now (Unbarred c) (λ x. Stops x d c result.stop) }
{
    let mut e = 0;
    for i in (0..c / 2 + 1).rev() {
        let j = c - i;
        if text.letters.len() <= j {
            return reached(c, i + 1, Stop::End);
        }
        e += differ(text, i, j);
        if d < e {
            return reached(c, i + 1, Stop::Pair { left: i, right: j });
        }
    }
    reached(c, 0, Stop::End)
}

// Whether the centre c is barred: its lengths are odd, and no letter of the alphabet is its own partner, which `own` denies.
fn bars(c: usize, own: bool) -> bool
    ensures { result ≡ (not own && eqb (c % 2) 0) }
{
    !own && c % 2 == 0
}

// The maximal length of the centre c and what stops it; `own` says whether the map has an own-partner letter within the alphabet.
// `own` stands beside the text since reckoning it takes 256 steps: once a question and not once a centre.
pub fn walk(text: Text, d: usize, c: usize, own: bool) -> Reach
    requires { Sized text × (c < centres (length text.letters.now)) × (d ≤ 15) }
    ensures maximal { EverySound text.entry.letters.now text.entry.map.now (Own own) (λ x. MaximalLength x d c result.length) }
    ensures stopped { EverySound text.entry.letters.now text.entry.map.now (Own own) (λ x. Stops x d c result.stop) }
{
    if bars(c, own) {
        return Reach {
            length: 0,
            stop: Stop::Barred,
        };
    }
    walk_out(text, d, c)
}
