// The fields of a line: a byte, a number, four numbers. Lent to `inspect`.
// Each is read at a place of the whole line, as the definitions give it; so line and place come together, and no rest of a line.
ghost use Rattle.std.specs.Prelude.{◌≡◌, ◌+◌, ◌≤◌, length};
ghost use Rattle.lines.specs.Work.{digit_at, stands, number_at, number_after, four_after};

use terms::limits::Limits;

// The digit at a place, if one stands there.
#[tactic(auto, unfolding(crate::specs::Work::digit_at))]
fn digit(s: &[u8], i: usize) -> Option<usize>
    ensures { result ≡ digit_at s.now i }
{
    match *s.get(i)? {
        b @ b'0'..=b'9' => Some(usize::from(b - b'0')),
        _ => None,
    }
}

// Whether a byte stands at a place.
#[tactic(auto, unfolding(crate::specs::Work::stands))]
pub fn stands(s: &[u8], i: usize, b: u8) -> bool
    ensures { result ≡ stands s.now i b }
{
    s.get(i) == Some(&b)
}

// A number of 1 to 4 digits, no leading zero but 0 itself, with the place after it.
#[tactic(auto, using(crate::proofs::Standing::digit_most, crate::proofs::Numerals::begun_first, crate::proofs::Numerals::begun_next), unfolding(crate::specs::Work::number_of))]
fn number(s: &[u8], i: usize) -> Option<(usize, usize)>
    requires { i ≤ length s.now }
    ensures { result ≡ number_at s.now i }
{
    let mut value = digit(s, i)?;
    for next in i + 1..i + 5 {
        let Some(d) = digit(s, next) else {
            return Some((value, next));
        };
        if value == 0 {
            return None;
        }
        value = value * 10 + d;
    }
    None
}

// A space at a place, and the number behind it, with the place after it.
#[tactic(auto, unfolding(crate::specs::Work::number_after, crate::specs::Work::stands))]
pub fn number_after(s: &[u8], i: usize) -> Option<(usize, usize)>
    ensures { result ≡ number_after s.now i }
{
    if stands(s, i, b' ') {
        number(s, i + 1)
    } else {
        None
    }
}

// Four numbers, a space before each: kind, m, g and d, with the place after them.
#[tactic(auto, unfolding(crate::specs::Work::four_after))]
pub fn four_after(s: &[u8], i: usize) -> Option<(Limits, usize)>
    ensures { result ≡ four_after s.now i }
{
    let (kind, a) = number_after(s, i)?;
    let (m, b) = number_after(s, a)?;
    let (g, c) = number_after(s, b)?;
    let (d, next) = number_after(s, c)?;
    Some((Limits { kind, m, g, d }, next))
}
