// Palindromes of a lent string: error counts, and the maximal lengths of all centres.
#![tactic(auto)]

pub mod outward;
pub mod pairs;

ghost use Rattle.std.specs.Prelude.{◌≡◌, ◌≤◌, length};
ghost use Rattle.terms.specs.Refusals.{first_fault, fault_of};
ghost use Rattle.terms.specs.Passed.{SoundText};
ghost use Rattle.texts.specs.Lent.{text_of};
ghost use Rattle.spans.specs.Palindromes.{centres};
ghost use Rattle.spans.specs.Centres.{Lengths, walk_faults, centres_faults, CentresReply};

use crate::outward::walk;
use terms::limits::ERRORS;
use terms::refusal::Refusal;
use texts::Text;

// The number of centres of n letters.
pub fn centre_count(n: usize) -> usize
    requires { n ≤ 1000 }
    ensures { result ≡ centres n }
{
    if n == 0 { 0 } else { 2 * n - 1 }
}

// The maximal lengths of all centres, for a string and a map that meet no refusal; later entries stay.
// Not inlined: in its caller the walks share too few registers with the rest, and a question on all A of kind 2 costs 1.06 of the instructions.
#[inline(never)]
pub fn fill_lengths(text: Text, d: usize, out: &mut [u16])
    requires sound_text { SoundText (text_of text) }
    requires sizes { (d ≤ 15) × (centres (length text.letters.now) ≤ length out.old) }
    ensures { Lengths (text_of text.entry) d out.old out.new }
{
    let own = text.own_partner();
    let count = centre_count(text.letters.len());
    for (c, to) in out[..count].iter_mut().enumerate() {
        *to = walk(text, d, c, own).length;
    }
}

// The first refusal of a walk of whatever centre.
pub fn check_walk(text: Text, d: usize) -> Result<(), Refusal>
    ensures { fault_of result ≡ first_fault (walk_faults (text_of text.entry) d) }
{
    text.check()?;
    if ERRORS < d {
        return Err(Refusal::OutOfRange);
    }
    Ok(())
}

// The first refusal of the fill of the centres into `lent` entries.
fn check_centres(text: Text, d: usize, lent: usize) -> Result<(), Refusal>
    ensures { fault_of result ≡ first_fault (centres_faults (text_of text.entry) d lent) }
{
    check_walk(text, d)?;
    if lent < centre_count(text.letters.len()) {
        return Err(Refusal::TableTooShort);
    }
    Ok(())
}

// Fills the slice with the maximal lengths of all centres, and answers their number; a refused slice stays.
pub fn fill_centres(text: Text, d: usize, out: &mut [u16]) -> Result<usize, Refusal>
    ensures { CentresReply (text_of text.entry) d out.old out.new result }
{
    check_centres(text, d, out.len())?;
    fill_lengths(text, d, out);
    Ok(centre_count(text.letters.len()))
}
