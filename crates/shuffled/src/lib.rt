// Shuffled palindromes: which stretches of a string of A to Z are palindromes when reordered.
#![tactic(auto)]

ghost use Rattle.std.specs.Prelude.{◌≡◌, true, ◌-◌, ◌≤◌, ◌<◌, ◌^◌, leb, length};
ghost use Rattle.std.specs.Int.Bits.{bit_xor};
ghost use Rattle.std.specs.Int.Count.{ones};
ghost use Rattle.terms.specs.Refusals.{first_fault, fault_of};
ghost use Rattle.shuffled.specs.Shuffled.{capitals, LongestShuffled, Longests, shuffled_faults, ShuffledReply};
ghost use Rattle.shuffled.specs.Work.{ParityWord};

use terms::LETTERS;
use terms::refusal::Refusal;

// The word of parities with one letter's bit turned round: the letter is put in, or taken out again.
fn turned(w: u32, letter: u8) -> u32
    requires { (65 ≤ letter) × (letter ≤ 90) }
    ensures { result ≡ bit_xor w (2 ^ (letter - 65)) }
{
    w ^ (1 << (letter - b'A'))
}

// Whether the letters of a word of parities are a palindrome when reordered: at most one bit is set.
fn at_most_one(w: u32) -> bool
    ensures { result ≡ leb (ones w) 1 }
{
    u32::count_ones(w) <= 1
}

// The longest length from a, whose letters up to the string's end have the word w: letters are taken out from the end on, until the rest passes.
fn longest_from(s: &[u8], a: usize, w: u32) -> u16
    requires sizes { (length s.now ≤ 1000) × (a < length s.now) × (capitals s.now ≡ true) }
    requires parity_word { ParityWord s.now a (length s.now - a) w }
    ensures { LongestShuffled s.now a result }
{
    let mut rest = w;
    let mut end = s.len();
    // No `for`: tried and proved, it tests for the end of its range besides. A line of 26 letters costs 1.37 of the instructions and 1.10 of the time, where this costs what the peer does.
    while !at_most_one(rest) {
        end -= 1;
        rest = turned(rest, s[end]);
    }
    (end - a) as u16
}

// The longest length from each start, the last start first; later entries stay.
fn fill_longest(s: &[u8], out: &mut [u16])
    requires { (length s.now ≤ 1000) × (length s.now ≤ length out.old) × (capitals s.now ≡ true) }
    ensures { Longests s.now out.old out.new }
{
    let mut w = 0u32;
    // By index: after a loop over `iter_mut` from its end, a proof knows the slice's length and none of its entries.
    for a in (0..s.len()).rev() {
        w = turned(w, s[a]);
        out[a] = longest_from(s, a, w);
    }
}

// Whether every byte is one of A to Z.
fn only_capitals(s: &[u8]) -> bool
    ensures { result ≡ capitals s.now }
{
    s.iter().all(|b| b.is_ascii_uppercase())
}

// The first refusal of the fill into `lent` entries.
#[tactic(auto, unfolding(crate::specs::Shuffled::shuffled_faults, terms::specs::Refusals::first_fault))]
fn check_shuffled(s: &[u8], lent: usize) -> Result<(), Refusal>
    ensures { fault_of result ≡ first_fault (shuffled_faults s.now lent) }
{
    if LETTERS < s.len() {
        return Err(Refusal::StringTooLong);
    }
    if !only_capitals(s) {
        return Err(Refusal::NoCapital);
    }
    if lent < s.len() {
        return Err(Refusal::TableTooShort);
    }
    Ok(())
}

// Fills the slice with the longest shuffled palindrome's length from each start; a refused slice stays.
pub fn fill_shuffled(s: &[u8], out: &mut [u16]) -> Result<(), Refusal>
    ensures { ShuffledReply s.now out.old out.new result }
{
    check_shuffled(s, out.len())?;
    fill_longest(s, out);
    Ok(())
}
