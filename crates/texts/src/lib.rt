// A string with its map and alphabet, an opening's refusals, and those of two strings with one map.
#![tactic(auto)]

mod flags;

ghost use Rattle.std.specs.Prelude.{◌≡◌};
ghost use Rattle.terms.specs.Refusals.{first_fault, fault_of};
ghost use Rattle.terms.specs.Texts.{string_faults, text_faults, pair_faults, opening_faults};
ghost use Rattle.texts.specs.Lent.{text_of};

use terms::limits::Limits;
use terms::refusal::Refusal;
use terms::{LETTERS, maps};

// The first refusal that a string and a map meet. They come apart and in no `Text`: `longest` asks them with no alphabet.
pub fn check_string(s: &[u8], map: &[u8]) -> Result<(), Refusal>
    ensures { fault_of result ≡ first_fault (string_faults s.now map.now) }
{
    if LETTERS < s.len() {
        return Err(Refusal::StringTooLong);
    }
    maps::check(map)
}

// The same for two strings with one map, and so in no struct: either too long counts.
pub fn check_pair(s: &[u8], t: &[u8], map: &[u8]) -> Result<(), Refusal>
    ensures { fault_of result ≡ first_fault (pair_faults s.now t.now map.now) }
{
    if LETTERS < t.len() {
        return Err(Refusal::StringTooLong);
    }
    check_string(s, map)
}

// A string with its map and alphabet, lent.
// No invariant of sizes: `check` answers of any string and any map, and what asks for sizes says so. Limits stand beside it: walks, centres and records need none.
#[derive(Clone, Copy)]
pub struct Text<'a> {
    pub letters: &'a [u8],
    pub map: &'a [u8],
    pub alphabet: &'a [u8],
}

impl<'a> Text<'a> {
    // The first refusal that the string, the map and the alphabet meet.
    pub fn check(self) -> Result<(), Refusal>
        ensures { fault_of result ≡ first_fault (text_faults (text_of self.entry)) }
    {
        check_string(self.letters, self.map)?;
        self.check_alphabet()
    }

    // The first refusal that an opening meets.
    pub fn check_opening(self, limits: Limits) -> Result<(), Refusal>
        ensures { fault_of result ≡ first_fault (opening_faults (text_of self.entry) limits) }
    {
        self.check()?;
        limits.check()
    }
}
