// What an alphabet's flags say of a map and a string: an own-partner letter, and refusals 18 and 19.
ghost use Rattle.std.specs.Prelude.{◌≡◌, not, ◌&&◌, ◌||◌, ◌<◌, eqb, length};
ghost use Rattle.terms.specs.Refusals.{first_fault, fault_of};
ghost use Rattle.terms.specs.Maps.{partner};
ghost use Rattle.terms.specs.Alphabets.{is_in, own_partner, closed_under, spelt, alphabet_faults};

use crate::Text;
use terms::alphabets::is_in;
use terms::refusal::Refusal;

impl<'a> Text<'a> {
    // Whether the byte x is a letter of the alphabet and its own partner.
    fn own_letter(self, x: usize) -> bool
        requires { (length self.map.now ≡ 256) × (x < 256) }
        ensures { result ≡ (is_in self.entry.alphabet.now x && eqb (partner self.entry.map.now x) x) }
    {
        is_in(self.alphabet, x as u8) && usize::from(self.map[x]) == x
    }

    // Whether some letter of the alphabet is its own partner.
    pub fn own_partner(self) -> bool
        requires { length self.map.now ≡ 256 }
        ensures { result ≡ own_partner self.entry.map.now self.entry.alphabet.now }
    {
        for x in 0..256 {
            if self.own_letter(x) {
                return true;
            }
        }
        false
    }

    // Whether the partner of the byte x is a letter, where x is one.
    fn partner_in(self, x: usize) -> bool
        requires { (length self.map.now ≡ 256) × (x < 256) }
        ensures { result ≡ (not (is_in self.entry.alphabet.now x) || is_in self.entry.alphabet.now (partner self.entry.map.now x)) }
    {
        !is_in(self.alphabet, x as u8) || is_in(self.alphabet, self.map[x])
    }

    // Whether every letter's partner is a letter.
    fn closed(self) -> bool
        requires { length self.map.now ≡ 256 }
        ensures { result ≡ closed_under self.entry.map.now self.entry.alphabet.now }
    {
        for x in 0..256 {
            if !self.partner_in(x) {
                return false;
            }
        }
        true
    }

    // Whether every letter of the string is of the alphabet.
    fn spelt(self) -> bool
        ensures { result ≡ spelt self.entry.letters.now self.entry.alphabet.now }
    {
        for letter in self.letters {
            if !is_in(self.alphabet, *letter) {
                return false;
            }
        }
        true
    }

    // The first refusal that an alphabet meets with a string and a map of 256 bytes.
    pub fn check_alphabet(self) -> Result<(), Refusal>
        requires { length self.map.now ≡ 256 }
        ensures { fault_of result ≡ first_fault (alphabet_faults self.entry.letters.now self.entry.map.now self.entry.alphabet.now) }
    {
        if self.alphabet.len() != 256 {
            return Err(Refusal::AlphabetNotClosed);
        }
        if !self.closed() {
            return Err(Refusal::AlphabetNotClosed);
        }
        if !self.spelt() {
            return Err(Refusal::OutsideAlphabet);
        }
        Ok(())
    }
}
