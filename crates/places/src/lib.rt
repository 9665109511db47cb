// The 1,000 places of a sheet: a lent string, map and alphabet copied in, and the question on the first letters.
#![tactic(auto)]

ghost use Rattle.std.specs.Prelude.{◌≡◌, ◌≤◌, length, take};
ghost use Rattle.terms.specs.Refusals.{first_fault, fault_of};
ghost use Rattle.terms.specs.Texts.{text, opening_faults};
ghost use Rattle.questions.specs.Tiling.{TilingReply};
ghost use Rattle.places.specs.Places.{padded_to};
ghost use Rattle.texts.specs.Lent.{text_of};

use questions::{Figures, Untiled};
use terms::LETTERS;
use terms::limits::Limits;
use terms::refusal::Refusal;
use texts::Text;

// A string in N places, with zeros behind it: in the sheet's places, or the 256 bytes of a map or an alphabet.
#[tactic(auto, unfolding(crate::specs::Places::padded_to))]
pub fn padded<const N: usize>(bytes: &[u8]) -> [u8; N]
    requires { length bytes.now ≤ N }
    ensures padded { result ≡ padded_to N bytes.now }
    ensures full { length bytes.now ≡ N → result ≡ bytes.now }
{
    let mut a = [0u8; N];
    a[..bytes.len()].copy_from_slice(bytes);
    a
}

// A sheet's places, lent: 1,000 for letters, of which the first n hold one, and 256 each for map and alphabet.
// With n and as no slice: `check_opening` and `tile` promise of the first n of 1,000 places, whatever stands behind.
#[derive(Clone, Copy)]
pub struct Places<'a> {
    pub letters: &'a [u8; LETTERS],
    pub n: usize,
    pub map: &'a [u8; 256],
    pub alphabet: &'a [u8; 256],
    pub ghost bound: { n ≤ 1000 },
}

impl<'a> Places<'a> {
    // The first n letters, with their map and alphabet.
    fn text(self) -> Text<'a>
        ensures { text_of result ≡ text (take self.entry.n self.entry.letters.now) self.entry.map.now self.entry.alphabet.now }
    {
        let Places {
            letters,
            n,
            map,
            alphabet,
            ..
        } = self;
        Text {
            letters: &letters[..n],
            map,
            alphabet,
        }
    }

    // The first refusal that an opening with the first n letters would meet.
    pub fn check_opening(self, limits: Limits) -> Result<(), Refusal>
        ensures { fault_of result ≡ first_fault (opening_faults (text (take self.entry.n self.entry.letters.now) self.entry.map.now self.entry.alphabet.now) limits) }
    {
        self.text().check_opening(limits)
    }

    // The tiling question on the first n letters.
    pub fn tile(
        self,
        limits: Limits,
        table: &mut [u16],
        room: &mut [u8],
    ) -> Result<Figures, Untiled>
        ensures { TilingReply (text (take self.entry.n self.entry.letters.now) self.entry.map.now self.entry.alphabet.now) limits table.old table.new room.old room.new result }
    {
        questions::tile(self.text(), limits, table, room)
    }
}
