// Bytes lent to a call: a map, or the flags of an alphabet.
ghost use Rattle.std.specs.Prelude.{◌≡◌, ◌≤◌, take};
ghost use Rattle.terms.specs.Texts.{text};
ghost use Rattle.texts.specs.Lent.{text_of};

use texts::Text;

// 256 bytes, of which the first `size` are lent.
#[derive(Clone, Copy)]
pub struct Lent {
    pub bytes: [u8; 256],
    pub size: usize,
    ghost fits: { size ≤ 256 },
}

impl Lent {
    // All 256 bytes.
    pub fn whole(bytes: [u8; 256]) -> Lent
        ensures bytes { result.bytes ≡ bytes }
        ensures size { result.size ≡ 256 }
    {
        Lent { bytes, size: 256 }
    }

    // All but the last.
    pub fn short(bytes: [u8; 256]) -> Lent
        ensures bytes { result.bytes ≡ bytes }
        ensures size { result.size ≡ 255 }
    {
        Lent { bytes, size: 255 }
    }

    // The bytes that are lent.
    pub fn as_slice(&self) -> &[u8]
        ensures { result.now ≡ take self.now.size self.now.bytes }
    {
        &self.bytes[..self.size]
    }
}

// A string with a map and an alphabet that are lent so.
pub fn text_with<'a>(letters: &'a [u8], map: &'a Lent, alphabet: &'a Lent) -> Text<'a>
    ensures { text_of result ≡ text letters.now (take map.now.size map.now.bytes) (take alphabet.now.size alphabet.now.bytes) }
{
    Text {
        letters,
        map: map.as_slice(),
        alphabet: alphabet.as_slice(),
    }
}
