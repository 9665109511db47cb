// Bytes in hexadecimal: two digits a byte, each one of 0-9 a-f.
#![tactic(auto)]

ghost use Rattle.std.specs.Prelude.{◌≡◌};
ghost use Rattle.hexadecimal.specs.Hex.{digit_of, byte_at, Reads};

// How many bytes were read, and the place after their last digit.
#[derive(Clone, Copy)]
pub struct HexRead {
    pub bytes: usize,
    pub next: usize,
}

// The digit that a byte of a line stands for, if it is one.
#[tactic(auto, unfolding(crate::specs::Hex::digit_of))]
fn digit(b: u8) -> Option<u8>
    ensures { result ≡ digit_of b }
{
    match b {
        b'0'..=b'9' => Some(b - b'0'),
        b'a'..=b'f' => Some(b - b'a' + 10),
        _ => None,
    }
}

// The byte whose two digits stand at a place, if two stand there.
#[tactic(auto, unfolding(crate::specs::Hex::byte_at, crate::specs::Hex::pair_of, crate::specs::Hex::digit_of))]
fn byte_at(s: &[u8], i: usize) -> Option<u8>
    ensures { result ≡ byte_at s.now i }
{
    let high = digit(*s.get(i)?)?;
    let low = digit(*s.get(i + 1)?)?;
    Some(high * 16 + low)
}

// Bytes read from a place on into the room, as far as their digits go and the room goes; the room's later bytes stay.
#[tactic(auto, using(crate::proofs::Reading::byte_in))]
pub fn read_hex(s: &[u8], from: usize, room: &mut [u8]) -> HexRead
    ensures { Reads s.now from room.old room.new result }
{
    let mut at = from;
    for (k, slot) in room.iter_mut().enumerate() {
        let Some(b) = byte_at(s, at) else {
            return HexRead { bytes: k, next: at };
        };
        *slot = b;
        // A place of its own: that `from + 2 * k` fits is not known where no digit stands.
        at += 2;
    }
    let bytes = room.len();
    HexRead { bytes, next: at }
}
