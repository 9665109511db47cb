// Part records: six bytes a part, one after the other.
#![tactic(auto)]

ghost use Rattle.std.specs.Prelude.{◌≡◌, [], ◌∷◌, ◌++◌, ◌+◌, ◌*◌, ◌/◌, ◌%◌, ◌≤◌, length, take, drop};
ghost use Rattle.texts.specs.Lent.{text_of};
ghost use Rattle.texts.specs.Work.{Sized};
ghost use Rattle.tilings.specs.Laws.{length_of};
ghost use Rattle.tilings.specs.Work.{decode};
ghost use Rattle.records.specs.Records.{record_size, record_of, records_from};
ghost use Rattle.records.specs.Work.{Fit, Writable, parts_of};

use spans::pairs::count_errors;
use texts::Text;

// A record's size.
pub const SIZE: usize = 6;

// The bytes that say that a record is a piece's, or a gap's.
pub const PIECE: u8 = b'P';

pub const GAP: u8 = b'G';

// The bytes of one record.
fn record_bytes(tag: u8, errors: u8, start: usize, len: usize) -> [u8; SIZE]
    requires { (start ≤ 1000) × (len ≤ 1000) }
    ensures { result ≡ tag ∷ errors ∷ start / 256 ∷ start % 256 ∷ len / 256 ∷ len % 256 ∷ [] }
{
    let [start_high, start_low] = (start as u16).to_be_bytes();
    let [len_high, len_low] = (len as u16).to_be_bytes();
    [tag, errors, start_high, start_low, len_high, len_low]
}

// Writes record number k: the part that `code` stands for, which begins at place i. Answers where the next part begins.
#[tactic(auto, using(crate::proofs::Putting::code_length, tilings::proofs::Codes::decode_even))]
fn put_part(text: Text, code: u16, i: usize, k: usize, room: &mut [u8]) -> usize
    requires sizes { Sized text × (k ≤ 1000) × (record_size * k + record_size ≤ length room.old) }
    requires fit { Fit (text_of text) i (decode code) }
    ensures next { result ≡ i + length_of (decode code) }
    ensures put { room.new ≡ take (record_size * k) room.old ++ record_of (text_of text.entry) i (decode code) ++ drop (record_size * k + record_size) room.old }
{
    let len = usize::from(code / 2);
    let (tag, errors) = if code % 2 == 0 {
        let e = count_errors(text, i, len);
        (PIECE, e as u8)
    } else {
        (GAP, 0)
    };
    let at = SIZE * k;
    room[at..at + SIZE].copy_from_slice(&record_bytes(tag, errors, i, len));
    i + len
}

// The records of all parts; later bytes stay.
pub fn put_parts(text: Text, codes: &[u16], room: &mut [u8])
    requires sizes { Sized text × (length codes.now ≤ 1000) × (record_size * length codes.now ≤ length room.old) }
    requires writable { Writable (text_of text) 0 (parts_of codes.now) }
    ensures { room.new ≡ records_from (text_of text.entry) 0 (parts_of codes.now) ++ drop (record_size * length codes.now) room.old }
{
    let mut i = 0;
    // By index: over `chunks_exact_mut` a proof knows no byte of the room.
    for (k, code) in codes.iter().enumerate() {
        i = put_part(text, *code, i, k, room);
    }
}
