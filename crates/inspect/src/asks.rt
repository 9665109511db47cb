// One line read: what it asks of the tiling question, the fills, one centre or the longest palindromes. None is any other line: `files` has those.
ghost use Rattle.inspect.specs.Asking.{TilingFits, CentresFit, Fits};

use crate::maps::Map;
use crate::named::{Letters, both_after, named_after, space_after};
use lines::BYTES;
use lines::fields::{four_after, number_after};
use terms::limits::Limits;

// What the tiling question is asked with.
#[derive(Clone, Copy)]
pub struct TilingAsk {
    pub limits: Limits,
    pub letters: Letters,
    pub table: usize,
    pub room: usize,
    pub from: usize,
}

// What all centres are asked with, and one: the number is of entries or of the centre.
#[derive(Clone, Copy)]
pub struct CentresAsk {
    pub d: usize,
    pub letters: Letters,
    pub number: usize,
    pub from: usize,
}

// What a line asks. Its string is the rest of the line from a place on, as `Line` has it; of two strings the second begins at a place of its own.
#[derive(Clone, Copy)]
pub enum Ask {
    Tiling(TilingAsk),
    OnSheet(TilingAsk),
    Centres(CentresAsk),
    Longest {
        map: Map,
        from: usize,
    },
    Longer {
        map: Map,
        from: usize,
        second: usize,
    },
    Centre(CentresAsk),
    Shuffled {
        entries: usize,
        from: usize,
    },
}

// `T kind m g d map alphabet table room string`, and the same with `S`
#[tactic(auto, using(crate::proofs::Reading::four_digits))]
fn tiling_line(s: &[u8]) -> Option<TilingAsk>
    ensures { TilingFits s.now result }
{
    let (limits, a) = four_after(s, 1)?;
    let (letters, b) = both_after(s, a)?;
    let (table, c) = number_after(s, b)?;
    let (room, e) = number_after(s, c)?;
    let from = space_after(s, e)?;
    Some(TilingAsk {
        limits,
        letters,
        table,
        room,
        from,
    })
}

// `C d map alphabet entries string`, and `D d map alphabet centre string`
#[tactic(auto, using(crate::proofs::Reading::four_digits))]
fn centres_line(s: &[u8]) -> Option<CentresAsk>
    ensures { CentresFit s.now result }
{
    let (d, a) = number_after(s, 1)?;
    let (letters, b) = both_after(s, a)?;
    let (number, c) = number_after(s, b)?;
    let from = space_after(s, c)?;
    Some(CentresAsk {
        d,
        letters,
        number,
        from,
    })
}

// `P map string`
fn longest_line(s: &[u8]) -> Option<Ask>
    ensures { Fits s.now result }
{
    let (map, next) = named_after(s, 1)?;
    let from = space_after(s, next)?;
    Some(Ask::Longest { map, from })
}

// `W map first string`, where the string has at least `first` letters
fn longer_line(s: &[u8]) -> Option<Ask>
    ensures { Fits s.now result }
{
    let (map, a) = named_after(s, 1)?;
    let (first, b) = number_after(s, a)?;
    let from = space_after(s, b)?;
    if s.len() - from < first {
        return None;
    }
    let second = from + first;
    Some(Ask::Longer { map, from, second })
}

// `A entries string`
#[tactic(auto, using(crate::proofs::Reading::four_digits))]
fn shuffled_line(s: &[u8]) -> Option<Ask>
    ensures { Fits s.now result }
{
    let (entries, next) = number_after(s, 1)?;
    let from = space_after(s, next)?;
    Some(Ask::Shuffled { entries, from })
}

// One line, without its line end. Each form's reader sees to the space behind the letter.
pub fn read(s: &[u8]) -> Option<Ask>
    ensures { Fits s.now result }
{
    if BYTES < s.len() {
        return None;
    }
    match *s.first()? {
        b'T' => Some(Ask::Tiling(tiling_line(s)?)),
        b'S' => Some(Ask::OnSheet(tiling_line(s)?)),
        b'C' => Some(Ask::Centres(centres_line(s)?)),
        b'D' => Some(Ask::Centre(centres_line(s)?)),
        b'P' => longest_line(s),
        b'W' => longer_line(s),
        b'A' => shuffled_line(s),
        _ => None,
    }
}
