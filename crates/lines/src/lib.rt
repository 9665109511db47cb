// One line of a call, read: what it asks, or none where it is not understood.
#![tactic(auto)]

pub mod fields;

ghost use Rattle.std.specs.Prelude.{◌≡◌};
ghost use Rattle.lines.specs.Lines.{Reads};
ghost use Rattle.lines.specs.Work.{ending, two_of, placed_of, out_line, open_line, line_of};

use crate::fields::{four_after, number_after, stands};
use changes::Edit;
use terms::limits::Limits;

// The most bytes of a line before its line end.
pub const BYTES: usize = 1040;

// What a line asks. An opening's string is the rest of the line from a place on: a place and no slice, as `Reads` gives it so. Its map is a flag, as it is in `Asked`, which a reader signs.
#[derive(Clone, Copy)]
pub enum Line {
    Open {
        limits: Limits,
        complement: bool,
        from: usize,
    },
    Change {
        edit: Edit,
    },
    TakeBack,
    PutAgain,
    Question,
}

// The two numbers behind a line's letter, up to its end: ` first second`.
#[tactic(auto, unfolding(crate::specs::Work::two_of))]
fn two_numbers(s: &[u8]) -> Option<(usize, usize)>
    ensures { result ≡ two_of s.now }
{
    let (first, next) = number_after(s, 1)?;
    let (second, behind) = number_after(s, next)?;
    (behind == s.len()).then_some((first, second))
}

// The place and the byte behind a line's letter, up to its end: ` place byte`.
#[tactic(auto, unfolding(crate::specs::Work::placed_of))]
fn place_byte(s: &[u8]) -> Option<(usize, u8)>
    ensures { result ≡ placed_of s.now }
{
    let (place, byte) = two_numbers(s)?;
    Some((place, u8::try_from(byte).ok()?))
}

// A line `X place`.
#[tactic(auto, unfolding(crate::specs::Work::out_line))]
fn out_line(s: &[u8]) -> Option<Line>
    ensures { result ≡ out_line s.now }
{
    let (place, end) = number_after(s, 1)?;
    let edit = Edit::TakeOut { place };
    (end == s.len()).then_some(Line::Change { edit })
}

// A line `O kind m g d map string`.
#[tactic(auto, unfolding(crate::specs::Work::open_line, crate::specs::Work::stands))]
fn open_line(s: &[u8]) -> Option<Line>
    ensures { result ≡ open_line s.now }
{
    let (limits, next) = four_after(s, 1)?;
    if !stands(s, next, b' ') || !stands(s, next + 2, b' ') {
        return None;
    }
    let complement = match s[next + 1] {
        b'I' => false,
        b'C' => true,
        _ => return None,
    };
    Some(Line::Open {
        limits,
        complement,
        from: next + 3,
    })
}

// A line of one letter and nothing else.
fn alone(s: &[u8], line: Line) -> Option<Line>
    ensures { result ≡ ending s.now 1 line }
{
    (s.len() == 1).then_some(line)
}

// What a line asks, however long it is.
#[tactic(auto, unfolding(crate::specs::Work::line_of, crate::specs::Work::stands, crate::specs::Work::letter_line, crate::specs::Work::in_line, crate::specs::Work::kind_line, crate::specs::Work::lengths_line))]
fn line_of(s: &[u8]) -> Option<Line>
    ensures { result ≡ line_of s.now }
{
    let edit = match *s.first()? {
        b'O' => return open_line(s),
        b'L' => {
            let (place, byte) = place_byte(s)?;
            Edit::Letter { place, byte }
        }
        b'I' => {
            let (place, byte) = place_byte(s)?;
            Edit::PutIn { place, byte }
        }
        b'X' => return out_line(s),
        b'K' => {
            let (kind, d) = two_numbers(s)?;
            Edit::Kind { kind, d }
        }
        b'M' => {
            let (m, g) = two_numbers(s)?;
            Edit::Lengths { m, g }
        }
        b'B' => return alone(s, Line::TakeBack),
        b'A' => return alone(s, Line::PutAgain),
        b'Q' => return alone(s, Line::Question),
        _ => return None,
    };
    Some(Line::Change { edit })
}

// What a line asks; it comes without its line end.
#[tactic(auto, using(crate::proofs::Reading::line_reads, crate::proofs::Reading::too_long))]
pub fn parse(s: &[u8]) -> Option<Line>
    ensures { Reads s.now result }
{
    if BYTES < s.len() {
        return None;
    }
    line_of(s)
}
