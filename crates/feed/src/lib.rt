// Lines taken in from pieces of the input: where a line ends, and what is kept of it.
#![tactic(auto)]

ghost use Rattle.std.specs.Prelude.{◌≡◌, ◌≤◌, ◌==◌, length, drop, position};
ghost use Rattle.printing.specs.Printing.{Put};
ghost use Rattle.feed.specs.Lines.{line_end};
ghost use Rattle.feed.specs.Feeding.{up_to_end, TakesOn};

use printing::Page;

// The line end.
pub const END: u8 = b'\n';

// The bytes kept of a line that has no end yet: the first `at` of N.
#[derive(Drop)]
pub struct Begun<const N: usize> {
    pub bytes: [u8; N],
    pub at: usize,
    ghost fits: { at ≤ N },
}

// The bytes kept of a line, where the piece is read on, and whether the line is whole: a flag, as both numbers stand whether it is or not.
#[derive(Clone, Copy)]
pub struct Fed {
    pub at: usize,
    pub from: usize,
    pub whole: bool,
}

// The place of the first line end, if there is one.
fn end_of(bytes: &[u8]) -> Option<usize>
    ensures { result ≡ position (λ b. b == line_end) bytes.now }
{
    bytes.iter().position(|b| *b == END)
}

// Takes a line on, of which the room keeps `at` bytes, from place `from` of a piece to its next line end, or to the piece's end; the room's later bytes stay.
// The room and the place come apart and not as a page: a line is taken on from piece to piece, and `TakesOn` speaks of both.
pub fn feed(room: &mut [u8], at: usize, piece: &[u8], from: usize) -> Fed
    requires at_in_bounds { at ≤ length room.old }
    requires from_in_bounds { from ≤ length piece.now }
    ensures takes_on { TakesOn room.old at piece.now from room.new result }
    ensures put { Put room.old at (up_to_end (drop from piece.now)) result.at room.new }
{
    let left = &piece[from..];
    let end = end_of(left);
    let mut page = Page { room, at };
    page.put_bytes(&left[..end.unwrap_or(left.len())]);
    match end {
        Some(k) => Fed {
            at: page.at,
            from: from + k + 1,
            whole: true,
        },
        None => Fed {
            at: page.at,
            from: piece.len(),
            whole: false,
        },
    }
}
