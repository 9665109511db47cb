// The table of least gap totals, row by row from the last letter, over the maximal lengths of a string's centres.
#![tactic(auto)]

ghost use Rattle.std.specs.Prelude.{◌≡◌, ◌+◌, ◌-◌, ◌*◌, ◌≤◌, ◌<◌, length, get_or};
ghost use Rattle.terms.specs.Tells.{Tells};
ghost use Rattle.tilings.specs.Tilings.{Table, entries};
ghost use Rattle.ways.specs.Spans.{PieceOf, board_of, Measured, Whole};
ghost use Rattle.ways.specs.Ways.{First, Next};
ghost use Rattle.table.specs.Work.{KnownFrom, PieceRow, PieceRowUnder, Along, Looked};

use rows::{NO_TILING, clear, gap_row, lower, store_row};
use terms::{CENTRES, LETTERS};
use ways::{NOWHERE, Spans};

// Whether the len letters from i are a piece, by the maximal length of their centre.
pub fn is_piece(spans: Spans<'_>, i: usize, len: usize) -> bool
    requires { Measured spans × (1 ≤ len) × (i + len ≤ spans.n) }
    ensures { Tells result (PieceOf spans.entry i len) }
{
    if len < spans.m {
        return false;
    }
    let most = usize::from(spans.lens[i + i + len - 1]);
    // No `match`: tried, it tests for kind 2 first and slows kind 1.
    if spans.kind == 1 {
        return len <= most;
    }
    if spans.kind == 2 {
        return len == most;
    }
    false
}

// A table over the pieces, with g + 1 numbers a row.
#[derive(Clone, Copy)]
pub struct Totals<'a> {
    pub spans: Spans<'a>,
    pub g: usize,
    pub t: &'a [u16],
}

impl<'a> Totals<'a> {
    // An entry of the table.
    pub fn at(self, i: usize, q: usize) -> u16
        requires { (i ≤ 1000) × (self.g ≤ 15) × (q ≤ self.g) × (i * (self.g + 1) + q < length self.t.now) }
        ensures { result ≡ get_or self.entry.t.now (i * (self.entry.g + 1) + q) 0 }
    {
        self.t[i * (self.g + 1) + q]
    }

    // The way of i at the centre c, behind the last one kept. A piece lowers the row to the row behind it. A centre without one is
    // dropped, as it has none for an earlier start either. The last centre kept.
    fn look(self, i: usize, last: usize, c: usize, next: &mut [u16], row: &mut [u16]) -> usize
        requires known { (i < self.spans.n) × KnownFrom self (i + 1) }
        requires along { Along self.spans i last c × Next self.spans i next.old }
        requires row_so_far { (c < self.spans.n + i) × PieceRowUnder (board_of self.spans) self.g i (c + 1 - (i + i)) row.old }
        ensures { Looked self.entry.spans i c result next.new × PieceRowUnder (board_of self.entry.spans) self.entry.g i (c + 1 - (i + i) + 1) row.new }
    {
        let len = c + 1 - (i + i);
        if is_piece(self.spans, i, len) {
            let from = (i + len) * (self.g + 1);
            lower(row, &self.t[from..=from + self.g]);
            return c;
        }
        next[last] = next[c];
        last
    }

    // The least totals of the tilings from i that begin with a piece, for each number of gaps, along the way of i.
    fn piece_row(self, i: usize, first: usize, next: &mut [u16], row: &mut [u16])
        requires known { (i < self.spans.n) × (length row.old ≡ self.g + 1) × KnownFrom self (i + 1) }
        requires first { First self.spans i first × Next self.spans i next.old }
        ensures { PieceRow (board_of self.entry.spans) self.entry.g i row.new × Next self.entry.spans i next.new }
    {
        clear(row);
        let mut last = first;
        let mut c = first;
        // No `for`: the way leads from centre to centre, and `look` changes it.
        while c < self.spans.n + i {
            last = self.look(i, last, c, next, row);
            c = usize::from(next[last]);
        }
    }
}

// The whole table; later entries stay.
// Not inlined: in its caller it and the loops there share too few registers, and a question costs up to 1.06 of the instructions.
#[inline(never)]
pub fn fill_table(spans: Spans<'_>, g: usize, t: &mut [u16])
    requires { Whole spans × (g ≤ 15) × (spans.m ≤ 1000) × (entries spans.n g ≤ length t.old) }
    ensures { Table (board_of spans.entry) g t.old t.new }
{
    // Behind the last letter nothing is left to tile: the total is 0 whatever the gaps, and no tiling begins with one.
    let mut row = [0u16; 16];
    let row = &mut row[..=g];
    let mut gaps = [NO_TILING; 16];
    let gaps = &mut gaps[..=g];
    let end = spans.n * (g + 1);
    store_row(row, gaps, &mut t[end..=end + g]);
    let mut first = [NOWHERE; LETTERS];
    let mut next = [NOWHERE; CENTRES];
    spans.lay(&mut first, &mut next);
    for i in (0..spans.n).rev() {
        let begin = spans.first_of(&first, i);
        let made = Totals { spans, g, t: &*t };
        made.piece_row(i, begin, &mut next, row);
        let from = i * (g + 1);
        let below = (i + 1) * (g + 1);
        gap_row(gaps, &t[below..=below + g]);
        store_row(row, gaps, &mut t[from..=from + g]);
    }
}
