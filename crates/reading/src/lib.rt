// The tiling given, read out of the table.
#![tactic(auto)]

ghost use Rattle.std.specs.Prelude.{ℕ, ◌+◌, ◌-◌, ◌*◌, ◌<◌, ◌≤◌, length};
ghost use Rattle.terms.specs.Tells.{Tells};
ghost use Rattle.tilings.specs.Work.{Reaches, Tiled};
ghost use Rattle.ways.specs.Spans.{board_of};
ghost use Rattle.table.specs.Work.{KnownFrom};
ghost use Rattle.reading.specs.Work.{TopReach, Stops, FirstStop, Leads, ReadOut, Past};

use rows::NO_TILING;
use std::marker::Model;
use table::{Totals, is_piece};

// A part by its number (twice its length, and one more for a gap), where the next part begins, and the gaps left.
// No enum for the part: the list of parts has its number in fixed memory, and `put_parts` promises that list's records by `decode` of the number.
#[derive(Clone, Copy)]
pub struct Next {
    pub code: u16,
    pub place: usize,
    pub left: usize,
}

// A full table, to be read out: every row is right.
// A model and no ghost field: an entry that is right comes with a tiling that reaches it, there may be several, and a ghost field takes only facts with one proof.
#[derive(Drop)]
struct Full<'a> {
    totals: Totals<'a>,
}

impl<'a> Model for Full<'a> {
    ghost use Rattle.table.specs.declared.Totals.{Totals};
    ghost use Rattle.table.specs.Work.{KnownFrom};

    ghost Value = { Totals };

    ghost view = { λ f. f.totals };

    ghost invariant = { λ f. KnownFrom f.totals 0 };
}

// i and q come one by one, as they do to `Totals::at`: what is asked of i differs from one function to the next.
impl<'a> Full<'a> {
    // Whether a piece of len letters from i reaches the total v.
    fn reaches(&self, i: usize, q: usize, v: u16, len: usize) -> bool
        requires sizes { (q ≤ self.now.g) × (1 ≤ len) × (i + len ≤ self.now.spans.n) × (v < NO_TILING) }
        ensures { Tells result (Reaches (board_of self.now.spans) i q v len) }
    {
        if !is_piece(self.totals.spans, i, len) {
            return false;
        }
        self.totals.at(i + len, q) == v
    }

    // The longest piece from i that reaches the total v.
    fn longest_piece(&self, i: usize, q: usize, v: u16) -> Option<usize>
        requires sizes { (q ≤ self.now.g) × (i ≤ self.now.spans.n) × (v < NO_TILING) }
        ensures { TopReach (board_of self.now.spans) i q v result }
    {
        // No `rfind`: tried and proved, by a lemma on ranges that the library lacks, but with it a question costs up to 2.2 of the instructions.
        for len in (self.totals.spans.m..self.totals.spans.n - i + 1).rev() {
            if self.reaches(i, q, v, len) {
                return Some(len);
            }
        }
        None
    }

    // Whether a gap of len letters from i, with which v is reached, may stop there.
    fn stops(&self, i: usize, q: usize, v: u16, len: usize) -> bool
        requires sizes { (q ≤ self.now.g) × (1 ≤ len) × (i + len ≤ self.now.spans.n) }
        ensures { Tells result (Stops (board_of self.now.spans) i q v len) }
    {
        let n = self.totals.spans.n;
        let j = i + len;
        let w = self.totals.at(j, q);
        if w == NO_TILING {
            return false;
        }
        let sum = len + usize::from(w);
        if sum != usize::from(v) {
            return false;
        }
        if j == n {
            return true;
        }
        self.longest_piece(j, q, w).is_some()
    }

    // The shortest gap from i with which v is reached and that may stop.
    fn gap_length(&self, i: usize, q: usize, v: u16) -> usize
        requires sizes { (q ≤ self.now.g) × (i < self.now.spans.n) }
        requires stopped { (M : ℕ) × (1 ≤ M) × Stops (board_of self.now.spans) i q v M }
        ensures { FirstStop (board_of self.now.spans) i q v result }
    {
        (1..self.totals.spans.n - i + 1)
            .find(|&len| self.stops(i, q, v, len))
            .unwrap()
    }

    // The part that the tiling given from i begins with.
    fn next_part(&self, i: usize, q: usize) -> Next
        requires sizes { (q ≤ self.now.g) × (i < self.now.spans.n) }
        requires tiled { Tiled (board_of self.now.spans) i q }
        ensures { Leads (board_of self.now.spans) i q result.code result.place result.left }
    {
        let v = self.totals.at(i, q);
        match self.longest_piece(i, q, v) {
            Some(len) => Next {
                code: (2 * len) as u16,
                place: i + len,
                left: q,
            },
            None => {
                let blank = self.gap_length(i, q - 1, v);
                Next {
                    code: (2 * blank + 1) as u16,
                    place: i + blank,
                    left: q - 1,
                }
            }
        }
    }
}

// How many parts, and how many of them are gaps.
#[derive(Clone, Copy)]
pub struct Tally {
    pub parts: usize,
    pub gaps: usize,
}

// The tiling given, as numbers of parts; later entries stay.
pub fn read_parts(totals: Totals<'_>, codes: &mut [u16]) -> Tally
    requires sizes { totals.spans.n ≤ length codes.old }
    requires known { KnownFrom totals 0 }
    requires tiled { Tiled (board_of totals.spans) 0 totals.g }
    ensures { ReadOut (board_of totals.entry.spans) totals.entry.g result.parts result.gaps codes.new × Past result.parts codes.old codes.new }
{
    let full = Full { totals };
    let mut i = 0;
    let mut q = totals.g;
    let mut k = 0;
    // No `for`: each part says where the next begins.
    while i < totals.spans.n {
        let next = full.next_part(i, q);
        codes[k] = next.code;
        i = next.place;
        q = next.left;
        k += 1;
    }
    Tally {
        parts: k,
        gaps: totals.g - q,
    }
}
