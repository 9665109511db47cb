// The tiling question without a sheet.
#![tactic(auto)]

ghost use Rattle.std.specs.Prelude.{◌≡◌, ◌≤◌, List, length};
ghost use Rattle.terms.specs.Refusals.{first_fault, fault_of};
ghost use Rattle.terms.specs.Passed.{SoundText, SoundLimits};
ghost use Rattle.texts.specs.Lent.{text_of};
ghost use Rattle.spans.specs.Palindromes.{centres};
ghost use Rattle.spans.specs.Centres.{Holds};
ghost use Rattle.tilings.specs.Tilings.{Part, Given, entries, Table};
ghost use Rattle.boards.specs.Pieces.{board};
ghost use Rattle.ways.specs.Spans.{board_of};
ghost use Rattle.table.specs.Work.{KnownFrom};
ghost use Rattle.records.specs.Work.{Writable};
ghost use Rattle.questions.specs.Tiling.{table_faults, behind, HandsOver, TilingReply};
ghost use Rattle.questions.specs.Work.{HandsOverOn};
ghost use Rattle.questions.specs.declared.Untiled.TheVariants.{Refused};

use reading::read_parts;
use records::{SIZE, put_parts};
use rows::NO_TILING;
use spans::fill_lengths;
use table::{Totals, fill_table};
use terms::limits::Limits;
use terms::refusal::Refusal;
use terms::{CENTRES, LETTERS};
use texts::Text;
use ways::Spans;

// The figures of the tiling given: gap total, number of parts and number of gaps.
#[derive(Clone, Copy)]
pub struct Figures {
    pub total: usize,
    pub parts: usize,
    pub gaps: usize,
}

// Why no tiling is handed over: a refusal, or a room too short (12), with the parts needed.
#[derive(Clone, Copy)]
pub enum Untiled {
    Refused(Refusal),
    ShortRoom { parts: usize },
}

impl From<Refusal> for Untiled {
    ghost from_gives = { λ e u. u ≡ Refused e };

    fn from(reason: Refusal) -> Untiled {
        Untiled::Refused(reason)
    }
}

impl From<Untiled> for Refusal {
    ghost from_gives = { λ u e. e ≡ behind u };

    fn from(why: Untiled) -> Refusal {
        match why {
            Untiled::Refused(refusal) => refusal,
            Untiled::ShortRoom { parts: _ } => Refusal::RoomTooShort,
        }
    }
}

// The first refusal that needs no tiling, with `lent` entries for the table.
fn check_table(text: Text, limits: Limits, lent: usize) -> Result<(), Refusal>
    ensures { fault_of result ≡ first_fault (table_faults (text_of text.entry) limits lent) }
{
    text.check_opening(limits)?;
    let g = limits.g;
    if lent < (text.letters.len() + 1) * (g + 1) {
        return Err(Refusal::TableTooShort);
    }
    Ok(())
}

// Reads the tiling given out of a full table, and writes its records. The board is whatever the table is over; the caller knows that it is the string's own.
fn hand_over(text: Text, totals: Totals, room: &mut [u8]) -> Result<Figures, Untiled>
    requires sizes { (length text.map.now ≡ 256) × (totals.spans.n ≡ length text.letters.now) }
    requires known { KnownFrom totals 0 }
    requires writable { (ps : List Part) → Given (board_of totals.spans) 0 totals.g ps → Writable (text_of text) 0 ps }
    ensures { HandsOverOn (text_of text.entry) (board_of totals.entry.spans) totals.entry.g room.old room.new result }
{
    let least = totals.at(0, totals.g);
    if least == NO_TILING {
        return Err(Untiled::Refused(Refusal::NoTiling));
    }
    let mut codes = [0u16; LETTERS];
    let read = read_parts(totals, &mut codes);
    let parts = read.parts;
    if room.len() < SIZE * parts {
        return Err(Untiled::ShortRoom { parts });
    }
    put_parts(text, &codes[..parts], room);
    Ok(Figures {
        total: usize::from(least),
        parts,
        gaps: read.gaps,
    })
}

// The question after its tests, with the maximal lengths lent: the table, and what is handed over.
fn tile_by(
    text: Text,
    lens: &[u16],
    limits: Limits,
    table: &mut [u16],
    room: &mut [u8],
) -> Result<Figures, Untiled>
    requires sound_text { SoundText (text_of text) }
    requires sound_limits { SoundLimits limits }
    requires held { Holds (text_of text) limits.d lens.now }
    requires lengths_fit { centres (length text.letters.now) ≤ length lens.now }
    requires table_fits { entries (length text.letters.now) limits.g ≤ length table.old }
    ensures { Table (board (text_of text.entry) limits) limits.g table.old table.new × HandsOver (text_of text.entry) limits room.old room.new result }
{
    let n = text.letters.len();
    let Limits { kind, m, g, .. } = limits;
    let spans = Spans { lens, n, kind, m };
    fill_table(spans, g, table);
    hand_over(text, Totals { spans, g, t: table }, room)
}

// The tiling question: fills the table, and writes the records of the tiling given.
// Table and room come one by one: `TilingReply` speaks of each as lent and as left, and callers lend two slices of their own.
pub fn tile(
    text: Text,
    limits: Limits,
    table: &mut [u16],
    room: &mut [u8],
) -> Result<Figures, Untiled>
    ensures { TilingReply (text_of text.entry) limits table.old table.new room.old room.new result }
{
    check_table(text, limits, table.len())?;
    let mut lens = [0u16; CENTRES];
    fill_lengths(text, limits.d, &mut lens);
    tile_by(text, &lens, limits, table, room)
}
