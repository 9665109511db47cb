// One line answered: the call that it asks for is made, and what it says and leaves is printed.
ghost use Rattle.std.specs.Prelude.{◌≡◌, ◌≤◌, length, replicate};

use crate::asks::{Ask, CentresAsk, TilingAsk, read};
use crate::files::answer_file;
use crate::lent::text_with;
use crate::maps::Map;
use crate::shows::{number_of, put_filled, put_part, put_stop, put_tiling};
use longest::{check_longer, check_longest, longer, longest};
use questions::tile;
use replies::put_refusal;
use sheet::Sheet;
use shuffled::fill_shuffled;
use spans::fill_centres;
use stops::centre_stop;

// What every lent entry and byte is before a call, so that one left as it was shows.
const BEFORE: u8 = 9;

// What a line's call is lent, and the room for the reply.
#[derive(Drop)]
struct Lends<'a> {
    table: &'a mut [u16],
    room: &'a mut [u8],
    out: &'a mut [u8],
}

impl<'a> Lends<'a> {
    // The first entries and bytes alone, each as it is before a call.
    fn first(self, entries: usize, bytes: usize) -> Lends<'a>
        requires { (entries ≤ length self.table.now) × (bytes ≤ length self.room.now) }
        ensures table { result.table.now ≡ replicate entries BEFORE }
        ensures room { result.room.now ≡ replicate bytes BEFORE }
        ensures out { result.out ≡ self.entry.out }
    {
        let Lends { table, room, out } = self;
        let table = &mut table[..entries];
        let room = &mut room[..bytes];
        table.fill(u16::from(BEFORE));
        room.fill(BEFORE);
        Lends { table, room, out }
    }
}

// Each answers how many bytes it put into the room for the reply: a number and no struct with the room, as `Put` has it, and the program writes so much of its own room.

// `T`: the tiling question without a sheet.
fn tiling(asked: TilingAsk, string: &[u8], lends: Lends<'_>) -> usize
    ensures { result ≤ length lends.entry.out.now }
{
    let Lends { table, room, out } = lends;
    let map = asked.letters.map.lent();
    let alphabet = asked.letters.alphabet.lent();
    let text = text_with(string, &map, &alphabet);
    let answer = tile(text, asked.limits, table, room);
    put_tiling(out, b'T', answer, table, room)
}

// `S`: the tiling question on a sheet, or why the sheet is not opened.
// Not inlined: in `answer` it made a line `S` on few letters dearer. Nor is `one_centre`: with this one alone apart, the walk of the centres lay where its loop takes 1.4 of the time (docs/SPEED.md, Where a loop lies).
#[inline(never)]
fn sheet_tiling(asked: TilingAsk, string: &[u8], lends: Lends<'_>) -> usize
    ensures { result ≤ length lends.entry.out.now }
{
    let Lends { table, room, out } = lends;
    let map = asked.letters.map.lent();
    let alphabet = asked.letters.alphabet.lent();
    let opened = Sheet::open(text_with(string, &map, &alphabet), asked.limits);
    if let Err(refusal) = opened.said {
        return put_refusal(out, refusal.number());
    }
    let answer = opened.sheet.question(table, room);
    put_tiling(out, b'S', answer, table, room)
}

// `C`: the maximal lengths of all centres.
fn centres(asked: CentresAsk, string: &[u8], lends: Lends<'_>) -> usize
    ensures { result ≤ length lends.entry.out.now }
{
    let Lends { table, out, .. } = lends;
    let map = asked.letters.map.lent();
    let alphabet = asked.letters.alphabet.lent();
    let text = text_with(string, &map, &alphabet);
    let numbers = match fill_centres(text, asked.d, table) {
        Ok(count) => [0, count],
        Err(refusal) => [refusal.number(), 0],
    };
    put_filled(out, b'C', &numbers, table)
}

// `D`: the maximal length of one centre, and what stops it.
#[inline(never)]
fn one_centre(asked: CentresAsk, string: &[u8], out: &mut [u8]) -> usize
    ensures { result ≤ length out.old }
{
    let map = asked.letters.map.lent();
    let alphabet = asked.letters.alphabet.lent();
    let text = text_with(string, &map, &alphabet);
    put_stop(out, centre_stop(text, asked.d, asked.number))
}

// `A`: the longest shuffled palindrome from each start.
fn reordered(string: &[u8], lends: Lends<'_>) -> usize
    ensures { result ≤ length lends.entry.out.now }
{
    let Lends { table, out, .. } = lends;
    let numbers = [number_of(fill_shuffled(string, table))];
    put_filled(out, b'A', &numbers, table)
}

// `P`: the longest palindrome of one string.
fn of_one(map: Map, string: &[u8], out: &mut [u8]) -> usize
    ensures { result ≤ length out.old }
{
    let map = map.lent();
    let checked = check_longest(string, map.as_slice());
    put_part(out, b'P', checked, longest(string, map.as_slice()))
}

// `W`: the longer palindrome of two strings; one lifetime for both, since the part may be of either.
fn of_two<'a>(map: Map, string: &'a [u8], other: &'a [u8], out: &mut [u8]) -> usize
    ensures { result ≤ length out.old }
{
    let map = map.lent();
    let checked = check_longer(string, other, map.as_slice());
    put_part(out, b'W', checked, longer(string, other, map.as_slice()))
}

// One line, without its line end: how many bytes of the reply stand at the start of the room `out`.
pub fn answer(line: &[u8], table: &mut [u16], room: &mut [u8], out: &mut [u8]) -> usize
    requires { (9999 ≤ length table.old) × (9999 ≤ length room.old) }
    ensures { result ≤ length out.old }
{
    let Some(asked) = read(line) else {
        return answer_file(line, room, out);
    };
    let lends = Lends { table, room, out };
    match asked {
        Ask::Tiling(a) => tiling(a, &line[a.from..], lends.first(a.table, a.room)),
        Ask::OnSheet(a) => sheet_tiling(a, &line[a.from..], lends.first(a.table, a.room)),
        Ask::Centres(a) => centres(a, &line[a.from..], lends.first(a.number, 0)),
        Ask::Longest { map, from } => of_one(map, &line[from..], lends.out),
        Ask::Longer { map, from, second } => {
            of_two(map, &line[from..second], &line[second..], lends.out)
        }
        Ask::Centre(a) => one_centre(a, &line[a.from..], lends.out),
        Ask::Shuffled { entries, from } => reordered(&line[from..], lends.first(entries, 0)),
    }
}
