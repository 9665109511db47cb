// Lines about a part file that came back: a file is hexadecimal, and stands in the line itself.
ghost use Rattle.std.specs.Prelude.{◌≤◌, length};
ghost use Rattle.printing.specs.Printing.{Put};
ghost use Rattle.inspect.specs.Showing.{step_text};

use crate::lent::text_with;
use crate::named::{Letters, both_after, space_after};
use crate::shows::number_of;
use hexadecimal::read_hex;
use lines::BYTES;
use lines::fields::{four_after, number_after};
use printing::Page;
use reader::Record;
use replies::put_refusal;
use returned::agree;
use terms::limits::Limits;
use terms::refusal::Refusal;

// The reader's answer: a part's values, or its number alone.
fn put_step(out: &mut [u8], found: Result<Option<(Record, usize)>, Refusal>) -> usize
    ensures { Put out.old 0 (step_text found) result out.new }
{
    let mut page = Page { room: out, at: 0 };
    match found {
        Ok(Some((part, next))) => {
            let tag = usize::from(part.tag);
            let errors = usize::from(part.errors);
            page.put_line(b'F', &[0, tag, errors, part.start, part.length, next])
        }
        Ok(None) => page.put_line(b'F', &[0]),
        Err(refusal) => page.put_line(b'F', &[refusal.number()]),
    }
    page.at
}

// What a step of the reader is asked with; the file begins at a place of the line.
#[derive(Clone, Copy)]
struct StepAsk {
    place: usize,
    from: usize,
}

// What the second question is asked with.
#[derive(Clone, Copy)]
struct AgreeAsk {
    limits: Limits,
    letters: Letters,
    from: usize,
}

// What a line about a file asks.
#[derive(Clone, Copy)]
enum FileAsk {
    Step(StepAsk),
    Agree(AgreeAsk),
}

// `F place file`
fn step_line(s: &[u8]) -> Option<StepAsk> {
    let (place, next) = number_after(s, 1)?;
    let from = space_after(s, next)?;
    Some(StepAsk { place, from })
}

// `Y kind m g d map alphabet file string`
fn agree_line(s: &[u8]) -> Option<AgreeAsk> {
    let (limits, a) = four_after(s, 1)?;
    let (letters, b) = both_after(s, a)?;
    let from = space_after(s, b)?;
    Some(AgreeAsk {
        limits,
        letters,
        from,
    })
}

// One line, without its line end.
fn file_line(s: &[u8]) -> Option<FileAsk> {
    if BYTES < s.len() {
        return None;
    }
    match *s.first()? {
        b'F' => Some(FileAsk::Step(step_line(s)?)),
        b'Y' => Some(FileAsk::Agree(agree_line(s)?)),
        _ => None,
    }
}

// One step of the reader over the file, which is the rest of the line.
fn step_from(asked: StepAsk, line: &[u8], room: &mut [u8], out: &mut [u8]) -> usize
    ensures { result ≤ length out.old }
{
    let file = read_hex(line, asked.from, room);
    if file.next != line.len() {
        return put_refusal(out, Refusal::NotUnderstood.number());
    }
    put_step(out, reader::read(&room[..file.bytes], asked.place))
}

// The second question. The file ends at a space, and the string is the rest of the line.
fn agreement(asked: AgreeAsk, line: &[u8], room: &mut [u8], out: &mut [u8]) -> usize
    ensures { result ≤ length out.old }
{
    let file = read_hex(line, asked.from, room);
    let Some(string) = space_after(line, file.next) else {
        return put_refusal(out, Refusal::NotUnderstood.number());
    };
    let map = asked.letters.map.lent();
    let alphabet = asked.letters.alphabet.lent();
    let text = text_with(&line[string..], &map, &alphabet);
    let number = number_of(agree(text, asked.limits, &room[..file.bytes]));
    let mut page = Page { room: out, at: 0 };
    page.put_line(b'Y', &[number]);
    page.at
}

// A line that asks about a file, or is not understood.
pub fn answer_file(line: &[u8], room: &mut [u8], out: &mut [u8]) -> usize
    ensures { result ≤ length out.old }
{
    match file_line(line) {
        Some(FileAsk::Step(a)) => step_from(a, line, room, out),
        Some(FileAsk::Agree(a)) => agreement(a, line, room, out),
        None => put_refusal(out, Refusal::NotUnderstood.number()),
    }
}
