// What a call answered and left in the lent slices, printed into a lent room.
ghost use Rattle.std.specs.Prelude.{◌≡◌, ℕ, List};
ghost use Rattle.terms.specs.Refusals.{fault_of};
ghost use Rattle.printing.specs.Printing.{printed, Put};
ghost use Rattle.printing.specs.Pages.{PutOn};
ghost use Rattle.inspect.specs.Showing.{Numbers, answer_values, tiling_text, filled_text, stop_text, part_text};

use printing::Page;
use questions::{Figures, Untiled};
use stops::{CentreStop, figures};
use terms::refusal::Refusal;

// A letter, all items of a slice as numbers, and a line end.
// Beside `Page::put_line`, and not in its place: that one promises the numbers lent, which the conversion of a type parameter does not give.
fn put_items<T: Copy + Into<usize>>(page: &mut Page<'_>, letter: u8, items: &[T])
    ensures { (numbers : List ℕ) × Numbers T.converts items.now numbers × PutOn page.old (printed letter numbers) page.new }
{
    page.put_byte(letter);
    for item in items {
        page.put_field((*item).into());
    }
    page.put_byte(b'\n');
}

// The number of what is refused, 0 where nothing is: a number, as the lines print it and the texts in `specs` have it.
pub fn number_of(checked: Result<(), Refusal>) -> usize
    ensures { result ≡ fault_of checked }
{
    match checked {
        Ok(()) => 0,
        Err(refusal) => refusal.number(),
    }
}

// The numbers of an answer: 0 and the figures, or a refusal's number and zeros; 12 also has the parts needed.
fn values_of(answer: Result<Figures, Untiled>) -> [usize; 4]
    ensures { result ≡ answer_values answer }
{
    match answer {
        Ok(found) => [0, found.total, found.parts, found.gaps],
        Err(Untiled::Refused(refusal)) => [refusal.number(), 0, 0, 0],
        Err(Untiled::ShortRoom { parts }) => [Refusal::RoomTooShort.number(), 0, parts, 0],
    }
}

// The tiling question's answer, and what it left in the table and in the room.
pub fn put_tiling(
    out: &mut [u8],
    letter: u8,
    answer: Result<Figures, Untiled>,
    table: &[u16],
    room: &[u8],
) -> usize
    ensures { Put out.old 0 (tiling_text letter answer table.now room.now) result out.new }
{
    let numbers = values_of(answer);
    let mut page = Page { room: out, at: 0 };
    page.put_line(letter, &numbers);
    put_items(&mut page, b'E', table);
    put_items(&mut page, b'R', room);
    page.at
}

// The numbers that a fill answered, and what it left in the entries.
pub fn put_filled(out: &mut [u8], letter: u8, numbers: &[usize], entries: &[u16]) -> usize
    ensures { Put out.old 0 (filled_text letter numbers.now entries.now) result out.new }
{
    let mut page = Page { room: out, at: 0 };
    page.put_line(letter, numbers);
    put_items(&mut page, b'E', entries);
    page.at
}

// What is answered of one centre, in numbers.
pub fn put_stop(out: &mut [u8], found: Result<CentreStop, Refusal>) -> usize
    ensures { Put out.old 0 (stop_text found) result out.new }
{
    let told = figures(found);
    let numbers = [told.number, told.length, told.case, told.left, told.right];
    let mut page = Page { room: out, at: 0 };
    page.put_line(b'D', &numbers);
    page.at
}

// What a check answered, in numbers, beside the part's length, and the part handed over.
pub fn put_part(out: &mut [u8], letter: u8, checked: Result<(), Refusal>, part: &[u8]) -> usize
    ensures { Put out.old 0 (part_text letter (fault_of checked) part.now) result out.new }
{
    let numbers = [number_of(checked), part.len()];
    let mut page = Page { room: out, at: 0 };
    page.put_line(letter, &numbers);
    put_items(&mut page, b'R', part);
    page.at
}
