// The text of every reply, put into a lent room.
#![tactic(auto)]

ghost use Rattle.std.specs.Prelude.{◌≡◌, [], ◌∷◌, ◌/◌, ◌≤◌, length, Ok};
ghost use Rattle.records.specs.Records.{record_size};
ghost use Rattle.printing.specs.Printing.{Put, printed};
ghost use Rattle.printing.specs.Pages.{PutOn};
ghost use Rattle.replies.specs.Replies.{refusal_text, said_text, restored_text};
ghost use Rattle.replies.specs.Work.{record_line, record_lines};

use printing::Page;
use reader::record_at;
use records::SIZE;
use sheet::Said;
use terms::limits::Limits;
use terms::refusal::Refusal;

// A refusal: `!` and its number. A number and no `Refusal`: this function's promise is of every number.
pub fn put_refusal(out: &mut [u8], number: usize) -> usize
    ensures { Put out.old 0 (refusal_text number) result out.new }
{
    let mut page = Page { room: out, at: 0 };
    page.put_line(b'!', &[number]);
    page.at
}

// The line of a letter put in or taken out: its place, the letter, how many letters there are, how many changes stand.
fn put_shift(page: &mut Page<'_>, mark: u8, place: usize, byte: u8, n: usize, standing: usize)
    ensures { PutOn page.old (printed mark (place ∷ byte ∷ n ∷ standing ∷ [])) page.new }
{
    page.put_line(mark, &[place, usize::from(byte), n, standing]);
}

// The line of a limits call: all four limits, how many changes stand.
fn put_limits(page: &mut Page<'_>, mark: u8, limits: Limits, standing: usize)
    ensures { PutOn page.old (printed mark (limits.kind ∷ limits.m ∷ limits.g ∷ limits.d ∷ standing ∷ [])) page.new }
{
    page.put_line(mark, &[limits.kind, limits.m, limits.g, limits.d, standing]);
}

// The line of what an accepted call says.
fn put_accepted(page: &mut Page<'_>, said: Said)
    ensures { PutOn page.old (said_text (Ok said)) page.new }
{
    match said {
        Said::Opened { n } => page.put_line(b'O', &[n, 0]),
        Said::Letter {
            place,
            old,
            new,
            standing,
        } => page.put_line(b'L', &[place, usize::from(old), usize::from(new), standing]),
        Said::PutIn {
            place,
            byte,
            n,
            standing,
        } => put_shift(page, b'I', place, byte, n, standing),
        Said::TakeOut {
            place,
            byte,
            n,
            standing,
        } => put_shift(page, b'X', place, byte, n, standing),
        Said::Kind { now, standing } => put_limits(page, b'K', now, standing),
        Said::Lengths { now, standing } => put_limits(page, b'M', now, standing),
    }
}

// The line of what a call says.
pub fn put_said(page: &mut Page<'_>, said: Result<Said, Refusal>)
    ensures { PutOn page.old (said_text said) page.new }
{
    match said {
        Ok(said) => put_accepted(page, said),
        Err(refusal) => page.put_line(b'!', &[refusal.number()]),
    }
}

// What a take-back or a put-again says: its letter, a space and the line of what was restored.
pub fn put_restored(page: &mut Page<'_>, letter: u8, said: Result<Said, Refusal>)
    ensures { PutOn page.old (restored_text letter said) page.new }
{
    match said {
        Ok(said) => {
            page.put_byte(letter);
            page.put_byte(b' ');
            put_accepted(page, said)
        }
        Err(_) => put_said(page, said),
    }
}

// The line of the record that these bytes begin with.
fn put_record_line(page: &mut Page<'_>, bytes: &[u8])
    requires { record_size ≤ length bytes.now }
    ensures { PutOn page.old (record_line bytes.now 0) page.new }
{
    let found = record_at(bytes, 0);
    let errors = usize::from(found.errors);
    page.put_line(found.tag, &[found.start, found.length, errors]);
}

// The lines of a room's records. What stands behind the last whole record is passed over.
pub fn put_record_lines(page: &mut Page<'_>, records: &[u8])
    requires { page.old.at ≤ length page.old.room.now }
    ensures { PutOn page.old (record_lines records.now (length records.now / record_size)) page.new }
{
    for bytes in records.chunks_exact(SIZE) {
        put_record_line(page, bytes);
    }
}
