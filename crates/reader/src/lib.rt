// Part records read back, one record a step.
#![tactic(auto)]

ghost use Rattle.std.specs.Prelude.{◌≡◌, ◌+◌, ◌*◌, ◌≤◌, length};
ghost use Rattle.terms.specs.Refusals.{first_fault, fault_of};
ghost use Rattle.reader.specs.Reader.{record_at, step_faults, step_of};

use records::{GAP, PIECE, SIZE};
use terms::refusal::Refusal;

// What a record says of its part. The tag is a byte and no enum: `record_at` never fails and gives whatever byte stands there, and any is judged.
#[derive(Clone, Copy)]
pub struct Record {
    pub tag: u8,
    pub errors: u8,
    pub start: usize,
    pub length: usize,
}

// The number in two bytes, high byte first.
fn word(high: u8, low: u8) -> usize
    ensures { result ≡ high * 256 + low }
{
    usize::from(u16::from_be_bytes([high, low]))
}

// The record in the six bytes from a place. The promise is of any place, as `step` reads at one.
pub fn record_at(file: &[u8], at: usize) -> Record
    requires { at + 6 ≤ length file.now }
    ensures { result ≡ record_at file.now at }
{
    Record {
        tag: file[at],
        errors: file[at + 1],
        start: word(file[at + 2], file[at + 3]),
        length: word(file[at + 4], file[at + 5]),
    }
}

// The first refusal of a step from a place.
#[tactic(auto, unfolding(crate::specs::Reader::step_faults, terms::specs::Refusals::first_fault))]
fn check_step(file: &[u8], at: usize) -> Result<(), Refusal>
    ensures { fault_of result ≡ first_fault (step_faults file.now at) }
{
    if file.len() < at || at % SIZE != 0 {
        return Err(Refusal::NoSuchPlace);
    }
    if file.len() - at < SIZE {
        return Err(Refusal::NoWholeRecord);
    }
    let tag = file[at];
    if tag != PIECE && tag != GAP {
        return Err(Refusal::WrongRecord);
    }
    Ok(())
}

// One step from a place of a file: a part with the place of the next, nothing at the end, or a refusal.
#[tactic(auto, using(crate::proofs::Steps::whole_record, crate::proofs::Steps::refused_step), unfolding(crate::specs::Reader::step_of))]
pub fn step(file: &[u8], at: usize) -> Result<Option<(Record, usize)>, Refusal>
    ensures { result ≡ step_of file.now at }
{
    if at == file.len() {
        return Ok(None);
    }
    check_step(file, at)?;
    let found = record_at(file, at);
    Ok(Some((found, at + SIZE)))
}

// A reader: the lent file, and the place of the next record.
#[derive(Clone, Copy)]
pub struct Reader<'a> {
    pub file: &'a [u8],
    pub place: usize,
}

impl<'a> Reader<'a> {
    // A reader that stands at a place of a file.
    pub fn at(file: &'a [u8], place: usize) -> Reader<'a>
        ensures { (result.file ≡ file.entry) × (result.place ≡ place) }
    {
        Reader { file, place }
    }

    // The reader, moved to another place of its file.
    pub fn moved(self, place: usize) -> Reader<'a>
        ensures { (result.file ≡ self.entry.file) × (result.place ≡ place) }
    {
        Reader { place, ..self }
    }

    // What the reader has before it.
    pub fn next(self) -> Result<Option<(Record, usize)>, Refusal>
        ensures { result ≡ step_of self.entry.file.now self.entry.place }
    {
        step(self.file, self.place)
    }
}

// One step of a reader at a place, for callers that hold no reader.
pub fn read(file: &[u8], place: usize) -> Result<Option<(Record, usize)>, Refusal>
    ensures { result ≡ step_of file.now place }
{
    Reader::at(file, place).next()
}
