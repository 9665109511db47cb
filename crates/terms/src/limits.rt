// The limits of a question, and refusals 4 and 5.
ghost use Rattle.std.specs.Prelude.{◌≡◌};
ghost use Rattle.terms.specs.Refusals.{first_fault, fault_of};
ghost use Rattle.terms.specs.Limits.{wrong_kind, kind_faults, lengths_faults, limits_faults};

use crate::LETTERS;
use crate::refusal::Refusal;

// The most gaps, and the most errors, that a question may allow.
pub const GAPS: usize = 15;

pub const ERRORS: usize = 15;

// Kind, shortest length, gap limit and error limit travel together. The kind is a number and no enum: any number is asked, and `limits_faults` speaks of each.
#[derive(Clone, Copy)]
pub struct Limits {
    pub kind: usize,
    pub m: usize,
    pub g: usize,
    pub d: usize,
}

// What refusal 4 says.
fn wrong_kind(kind: usize) -> bool
    ensures { result ≡ wrong_kind kind }
{
    kind != 1 && kind != 2
}

// The first refusal that kind and error limit meet.
pub fn check_kind(kind: usize, d: usize) -> Result<(), Refusal>
    ensures { fault_of result ≡ first_fault (kind_faults kind d) }
{
    if wrong_kind(kind) {
        return Err(Refusal::WrongKind);
    }
    if ERRORS < d {
        return Err(Refusal::OutOfRange);
    }
    // Kind 1 allows no errors.
    let exact = kind == 1;
    if exact && d != 0 {
        return Err(Refusal::OutOfRange);
    }
    Ok(())
}

// The first refusal that shortest length and gap limit meet.
pub fn check_lengths(m: usize, g: usize) -> Result<(), Refusal>
    ensures { fault_of result ≡ first_fault (lengths_faults m g) }
{
    if m == 0 || LETTERS < m || GAPS < g {
        return Err(Refusal::OutOfRange);
    }
    Ok(())
}

impl Limits {
    // The first refusal that the limits meet.
    pub fn check(self) -> Result<(), Refusal>
        ensures { fault_of result ≡ first_fault (limits_faults self) }
    {
        check_kind(self.kind, self.d)?;
        check_lengths(self.m, self.g)
    }
}
