// Changes to a sheet: all go through one edit, made or taken back.
#![tactic(auto)]

ghost use Rattle.std.specs.Prelude.{◌≡◌, true};
ghost use Rattle.terms.specs.Refusals.{first_fault, fault_of};
ghost use Rattle.changes.specs.Changes.{done_of, back_of, length_by, limits_by, place_fault, letter_fault, edit_faults, accepts, accepts_then};
ghost use Rattle.changes.specs.Work.{fits};

use terms::LETTERS;
use terms::alphabets::is_in;
use terms::limits::{Limits, check_kind, check_lengths};
use terms::refusal::Refusal;

// A change, with what it replaced.
#[derive(Clone, Copy)]
pub enum Change {
    Letter {
        place: usize,
        old: u8,
        new: u8,
    },
    Kind {
        old_kind: usize,
        old_d: usize,
        kind: usize,
        d: usize,
    },
    Lengths {
        old_m: usize,
        old_g: usize,
        m: usize,
        g: usize,
    },
    PutIn {
        place: usize,
        byte: u8,
    },
    TakeOut {
        place: usize,
        byte: u8,
    },
}

// What a change does, or what takes it back.
#[derive(Clone, Copy)]
pub enum Edit {
    Letter { place: usize, byte: u8 },
    Kind { kind: usize, d: usize },
    Lengths { m: usize, g: usize },
    PutIn { place: usize, byte: u8 },
    TakeOut { place: usize },
}

// Refuses, with 6, a place that is none of n letters.
#[tactic(auto, unfolding(crate::specs::Changes::place_fault, terms::specs::Refusals::first_fault))]
fn check_place(place: usize, n: usize) -> Result<(), Refusal>
    ensures { fault_of result ≡ first_fault (place_fault n place) }
{
    if place < n {
        Ok(())
    } else {
        Err(Refusal::NoSuchPlace)
    }
}

// Refuses, with 19, a byte outside the alphabet.
#[tactic(auto, unfolding(crate::specs::Changes::letter_fault, terms::specs::Refusals::first_fault))]
fn check_letter(byte: u8, alphabet: &[u8]) -> Result<(), Refusal>
    ensures { fault_of result ≡ first_fault (letter_fault alphabet.now byte) }
{
    if is_in(alphabet, byte) {
        Ok(())
    } else {
        Err(Refusal::OutsideAlphabet)
    }
}

impl Edit {
    // The first refusal that its call has of the edit, on n letters of the alphabet.
    #[tactic(auto, using(terms::proofs::Named::not_zero, terms::proofs::Named::handed_on), unfolding(crate::specs::Changes::edit_faults, crate::specs::Changes::place_fault, crate::specs::Changes::letter_fault, terms::specs::Refusals::first_fault))]
    pub fn check(self, n: usize, alphabet: &[u8]) -> Result<(), Refusal>
        ensures { fault_of result ≡ first_fault (edit_faults n alphabet.now self) }
    {
        match self {
            Edit::Letter { place, byte } => {
                check_place(place, n)?;
                check_letter(byte, alphabet)
            }
            Edit::Kind { kind, d } => check_kind(kind, d),
            Edit::Lengths { m, g } => check_lengths(m, g),
            Edit::PutIn { place, byte } => {
                if n < place {
                    return Err(Refusal::NoSuchPlace);
                }
                if LETTERS <= n {
                    return Err(Refusal::StringTooLong);
                }
                check_letter(byte, alphabet)
            }
            Edit::TakeOut { place } => check_place(place, n),
        }
    }

    // Whether its call would accept the edit, on n letters of the alphabet.
    #[tactic(auto, using(terms::proofs::Named::unrefused), unfolding(crate::specs::Changes::accepts))]
    pub fn accepted(self, n: usize, alphabet: &[u8]) -> bool
        ensures { result ≡ accepts n alphabet.now self }
    {
        self.check(n, alphabet).is_ok()
    }

    // Whether the edit would be accepted on n letters of the alphabet, and then the other on those it leaves.
    #[tactic(auto, using(crate::proofs::Accepting::accepts_fits), unfolding(crate::specs::Changes::accepts_then))]
    pub fn accepted_then(self, other: Edit, n: usize, alphabet: &[u8]) -> bool
        ensures { result ≡ accepts_then n alphabet.now self other }
    {
        self.accepted(n, alphabet) && other.accepted(self.length_after(n), alphabet)
    }

    // The number of letters after the edit, of n letters.
    #[tactic(auto, using(crate::proofs::Accepting::fits_in, crate::proofs::Accepting::fits_out), unfolding(crate::specs::Work::fits))]
    pub fn length_after(self, n: usize) -> usize
        requires { fits n self ≡ true }
        ensures { result ≡ length_by self n }
    {
        match self {
            Edit::Letter { .. } | Edit::Kind { .. } | Edit::Lengths { .. } => n,
            Edit::PutIn { .. } => n + 1,
            Edit::TakeOut { .. } => n - 1,
        }
    }

    // The limits after the edit: what it does not name is kept.
    pub fn limits_after(self, limits: Limits) -> Limits
        ensures { result ≡ limits_by self limits }
    {
        match self {
            Edit::Letter { .. } | Edit::PutIn { .. } | Edit::TakeOut { .. } => limits,
            Edit::Kind { kind, d } => Limits { kind, d, ..limits },
            Edit::Lengths { m, g } => Limits { m, g, ..limits },
        }
    }
}

impl Change {
    // What the change does.
    pub fn done(self) -> Edit
        ensures { result ≡ done_of self }
    {
        match self {
            Change::Letter { place, new, .. } => Edit::Letter { place, byte: new },
            Change::Kind { kind, d, .. } => Edit::Kind { kind, d },
            Change::Lengths { m, g, .. } => Edit::Lengths { m, g },
            Change::PutIn { place, byte } => Edit::PutIn { place, byte },
            Change::TakeOut { place, .. } => Edit::TakeOut { place },
        }
    }

    // What takes it back.
    pub fn back(self) -> Edit
        ensures { result ≡ back_of self }
    {
        match self {
            Change::Letter { place, old, .. } => Edit::Letter { place, byte: old },
            Change::Kind {
                old_kind,
                old_d,
                ..
            } => Edit::Kind {
                kind: old_kind,
                d: old_d,
            },
            Change::Lengths { old_m, old_g, .. } => Edit::Lengths { m: old_m, g: old_g },
            Change::PutIn { place, .. } => Edit::TakeOut { place },
            Change::TakeOut { place, byte } => Edit::PutIn { place, byte },
        }
    }
}
