// An edit of the letters in the 1,000 places of a sheet: behind a letter put in or taken out, the others shift by one.
#![tactic(auto)]

ghost use Rattle.std.specs.Prelude.{◌≡◌, true, ◌≤◌, ◌<◌};
ghost use Rattle.changes.specs.Work.{fits};
ghost use Rattle.shifts.specs.Shifts.{places_put_in, places_take_out, letters_by, replacing};
ghost use Rattle.shifts.specs.Work.{in_places};

use changes::{Change, Edit};
use terms::LETTERS;
use terms::limits::Limits;

// The array goes with n beside it, and no slice of the first n: a letter put in takes place n, and `letters_by` speaks of all 1,000 places. What is asked of n differs from one function to the next.

// The first n places with a byte put in before a place.
fn put_in(letters: [u8; LETTERS], n: usize, place: usize, byte: u8) -> [u8; LETTERS]
    requires { (place ≤ n) × (n < 1000) }
    ensures { result ≡ places_put_in letters n place byte }
{
    let mut x = letters;
    x.copy_within(place..n, place + 1);
    x[place] = byte;
    x
}

// The first n places without the letter at a place.
fn take_out(letters: [u8; LETTERS], n: usize, place: usize) -> [u8; LETTERS]
    requires { (place < n) × (n ≤ 1000) }
    ensures { result ≡ places_take_out letters n place }
{
    let mut x = letters;
    x.copy_within(place + 1..n, place);
    x[n - 1] = 0;
    x
}

// The letters after an edit of the first n places.
pub fn edited(letters: [u8; LETTERS], n: usize, e: Edit) -> [u8; LETTERS]
    requires { (n ≤ 1000) × (fits n e ≡ true) }
    ensures { result ≡ letters_by e n letters }
{
    match e {
        Edit::Letter { place, byte } => {
            let mut a = letters;
            a[place] = byte;
            a
        }
        Edit::Kind { .. } | Edit::Lengths { .. } => letters,
        Edit::PutIn { place, byte } => put_in(letters, n, place, byte),
        Edit::TakeOut { place } => take_out(letters, n, place),
    }
}

// The change that an edit makes, with what it replaces.
#[tactic(auto, unfolding(crate::specs::Shifts::replacing))]
pub fn replaced(letters: [u8; LETTERS], limits: Limits, e: Edit) -> Change
    requires { in_places e ≡ true }
    ensures { result ≡ replacing e letters limits }
{
    match e {
        Edit::Letter { place, byte } => {
            let old = letters[place];
            Change::Letter {
                place,
                old,
                new: byte,
            }
        }
        Edit::Kind { kind, d } => Change::Kind {
            old_kind: limits.kind,
            old_d: limits.d,
            kind,
            d,
        },
        Edit::Lengths { m, g } => Change::Lengths {
            old_m: limits.m,
            old_g: limits.g,
            m,
            g,
        },
        Edit::PutIn { place, byte } => Change::PutIn { place, byte },
        Edit::TakeOut { place } => {
            let byte = letters[place];
            Change::TakeOut { place, byte }
        }
    }
}
