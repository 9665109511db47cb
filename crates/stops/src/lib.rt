// The question for one centre: how long its palindrome is, and what stops it.
#![tactic(auto)]

ghost use Rattle.std.specs.Prelude.{◌≡◌, [], ◌∷◌};
ghost use Rattle.terms.specs.Refusals.{first_fault, fault_of};
ghost use Rattle.texts.specs.Lent.{text_of};
ghost use Rattle.stops.specs.Centre.{centre_faults, CentreReply, reply_values};

use spans::outward::{Stop, walk};
use spans::{centre_count, check_walk};
use terms::refusal::Refusal;
use texts::Text;

// The first refusal of the question for the centre c.
fn check_centre(text: Text, d: usize, c: usize) -> Result<(), Refusal>
    ensures { fault_of result ≡ first_fault (centre_faults (text_of text.entry) d c) }
{
    check_walk(text, d)?;
    let count = centre_count(text.letters.len());
    if count <= c {
        return Err(Refusal::NoSuchPlace);
    }
    Ok(())
}

// The maximal length of a centre, and what stops it.
#[derive(Clone, Copy, Debug, PartialEq, Eq)]
pub struct CentreStop {
    pub length: usize,
    pub stop: Stop,
}

// The question for the centre c: its maximal length, and what stops it.
pub fn centre_stop(text: Text, d: usize, c: usize) -> Result<CentreStop, Refusal>
    ensures { CentreReply (text_of text.entry) d c result }
{
    check_centre(text, d, c)?;
    let own = text.own_partner();
    let found = walk(text, d, c, own);
    Ok(CentreStop {
        length: usize::from(found.length),
        stop: found.stop,
    })
}

// A reply in numbers, as it is printed, and so no Result: the refusal's number and zeros, or 0, the length, the case's number and its two values.
#[derive(Clone, Copy)]
pub struct CentreFigures {
    pub number: usize,
    pub length: usize,
    pub case: usize,
    pub left: usize,
    pub right: usize,
}

// The reply in numbers, as it is printed.
#[tactic(auto, unfolding(crate::specs::Centre::reply_values))]
pub fn figures(found: Result<CentreStop, Refusal>) -> CentreFigures
    ensures { (result.number ≡ fault_of found) × ((result.length ∷ result.case ∷ result.left ∷ result.right ∷ []) ≡ reply_values found) }
{
    match found {
        Ok(CentreStop { length, stop }) => {
            let (case, left, right) = match stop {
                Stop::Pair { left, right } => (1, left, right),
                Stop::End => (2, 0, 0),
                Stop::Barred => (3, 0, 0),
            };
            CentreFigures {
                number: 0,
                length,
                case,
                left,
                right,
            }
        }
        Err(why) => CentreFigures {
            number: why.number(),
            length: 0,
            case: 0,
            left: 0,
            right: 0,
        },
    }
}
