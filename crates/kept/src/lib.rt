// The kept changes of a sheet: one array with two counts. kept[0..standing] stand, oldest first; the next `taken` are taken back, the next to put again first.
#![tactic(auto)]

ghost use Rattle.std.specs.Prelude.{◌≡◌, [], ◌∷◌, ◌+◌, ◌-◌, ◌≤◌, eqb};
ghost use Rattle.terms.specs.Refusals.{first_fault};
ghost use Rattle.kept.specs.Lists.{kept_at, kept_accepted};
ghost use Rattle.kept.specs.Work.{popping, popped_number, popped_of};

use changes::Change;
use terms::CHANGES;

// Whether there are at most 64 changes in both lists together, each one that its call would accept at the length it was made for: back over those that stand, the newest first, then from the present n forth over those taken back.
// The array goes with its two counts, and not as two slices: `kept_accepted` speaks of any counts, and those past the array are refused here.
pub fn accepted(
    kept: &[Change; CHANGES],
    standing: usize,
    taken: usize,
    n: usize,
    alphabet: &[u8],
) -> bool
    ensures { result ≡ kept_accepted n alphabet.now kept.now standing taken }
{
    if CHANGES < standing || CHANGES - standing < taken {
        return false;
    }
    let mut reached = n;
    for c in kept[..standing].iter().rev() {
        let back = c.back();
        let done = c.done();
        if !back.accepted_then(done, reached, alphabet) {
            return false;
        }
        reached = back.length_after(reached);
    }
    reached = n;
    for c in &kept[standing..standing + taken] {
        let back = c.back();
        let done = c.done();
        if !done.accepted_then(back, reached, alphabet) {
            return false;
        }
        reached = done.length_after(reached);
    }
    true
}

// What popping the history answers. No Option: the two cases are the form that is named for it (docs/DECISIONS.md, Forms), and `popped_number` is promised of them.
#[derive(Clone, Copy)]
pub enum Popped {
    Change(Change),
    Nothing,
}

// The change found, as it is popped. A function of this file and no `From`: popping makes it the newest or the last; an Option of a change is neither by itself.
fn as_popped(found: Option<Change>) -> Popped
    ensures { result ≡ popped_of found }
{
    match found {
        Some(c) => Popped::Change(c),
        None => Popped::Nothing,
    }
}

// Pops the newest standing change, if any stands.
pub fn newest(kept: &[Change; CHANGES], standing: usize) -> Popped
    requires { standing ≤ 64 }
    ensures { (result ≡ popping standing (kept_at kept.now (standing - 1))) × (popped_number 8 result ≡ first_fault ((8, eqb standing 0) ∷ [])) }
{
    as_popped(kept[..standing].last().copied())
}

// Pops the change that was taken back last, if any was.
pub fn last_taken(kept: &[Change; CHANGES], standing: usize, taken: usize) -> Popped
    requires { standing + taken ≤ 64 }
    ensures { (result ≡ popping taken (kept_at kept.now standing)) × (popped_number 9 result ≡ first_fault ((9, eqb taken 0) ∷ [])) }
{
    as_popped(kept[standing..standing + taken].first().copied())
}
