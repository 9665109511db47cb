// Part records that come back: whether they still agree with a string, its map, its limits and its alphabet.
#![tactic(auto)]

ghost use Rattle.std.specs.Prelude.{◌≡◌, ◌%◌, length};
ghost use Rattle.terms.specs.Refusals.{fault_of};
ghost use Rattle.terms.specs.Passed.{SoundText, SoundLimits};
ghost use Rattle.texts.specs.Lent.{text_of};
ghost use Rattle.returned.specs.Returned.{AgreeReply};
ghost use Rattle.returned.specs.Work.{Judged, Decides};

use judged::Judge;
use reader::record_at;
use records::{GAP, SIZE};
use terms::limits::Limits;
use terms::refusal::Refusal;
use texts::Text;

// Whether every record is a right part.
fn all_right(text: Text, limits: Limits, file: &[u8]) -> bool
    requires sound_text { SoundText (text_of text) }
    requires sound_limits { SoundLimits limits }
    requires whole_records { length file.now % 6 ≡ 0 }
    ensures { Judged result (text_of text.entry) limits file.now }
{
    let judge = Judge {
        text,
        limits,
        own: text.own_partner(),
    };
    file.chunks_exact(SIZE).all(|record| judge.right(record, 0))
}

// Whether right records tile n letters with at most g gaps: each begins where the last ended, and no gap follows a gap.
#[tactic(auto, using(crate::proofs::Following::following))]
fn tiles(file: &[u8], n: usize, g: usize) -> bool
    requires { length file.now % 6 ≡ 0 }
    ensures { Decides result n g file.now }
{
    let mut i = 0;
    let mut gaps = 0;
    let mut behind = false;
    for record in file.chunks_exact(SIZE) {
        let found = record_at(record, 0);
        if found.start != i {
            return false;
        }
        let gap = found.tag == GAP;
        if behind && gap {
            return false;
        }
        i += found.length;
        gaps += usize::from(gap);
        behind = gap;
    }
    i == n && gaps <= g
}

// Whether returned records are a permitted tiling: the first refusal where they are not.
#[tactic(auto, using(crate::proofs::Judging::replies), unfolding(crate::specs::Work::Judged, terms::specs::Tells::Tells))]
pub fn agree(text: Text, limits: Limits, file: &[u8]) -> Result<(), Refusal>
    ensures { AgreeReply (text_of text.entry) limits file.now (fault_of result) }
{
    text.check_opening(limits)?;
    if file.len() % SIZE != 0 {
        return Err(Refusal::NoWholeRecord);
    }
    if !all_right(text, limits, file) {
        return Err(Refusal::WrongRecord);
    }
    if !tiles(file, text.letters.len(), limits.g) {
        return Err(Refusal::NotATiling);
    }
    Ok(())
}
