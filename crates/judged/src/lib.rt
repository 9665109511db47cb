// One returned record judged by itself: whether its six bytes are the record of a part of the string.
#![tactic(auto)]

ghost use Rattle.std.specs.Prelude.{◌+◌, ◌≤◌, ◌<◌, length};
ghost use Rattle.terms.specs.Tells.{Tells};
ghost use Rattle.terms.specs.Passed.{SoundString, EverySound, SoundLimits};
ghost use Rattle.spans.specs.Work.{Own};
ghost use Rattle.reader.specs.Reader.{record_bytes};
ghost use Rattle.judged.specs.Judged.{Right};
ghost use Rattle.judged.specs.Work.{RightPiece, sound_limits_prop};

use reader::{Record, record_at};
use records::{GAP, PIECE};
use spans::outward::walk;
use spans::pairs::count_errors;
use terms::limits::Limits;
use texts::Text;

// What records are judged by: a text, limits, and whether the map has an own-partner letter within the alphabet.
// `own` stands beside the text since reckoning it takes 256 steps: once a file and not once a record.
#[derive(Clone, Copy)]
pub struct Judge<'a> {
    pub text: Text<'a>,
    pub limits: Limits,
    pub own: bool,
    ghost sound_string: { SoundString text.letters.now text.map.now },
    ghost sound_limits: { SoundLimits limits } by { sound_limits_prop limits },
}

impl<'a> Judge<'a> {
    // Whether the letters that a record names are a piece with so many errors.
    // For kind 1 that is one without errors, for kind 2 one as long as the walk of its centre.
    #[tactic(auto, using(crate::proofs::Testing::too_short, crate::proofs::Testing::goes_past, crate::proofs::Testing::other_errors))]
    fn piece(self, found: Record) -> bool
        requires sizes { (found.start < 65536) × (found.length < 65536) }
        ensures { EverySound self.entry.text.letters.now self.entry.text.map.now (Own self.entry.own) (λ x. Tells result (RightPiece x self.entry.limits found.start found.length found.errors)) }
    {
        let start = found.start;
        let len = found.length;
        let limits = self.limits;
        if len < limits.m || self.text.letters.len() < start + len {
            return false;
        }
        let counted = count_errors(self.text, start, len);
        if counted != usize::from(found.errors) {
            return false;
        }
        if limits.kind == 1 {
            return counted == 0;
        }
        let reach = walk(self.text, limits.d, start + start + len - 1, self.own);
        len == usize::from(reach.length)
    }

    // Whether the six bytes from a place are the record of a part of the string. The promise is of any place, as `record_at`'s is.
    pub fn right(self, file: &[u8], at: usize) -> bool
        requires at_in_bounds { at + 6 ≤ length file.now }
        ensures { EverySound self.entry.text.letters.now self.entry.text.map.now (Own self.entry.own) (λ x. Tells result (Right x self.entry.limits (record_bytes file.now at))) }
    {
        let found = record_at(file, at);
        match found.tag {
            PIECE => self.piece(found),
            GAP => found.errors == 0
                && found.length != 0
                && found.start + found.length <= self.text.letters.len(),
            _ => false,
        }
    }
}
