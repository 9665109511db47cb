// The sheet of a call: one string, its map, alphabet and limits, and the changes made to it.
#![tactic(auto)]

mod bounds;

ghost use Rattle.std.specs.Prelude.{◌≡◌, true, ◌≤◌, ◌<◌, leb, Err};
ghost use Rattle.terms.specs.Sizes.{most_changes};
ghost use Rattle.terms.specs.Refusals.{first_fault, fault_of};
ghost use Rattle.terms.specs.Texts.{opening_faults};
ghost use Rattle.texts.specs.Lent.{text_of};
ghost use Rattle.changes.specs.Work.{fits};
ghost use Rattle.sheet.specs.Calls.{CallReply, said_of, applied, changed, change_faults, change_call, letter_faults, put_in_faults, take_out_faults, kind_call_faults, lengths_call_faults, take_back_faults, put_again_faults, letter_call, put_in_call, take_out_call, kind_call, lengths_call, take_back_call, put_again_call, blank_sheet, open_call};
ghost use Rattle.sheet.specs.Question.{SheetReply};

use changes::{Change, Edit};
use kept::Popped;
use places::{Places, padded};
use questions::{Figures, Untiled};
use shifts::{edited, replaced};
use terms::limits::Limits;
use terms::refusal::Refusal;
use terms::{alphabets, maps};
use texts::Text;

// What an accepted call says back.
#[derive(Clone, Copy)]
pub enum Said {
    Letter {
        place: usize,
        old: u8,
        new: u8,
        standing: usize,
    },
    Kind {
        now: Limits,
        standing: usize,
    },
    Lengths {
        now: Limits,
        standing: usize,
    },
    PutIn {
        place: usize,
        byte: u8,
        n: usize,
        standing: usize,
    },
    TakeOut {
        place: usize,
        byte: u8,
        n: usize,
        standing: usize,
    },
    Opened {
        n: usize,
    },
}

impl Said {
    // What is said back of a change that leaves n letters and the limits now in force, with the number standing.
    fn of(c: Change, n: usize, standing: usize, now: Limits) -> Said
        ensures { result ≡ said_of c n standing now }
    {
        match c {
            Change::Letter { place, old, new } => Said::Letter {
                place,
                old,
                new,
                standing,
            },
            Change::Kind { .. } => Said::Kind { now, standing },
            Change::Lengths { .. } => Said::Lengths { now, standing },
            Change::PutIn { place, byte } => Said::PutIn {
                place,
                byte,
                n,
                standing,
            },
            Change::TakeOut { place, byte } => Said::TakeOut {
                place,
                byte,
                n,
                standing,
            },
        }
    }
}

// Letters stand with n, and kept with two counts: a sheet is fixed memory with no heap, and the definitions speak of all its places.
// No invariant: `in_bounds`, and refusal 24, are promised of any sheet handed in.
// kept[0..standing] stand, oldest first; kept[standing..standing + taken] are taken back, the next to put again first.
#[derive(Clone, Copy)]
pub struct Sheet {
    pub letters: [u8; Sheet::LETTERS],
    pub n: usize,
    pub map: [u8; 256],
    pub alphabet: [u8; 256],
    pub limits: Limits,
    pub kept: [Change; Sheet::CHANGES],
    pub standing: usize,
    pub taken: usize,
}

// What a call hands back: the sheet afterwards, and what is said or why the call is refused.
#[derive(Clone, Copy)]
pub struct Reply {
    pub sheet: Sheet,
    pub said: Result<Said, Refusal>,
}

impl Sheet {
    pub const LETTERS: usize = terms::LETTERS;

    pub const CHANGES: usize = terms::CHANGES;

    // The sheet's places, lent.
    fn places(&self) -> Places<'_>
        requires { self.now.n ≤ 1000 }
        ensures { (result.letters.now ≡ self.entry.now.letters) × (result.n ≡ self.entry.now.n) × (result.map.now ≡ self.entry.now.map) × (result.alphabet.now ≡ self.entry.now.alphabet) }
    {
        Places {
            letters: &self.letters,
            n: self.n,
            map: &self.map,
            alphabet: &self.alphabet,
        }
    }

    // The sheet as it stands, with a refusal.
    fn refused(self, refusal: Refusal) -> Reply
        ensures { result ≡ record { sheet = self; said = Err refusal } }
    {
        let said = Err(refusal);
        Reply { sheet: self, said }
    }

    // No letters, the plain map, all 256 bytes, kind 1, m 1, g 0, d 0, no changes.
    #[tactic(auto, unfolding(crate::specs::Calls::blank_sheet, crate::specs::Calls::opened, places::specs::Places::padded_to))]
    pub fn blank() -> Sheet
        ensures { result ≡ blank_sheet }
    {
        let none = Change::Letter {
            place: 0,
            old: 0,
            new: 0,
        };
        Sheet {
            letters: [0; Sheet::LETTERS],
            n: 0,
            map: maps::plain(),
            alphabet: alphabets::all(),
            limits: Limits {
                kind: 1,
                m: 1,
                g: 0,
                d: 0,
            },
            kept: [none; Sheet::CHANGES],
            standing: 0,
            taken: 0,
        }
    }

    // Opens a sheet: copies string, map, limits and alphabet. A refused opening gives the blank sheet.
    #[tactic(auto, using(terms::proofs::Passed::sound_opening, crate::proofs::Replying::call_accepted), unfolding(crate::specs::Calls::opened, crate::specs::Calls::blank_sheet))]
    pub fn open(text: Text, limits: Limits) -> Reply
        ensures { CallReply (opening_faults (text_of text.entry) limits) (open_call (text_of text.entry) limits) result }
    {
        if let Err(refusal) = text.check_opening(limits) {
            return Sheet::blank().refused(refusal);
        }
        let n = text.letters.len();
        Reply {
            sheet: Sheet {
                letters: padded(text.letters),
                n,
                map: padded(text.map),
                alphabet: padded(text.alphabet),
                limits,
                ..Sheet::blank()
            },
            said: Ok(Said::Opened { n }),
        }
    }

    // Makes an edit, sets the counts, and says the edit back.
    #[tactic(auto, using(shifts::proofs::Inside::fits_places), unfolding(crate::specs::Calls::applied))]
    fn apply(self, e: Edit, standing: usize, taken: usize) -> Reply
        requires { (self.n ≤ 1000) × (fits self.n e ≡ true) }
        ensures { result ≡ applied self e standing taken }
    {
        let n = self.n;
        let letters = self.letters;
        let limits = self.limits;
        let n_after = e.length_after(n);
        let letters_after = edited(letters, n, e);
        let limits_after = e.limits_after(limits);
        let c = replaced(letters, limits, e);
        let said = Said::of(c, n_after, standing, limits_after);
        let next = Sheet {
            letters: letters_after,
            n: n_after,
            limits: limits_after,
            standing,
            taken,
            ..self
        };
        Reply {
            sheet: next,
            said: Ok(said),
        }
    }

    // Makes an edit, keeps it as the newest change, and empties the list of those taken back.
    #[tactic(auto, using(shifts::proofs::Inside::fits_places), unfolding(crate::specs::Calls::applied, crate::specs::Calls::changed))]
    fn change(self, e: Edit) -> Reply
        requires { (self.n ≤ 1000) × (fits self.n e ≡ true) × (self.standing < 64) }
        ensures { result ≡ changed self e }
    {
        let at = self.standing;
        let letters = self.letters;
        let limits = self.limits;
        let mut next = self;
        next.kept[at] = replaced(letters, limits, e);
        next.apply(e, at + 1, 0)
    }

    // Whether 64 changes stand.
    fn full(self) -> bool
        ensures { result ≡ leb most_changes self.standing }
    {
        Sheet::CHANGES <= self.standing
    }

    // The first refusal of a call for a change.
    #[tactic(auto, using(terms::proofs::Named::not_zero, terms::proofs::Named::handed_on, crate::proofs::Replying::change_24, crate::proofs::Replying::change_own, crate::proofs::Replying::change_7, crate::proofs::Replying::change_0))]
    fn check_change(self, e: Edit) -> Result<(), Refusal>
        ensures { fault_of result ≡ first_fault (change_faults self e) }
    {
        if !self.in_bounds() {
            return Err(Refusal::OutOfBounds);
        }
        // A copy: a sheet of which a part is lent is copied whole wherever it is handed on.
        let alphabet = self.alphabet;
        e.check(self.n, &alphabet)?;
        if self.full() {
            return Err(Refusal::AllStand);
        }
        Ok(())
    }

    // Makes the change that an edit asks for, or refuses it: what every call for a change does.
    #[tactic(auto, using(crate::proofs::Replying::call_accepted, crate::proofs::Replying::changed_accepted))]
    pub fn ask(self, e: Edit) -> Reply
        ensures { CallReply (change_faults self e) (change_call self e) result }
    {
        if let Err(refusal) = self.check_change(e) {
            return self.refused(refusal);
        }
        self.change(e)
    }

    // Puts a letter in its place.
    pub fn put_letter(self, place: usize, byte: u8) -> Reply
        ensures { CallReply (letter_faults self place byte) (letter_call self place byte) result }
    {
        self.ask(Edit::Letter { place, byte })
    }

    // Puts a letter in before a place; at place n behind the last one.
    pub fn put_in(self, place: usize, byte: u8) -> Reply
        ensures { CallReply (put_in_faults self place byte) (put_in_call self place byte) result }
    {
        self.ask(Edit::PutIn { place, byte })
    }

    // Takes the letter at a place out.
    pub fn take_out(self, place: usize) -> Reply
        ensures { CallReply (take_out_faults self place) (take_out_call self place) result }
    {
        self.ask(Edit::TakeOut { place })
    }

    // Puts kind and error limit; shortest length and gap limit stay.
    pub fn put_kind(self, kind: usize, d: usize) -> Reply
        ensures { CallReply (kind_call_faults self kind d) (kind_call self kind d) result }
    {
        self.ask(Edit::Kind { kind, d })
    }

    // Puts shortest length and gap limit; kind and error limit stay.
    pub fn put_lengths(self, m: usize, g: usize) -> Reply
        ensures { CallReply (lengths_call_faults self m g) (lengths_call self m g) result }
    {
        self.ask(Edit::Lengths { m, g })
    }

    // Takes the newest standing change back.
    // This and `put_again` are two functions: what is popped, refused, made and counted all differ, and popping needs the bounds tested first.
    #[tactic(auto, using(crate::proofs::Within::few_changes, crate::proofs::Within::few_letters, crate::proofs::Replying::newest_fits))]
    pub fn take_back(self) -> Reply
        ensures { CallReply (take_back_faults self) (take_back_call self) result }
    {
        if !self.in_bounds() {
            return self.refused(Refusal::OutOfBounds);
        }
        let kept = self.kept;
        let Popped::Change(c) = kept::newest(&kept, self.standing) else {
            return self.refused(Refusal::NoneStands);
        };
        self.apply(c.back(), self.standing - 1, self.taken + 1)
    }

    // Puts the change that was taken back last again.
    #[tactic(auto, using(crate::proofs::Within::few_changes, crate::proofs::Within::few_letters, crate::proofs::Replying::last_fits))]
    pub fn put_again(self) -> Reply
        ensures { CallReply (put_again_faults self) (put_again_call self) result }
    {
        if !self.in_bounds() {
            return self.refused(Refusal::OutOfBounds);
        }
        let kept = self.kept;
        let Popped::Change(c) = kept::last_taken(&kept, self.standing, self.taken) else {
            return self.refused(Refusal::NoneTakenBack);
        };
        self.apply(c.done(), self.standing + 1, self.taken - 1)
    }

    // The tiling question on the sheet's own letters, map, alphabet and limits; the sheet stays.
    #[tactic(auto, using(crate::proofs::Within::few_letters))]
    pub fn question(self, table: &mut [u16], room: &mut [u8]) -> Result<Figures, Untiled>
        ensures { SheetReply self table.old table.new room.old room.new result }
    {
        if !self.in_bounds() {
            return Err(Untiled::Refused(Refusal::OutOfBounds));
        }
        // The copy lends its places, so that the sheet itself is handed on as it came.
        let held = self;
        held.places().tile(held.limits, table, room)
    }
}
