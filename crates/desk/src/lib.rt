// The desk: one line in, one reply out. It holds a sheet once an opening was accepted.
#![tactic(auto)]

ghost use Rattle.std.specs.Prelude.{◌≡◌};
ghost use Rattle.terms.specs.Refusals.{refusal_number};
ghost use Rattle.terms.specs.Texts.{text_all};
ghost use Rattle.sheet.specs.Calls.{open_call, change_call, take_back_call, put_again_call};
ghost use Rattle.replies.specs.Replies.{said_text, restored_text, refusal_text};
ghost use Rattle.desk.specs.Desk.{new_desk, with_sheet, map_of, opening, calling, DeskReply};
ghost use Rattle.desk.specs.Work.{said_behind, Turned, AskedOf};

use changes::Edit;
use lines::Line;
use printing::Page;
use records::SIZE;
use replies::{put_record_lines, put_refusal, put_restored, put_said};
use sheet::{Reply, Sheet};
use terms::limits::Limits;
use terms::refusal::Refusal;
use terms::{alphabets, maps};
use texts::Text;

// A sheet, if one is open.
#[derive(Clone, Copy)]
pub struct Desk {
    pub sheet: Option<Sheet>,
}

// The desk after a line, and how many bytes of its reply stand at the start of the room.
#[derive(Clone, Copy)]
pub struct Turn {
    pub desk: Desk,
    pub written: usize,
}

// The map that a line names.
fn map_of(complement: bool) -> [u8; 256]
    ensures { result ≡ map_of complement }
{
    if complement {
        maps::complement()
    } else {
        maps::plain()
    }
}

// The sheet that a call hands back goes on the desk, and what the call says is printed. A take-back and a put-again give the letter of their line.
fn said(reply: Reply, letter: Option<u8>, out: &mut [u8]) -> Turn
    ensures { Turned (with_sheet reply.sheet, said_behind letter reply.said) out.old out.new result }
{
    let mut page = Page { room: out, at: 0 };
    match letter {
        None => put_said(&mut page, reply.said),
        Some(letter) => put_restored(&mut page, letter, reply.said),
    }
    Turn {
        desk: Desk {
            sheet: Some(reply.sheet),
        },
        written: page.at,
    }
}

impl Desk {
    // No sheet is open yet.
    pub fn new() -> Desk
        ensures { result ≡ new_desk }
    {
        Desk { sheet: None }
    }

    // The desk stays, and a refusal is printed.
    fn refused(self, refusal: Refusal, out: &mut [u8]) -> Turn
        ensures { Turned (self, refusal_text (refusal_number refusal)) out.old out.new result }
    {
        let written = put_refusal(out, refusal.number());
        Turn {
            desk: self,
            written,
        }
    }

    // An opening; a refused one leaves the former sheet.
    fn open(self, limits: Limits, complement: bool, string: &[u8], out: &mut [u8]) -> Turn
        ensures { Turned (opening self (open_call (text_all string.now (map_of complement)) limits)) out.old out.new result }
    {
        let map = map_of(complement);
        let all = alphabets::all();
        let text = Text {
            letters: string,
            map: &map,
            alphabet: &all,
        };
        let reply = Sheet::open(text, limits);
        match reply.said {
            Ok(_) => said(reply, None, out),
            Err(refusal) => self.refused(refusal, out),
        }
    }

    // A call for a change; 14 where no sheet is open.
    // This and the two below stay three functions: one for all needs a match on the line and on its letter, which `answer` has already.
    // With the call as a closure each line copied the sheet three times more, as was measured; a match here once more, which a `let .. else` doesn't.
    #[tactic(auto, unfolding(crate::specs::Desk::calling))]
    fn change(self, e: Edit, out: &mut [u8]) -> Turn
        ensures { Turned (calling self (λ s. change_call s e) said_text) out.old out.new result }
    {
        let Some(sheet) = self.sheet else {
            return self.refused(Refusal::NoSheet, out);
        };
        said(sheet.ask(e), None, out)
    }

    // A take-back; 14 where no sheet is open.
    #[tactic(auto, unfolding(crate::specs::Desk::calling))]
    fn take_back(self, out: &mut [u8]) -> Turn
        ensures { Turned (calling self take_back_call (restored_text 66)) out.old out.new result }
    {
        let Some(sheet) = self.sheet else {
            return self.refused(Refusal::NoSheet, out);
        };
        said(sheet.take_back(), Some(b'B'), out)
    }

    // A put-again; 14 where no sheet is open.
    #[tactic(auto, unfolding(crate::specs::Desk::calling))]
    fn put_again(self, out: &mut [u8]) -> Turn
        ensures { Turned (calling self put_again_call (restored_text 65)) out.old out.new result }
    {
        let Some(sheet) = self.sheet else {
            return self.refused(Refusal::NoSheet, out);
        };
        said(sheet.put_again(), Some(b'A'), out)
    }

    // The question: its refusal, or the tiling's figures and a line for each record; 14 where no sheet is open.
    fn question(self, table: &mut [u16], room: &mut [u8], out: &mut [u8]) -> Turn
        ensures { AskedOf self table.old table.new room.old room.new out.old out.new result }
    {
        let Some(sheet) = self.sheet else {
            return self.refused(Refusal::NoSheet, out);
        };
        let answer = match sheet.question(table, room) {
            Ok(answer) => answer,
            Err(why) => return self.refused(Refusal::from(why), out),
        };
        let mut page = Page { room: out, at: 0 };
        page.put_line(b'Q', &[answer.total, answer.parts, answer.gaps]);
        put_record_lines(&mut page, &room[..SIZE * answer.parts]);
        Turn {
            desk: self,
            written: page.at,
        }
    }

    // Answers a line: the desk afterwards, and the reply's bytes at the start of the room `out`.
    pub fn answer(self, line: &[u8], table: &mut [u16], room: &mut [u8], out: &mut [u8]) -> Turn
        ensures { DeskReply self line.now table.old table.new room.old room.new out.old out.new result }
    {
        let Some(asked) = lines::parse(line) else {
            return self.refused(Refusal::NotUnderstood, out);
        };
        match asked {
            Line::Open {
                limits,
                complement,
                from,
            } => self.open(limits, complement, &line[from..], out),
            Line::Change { edit } => self.change(edit, out),
            Line::TakeBack => self.take_back(out),
            Line::PutAgain => self.put_again(out),
            Line::Question => self.question(table, room, out),
        }
    }
}
