// The inspect program: lines from standard input, each answered on standard output before more input is waited for.
#![tactic(auto)]

mod alphabets;
mod answers;
mod asks;
mod files;
mod lent;
mod maps;
mod named;
mod shows;

ghost use Rattle.std.specs.Prelude.{◌≤◌, ◌<◌, length};
ghost use Rattle.inspect.specs.Stepping.{Steps};

use crate::answers::answer;
use feed::{Begun, feed};
use std::io::Read;

// The most bytes kept of a line: one more than a line may have, so that a line too long is seen to be so.
const LINE: usize = 1041;

// The most entries, and the most bytes, that a line can have lent: a number has 4 digits.
const LENT: usize = 9999;

// The room for a reply: 9,999 entries of 6 bytes with their spaces, as many bytes of 4, and a first line fit.
const REPLY: usize = 131072;

// What a line is answered with: the entries and the bytes that a call is lent, and the room for the reply.
#[derive(Drop)]
struct Rooms {
    table: [u16; LENT],
    room: [u8; LENT],
    out: [u8; REPLY],
}

// After a step: where the piece is read on, and how many bytes of a reply are to be written.
#[derive(Clone, Copy)]
struct Stepped {
    from: usize,
    written: usize,
}

impl Rooms {
    // One line, without its line end: how many bytes of the reply stand at the start of `out`.
    fn answer(&mut self, line: &[u8]) -> usize
        ensures { result ≤ REPLY }
    {
        answer(line, &mut self.table, &mut self.room, &mut self.out)
    }
}

// Takes the line on to its end in the piece and answers it there, or keeps what the piece has of it. `call` says why each program has one.
fn step(line: &mut Begun<LINE>, piece: &[u8], from: usize, rooms: &mut Rooms) -> Stepped
    requires { from < length piece.now }
    ensures { Steps LINE line.new.at (length piece.now) from REPLY result }
{
    let fed = feed(&mut line.bytes, line.at, piece, from);
    if fed.whole {
        let written = rooms.answer(&line.bytes[..fed.at]);
        line.at = 0;
        return Stepped {
            from: fed.from,
            written,
        };
    }
    line.at = fed.at;
    Stepped {
        from: fed.from,
        written: 0,
    }
}

// All lines that end in a piece, each answered and its reply written before the next is taken on.
fn answer_piece(line: &mut Begun<LINE>, piece: &[u8], rooms: &mut Rooms, rt: &impl Print) {
    let mut s = Stepped {
        from: 0,
        written: 0,
    };
    // No `for`: each step says where the piece is read on.
    while s.from < piece.len() {
        s = step(line, piece, s.from, rooms);
        rt.write_all(&rooms.out[..s.written]).ok();
    }
}

// A loop that may run forever needs the handle `Wait`, and nothing says that the input ends: the count is one that no run uses up.
fn main(rt: HostRuntime) {
    let mut line = Begun {
        bytes: [0; LINE],
        at: 0,
    };
    let mut piece = [0u8; 65536];
    let mut rooms = Rooms {
        table: [0; LENT],
        room: [0; LENT],
        out: [0; REPLY],
    };
    let mut input = rt.stdin();
    for _ in 0..u64::MAX {
        let n = input.read(&mut piece).unwrap_or(0);
        if n == 0 {
            break;
        }
        answer_piece(&mut line, &piece[..n], &mut rooms, &rt);
    }
    if 0 < line.at {
        let n = rooms.answer(&line.bytes[..line.at]);
        rt.write_all(&rooms.out[..n]).ok();
    }
}
