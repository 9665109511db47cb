// The call program: lines from standard input, each answered on standard output before more input is waited for.
#![tactic(auto)]

ghost use Rattle.std.specs.Prelude.{◌≤◌, ◌<◌, length};
ghost use Rattle.call.specs.Steps.{Reading, Finishing};
ghost use Rattle.call.specs.Work.{Stepping};

use desk::{Desk, Turn};
use feed::{Begun, feed};
use std::io::Read;

// The most bytes kept of a line: one more than a line may have, so that a line too long is seen to be so.
const LINE: usize = 1041;

// Enough for every question and every reply, as the crate `rooms` shows.
const TABLE: usize = 16016;

const RECORDS: usize = 6000;

const REPLY: usize = 65536;

// What a line is answered with: a question's table and records, and the reply.
#[derive(Drop)]
struct Rooms {
    table: [u16; TABLE],
    room: [u8; RECORDS],
    out: [u8; REPLY],
    ghost enough: { (16016 ≤ length table) × (6000 ≤ length room) × (65536 ≤ length out) },
}

// After a step: the desk, where the piece is read on, and how many bytes of a reply are to be written.
#[derive(Clone, Copy)]
struct Progress {
    desk: Desk,
    from: usize,
    written: usize,
}

// Takes the line on to its end in the piece and answers it there, or keeps what the piece has of it.
// `inspect` has a function of this kind and one like `answer_piece`, and rooms of other sizes. One for both needs a trait for what answers a line, with `Reading`
// for its law; that speaks of a desk, and `inspect` promises bounds alone.
fn step(
    desk: Desk,
    line: &mut Begun<LINE>,
    piece: &[u8],
    from: usize,
    rooms: &mut Rooms,
) -> Progress
    requires { from < length piece.now }
    ensures advances { (from < result.from) × (result.from ≤ length piece.now) × (result.written ≤ 65536) }
    ensures stepping { Stepping desk line.old.bytes line.new.bytes line.old.at line.new.at piece.now from rooms.old.table rooms.new.table rooms.old.room rooms.new.room rooms.old.out rooms.new.out result }
{
    let fed = feed(&mut line.bytes, line.at, piece, from);
    if fed.whole {
        // One by one, and by no method of `Rooms`: it would copy the desk once more a line.
        let table = &mut rooms.table;
        let room = &mut rooms.room;
        let out = &mut rooms.out;
        let turn = desk.answer(&line.bytes[..fed.at], table, room, out);
        line.at = 0;
        return Progress {
            desk: turn.desk,
            from: fed.from,
            written: turn.written,
        };
    }
    line.at = fed.at;
    Progress {
        desk,
        from: fed.from,
        written: 0,
    }
}

// All lines that end in a piece, each answered and its reply written before the next is taken on.
fn answer_piece(
    desk: Desk,
    line: &mut Begun<LINE>,
    piece: &[u8],
    rooms: &mut Rooms,
    rt: &impl Print,
) -> Desk
    ensures { Reading desk line.old.bytes line.new.bytes line.old.at line.new.at piece.now rooms.old.table rooms.new.table rooms.old.room rooms.new.room rooms.old.out rooms.new.out result }
{
    let mut s = Progress {
        desk,
        from: 0,
        written: 0,
    };
    // No `for`: each step says where the piece is read on.
    while s.from < piece.len() {
        s = step(s.desk, line, piece, s.from, rooms);
        rt.write_all(&rooms.out[..s.written]).ok();
    }
    s.desk
}

// A last line without a line end counts if it isn't empty.
fn finish(desk: Desk, line: &Begun<LINE>, rooms: &mut Rooms) -> Turn
    ensures written_in_bounds { result.written ≤ 65536 }
    ensures finishing { Finishing desk line.now.bytes line.now.at rooms.old.table rooms.new.table rooms.old.room rooms.new.room rooms.old.out rooms.new.out result }
{
    if line.at == 0 {
        return Turn { desk, written: 0 };
    }
    desk.answer(
        &line.bytes[..line.at],
        &mut rooms.table,
        &mut rooms.room,
        &mut rooms.out,
    )
}

// A loop that may run forever needs the handle `Wait`, and nothing says that the input ends: the count is one that no run uses up.
fn main(rt: HostRuntime) {
    let mut line = Begun {
        bytes: [0; LINE],
        at: 0,
    };
    let mut piece = [0u8; 65536];
    let mut rooms = Rooms {
        table: [0; TABLE],
        room: [0; RECORDS],
        out: [0; REPLY],
    };
    let mut desk = Desk::new();
    let mut input = rt.stdin();
    for _ in 0..u64::MAX {
        let n = input.read(&mut piece).unwrap_or(0);
        if n == 0 {
            break;
        }
        desk = answer_piece(desk, &mut line, &piece[..n], &mut rooms, &rt);
    }
    let last = finish(desk, &line, &mut rooms);
    rt.write_all(&rooms.out[..last.written]).ok();
}
