// Lines printed into a lent room: a letter, numbers in decimal, a line end. A room that is too short takes what it can.
#![tactic(auto)]

ghost use Rattle.std.specs.Prelude.{[], ◌∷◌, ◌≤◌, length};
ghost use Rattle.printing.specs.Printing.{fields, printed};
ghost use Rattle.printing.specs.Pages.{PutOn};

// A lent room, and the place behind what is put. Lines are put by hand and not by `Display`: `Put` says what a room that is too short takes.
#[derive(Drop)]
pub struct Page<'a> {
    pub room: &'a mut [u8],
    pub at: usize,
}

impl<'a> Page<'a> {
    // Puts one byte at the place.
    pub fn put_byte(&mut self, b: u8)
        ensures { PutOn self.old (b ∷ []) self.new }
    {
        if self.at < self.room.len() {
            self.room[self.at] = b;
            self.at += 1;
        } else {
            self.at = self.room.len();
        }
    }

    // Puts lent bytes one after the other. Lent to `feed`.
    pub fn put_bytes(&mut self, bytes: &[u8])
        requires { self.old.at ≤ length self.old.room.now }
        ensures { PutOn self.old bytes.now self.new }
    {
        for b in bytes {
            self.put_byte(*b);
        }
    }

    // Puts a space and a number behind it. Lent to `inspect`.
    pub fn put_field(&mut self, n: usize)
        ensures { PutOn self.old (fields (n ∷ [])) self.new }
    {
        let mut digits = [0u8; 20];
        let many = io::decimal(n as u64, &mut digits);
        self.put_byte(b' ');
        self.put_bytes(&digits[..many]);
    }

    // Puts a letter, the numbers, and a line end: one line of a reply.
    pub fn put_line(&mut self, letter: u8, numbers: &[usize])
        ensures { PutOn self.old (printed letter numbers.now) self.new }
    {
        self.put_byte(letter);
        for n in numbers {
            self.put_field(*n);
        }
        self.put_byte(b'\n');
    }
}
