// The way of a start: the centres that the table looks at for it, in rising order, each leading to the next.
// For kind 2 it has the start's own pieces and nothing else; for kind 1 all centres, and the table drops those that ended.
#![tactic(auto)]

ghost use Rattle.std.specs.Prelude.{◌≡◌, ◌+◌, ◌-◌, ◌*◌, ◌≤◌, ◌<◌, length, get_or};
ghost use Rattle.ways.specs.Spans.{Whole};
ghost use Rattle.ways.specs.Ways.{Nowhere, Laid, EachNext, Entered};

// No centre: more than any string has. A number and no Option: the lists of centres are in fixed memory, and `Laid` speaks of lists of numbers.
pub const NOWHERE: u16 = 2000;

// Which spans are pieces: the maximal lengths of the centres, the number of letters, the kind and the shortest length.
// The kind is a number and no enum: `PieceBy` of `tilings` and `Laid` speak of every number. No invariant of sizes: `first_of` takes any spans.
#[derive(Clone, Copy)]
pub struct Spans<'a> {
    pub lens: &'a [u16],
    pub n: usize,
    pub kind: usize,
    pub m: usize,
}

impl<'a> Spans<'a> {
    // For kind 2 the centre c is put before the first of the start of its maximal palindrome, unless that is no piece.
    fn enter(self, c: usize, first: &mut [u16], next: &mut [u16])
        requires sizes { Whole self × (self.kind ≡ 2) × (c + 1 < 2 * self.n) }
        requires entered { Entered self (c + 1) first.old next.old }
        ensures { Entered self.entry c first.new next.new }
    {
        let len = usize::from(self.lens[c]);
        if len < self.m {
            return;
        }
        if c + 1 < len {
            return;
        }
        let start = (c + 1 - len) / 2;
        if start + start + len != c + 1 {
            return;
        }
        next[c] = first[start];
        first[start] = c as u16;
    }

    // Kind 2: each start's own centres.
    fn lay_own(self, first: &mut [u16], next: &mut [u16])
        requires sizes { Whole self × (self.kind ≡ 2) × (self.n ≤ length first.old) × (2 * self.n ≤ length next.old + 1) }
        requires nowhere { Nowhere first.old × Nowhere next.old }
        ensures { Laid self.entry first.new next.new }
    {
        for c in (0..(2 * self.n).saturating_sub(1)).rev() {
            self.enter(c, first, next);
        }
    }

    // The ways of all starts.
    // The two lists come one by one: the caller may lend any that are long enough, and then reads the first alone and changes the second alone.
    pub fn lay(self, first: &mut [u16], next: &mut [u16])
        requires sizes { Whole self × (self.n ≤ length first.old) × (2 * self.n ≤ length next.old + 1) }
        requires nowhere { Nowhere first.old × Nowhere next.old }
        ensures { Laid self.entry first.new next.new }
    {
        if self.kind == 2 {
            self.lay_own(first, next);
        } else {
            lay_all(self.n, next);
        }
    }

    // The first centre of the way of the start a.
    pub fn first_of(self, first: &[u16], a: usize) -> usize
        requires { (a < length first.now) × (a ≤ 1000) × (1 ≤ self.m) × (self.m ≤ 1000) }
        ensures { (self.entry.kind ≡ 2 → result ≡ get_or first.now a 0) × ((self.entry.kind ≡ 2 → ⊥) → result ≡ a + a + self.entry.m - 1) }
    {
        if self.kind == 2 {
            usize::from(first[a])
        } else {
            a + a + self.m - 1
        }
    }
}

// Every other kind: from each centre to the one behind it. It takes n alone and no spans, as `EachNext` speaks of n.
fn lay_all(n: usize, next: &mut [u16])
    requires { (n ≤ 1000) × (2 * n ≤ length next.old + 1) }
    ensures { EachNext n next.old next.new }
{
    for (c, to) in next[..(2 * n).saturating_sub(1)].iter_mut().enumerate() {
        *to = (c + 1) as u16;
    }
}
