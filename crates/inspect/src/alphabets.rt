// The alphabets that a line can name: all bytes, letters of strands, and some that are refused.
ghost use Rattle.std.specs.Prelude.{◌≡◌};
ghost use Rattle.inspect.specs.Lending.{no_byte, three_bases, four_bases, bases_and_n, NamesAlphabet, LendsFlags};

use crate::lent::Lent;
use crate::named::Unnamed;
use terms::alphabets::all;

// An alphabet by its name in a line.
#[derive(Clone, Copy)]
pub enum Alphabet {
    All,
    Bases,
    BasesAndN,
    Open,
    Short,
    Empty,
}

// The alphabet that a letter names.
impl TryFrom<u8> for Alphabet {
    type Error = Unnamed;

    ghost try_from_gives = { NamesAlphabet };

    fn try_from(letter: u8) -> Result<Alphabet, Unnamed> {
        match letter {
            b'*' => Ok(Alphabet::All),
            b'D' => Ok(Alphabet::Bases),
            b'N' => Ok(Alphabet::BasesAndN),
            b'O' => Ok(Alphabet::Open),
            b'S' => Ok(Alphabet::Short),
            b'E' => Ok(Alphabet::Empty),
            _ => Err(Unnamed),
        }
    }
}

#[tactic(auto, unfolding(crate::specs::Lending::no_byte))]
fn no_byte() -> [u8; 256]
    ensures { result ≡ no_byte }
{
    [0u8; 256]
}

// A, C and G: not closed under the complement.
#[tactic(auto, unfolding(crate::specs::Lending::three_bases))]
fn three_bases() -> [u8; 256]
    ensures { result ≡ three_bases }
{
    let mut flags = no_byte();
    flags[usize::from(b'A')] = 1;
    flags[usize::from(b'C')] = 1;
    flags[usize::from(b'G')] = 1;
    flags
}

#[tactic(auto, unfolding(crate::specs::Lending::four_bases))]
fn four_bases() -> [u8; 256]
    ensures { result ≡ four_bases }
{
    let mut flags = three_bases();
    flags[usize::from(b'T')] = 1;
    flags
}

// A, C, G, T and N, its own partner. Any byte but 0 says that a letter is in.
#[tactic(auto, unfolding(crate::specs::Lending::bases_and_n))]
fn bases_and_n() -> [u8; 256]
    ensures { result ≡ bases_and_n }
{
    let mut flags = four_bases();
    flags[usize::from(b'N')] = 255;
    flags
}

impl Alphabet {
    // Its flags, of which short ones lack one.
    pub fn lent(self) -> Lent
        ensures { LendsFlags self result }
    {
        match self {
            Alphabet::All => Lent::whole(all()),
            Alphabet::Bases => Lent::whole(four_bases()),
            Alphabet::BasesAndN => Lent::whole(bases_and_n()),
            Alphabet::Open => Lent::whole(three_bases()),
            Alphabet::Short => Lent::short(all()),
            Alphabet::Empty => Lent::whole(no_byte()),
        }
    }
}
