// The maps that a line can name: two that are supplied, two that are refused, and one without an own-partner byte.
ghost use Rattle.std.specs.Prelude.{◌≡◌};
ghost use Rattle.inspect.specs.Lending.{shifted_map, paired_map, NamesMap, LendsMap};

use crate::lent::Lent;
use crate::named::Unnamed;
use std::array;
use terms::maps::{complement, plain};

// A map by its name in a line.
#[derive(Clone, Copy)]
pub enum Map {
    Plain,
    Complement,
    Short,
    Shifted,
    Paired,
}

// The map that a letter names.
impl TryFrom<u8> for Map {
    type Error = Unnamed;

    ghost try_from_gives = { NamesMap };

    fn try_from(letter: u8) -> Result<Map, Unnamed> {
        match letter {
            b'I' => Ok(Map::Plain),
            b'C' => Ok(Map::Complement),
            b'S' => Ok(Map::Short),
            b'X' => Ok(Map::Shifted),
            b'Y' => Ok(Map::Paired),
            _ => Err(Unnamed),
        }
    }
}

// Byte x goes to x + 1, and 255 to 0: no inverse of itself.
fn shifted() -> [u8; 256]
    ensures { result ≡ shifted_map }
{
    array::from_fn(|x| ((x + 1) % 256) as u8)
}

// Byte x goes to x xor 1: no byte is its own partner.
fn paired() -> [u8; 256]
    ensures { result ≡ paired_map }
{
    array::from_fn(|x| (x + 1 - 2 * (x % 2)) as u8)
}

impl Map {
    // Its bytes, of which a short map lacks one.
    pub fn lent(self) -> Lent
        ensures { LendsMap self result }
    {
        match self {
            Map::Plain => Lent::whole(plain()),
            Map::Complement => Lent::whole(complement()),
            Map::Short => Lent::short(plain()),
            Map::Shifted => Lent::whole(shifted()),
            Map::Paired => Lent::whole(paired()),
        }
    }
}
