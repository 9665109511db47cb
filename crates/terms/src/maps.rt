// The two maps supplied, and refusals 2 and 3.
ghost use Rattle.std.specs.Prelude.{◌≡◌, length};
ghost use Rattle.terms.specs.Refusals.{first_fault, fault_of};
ghost use Rattle.terms.specs.Maps.{partner, plain_map, complement_map, own_inverse, map_faults};

use crate::refusal::Refusal;
use std::array;

// Each byte its own partner.
pub fn plain() -> [u8; 256]
    ensures { result ≡ plain_map }
{
    array::from_fn(|x| x as u8)
}

// The complement's rule: four letters, and the rest themselves.
fn complement_of(letter: u8) -> u8
    ensures { result ≡ partner complement_map letter }
{
    match letter {
        b'A' => b'T',
        b'T' => b'A',
        b'C' => b'G',
        b'G' => b'C',
        _ => letter,
    }
}

// A with T, C with G, every other byte its own partner.
pub fn complement() -> [u8; 256]
    ensures { result ≡ complement_map }
{
    array::from_fn(|x| complement_of(x as u8))
}

// Whether f(f(x)) = x for every byte x.
fn own_inverse(map: &[u8]) -> bool
    requires { length map.now ≡ 256 }
    ensures { result ≡ own_inverse map.now }
{
    for x in 0..256usize {
        let y = usize::from(map[x]);
        let z = usize::from(map[y]);
        if z != x {
            return false;
        }
    }
    true
}

// The first refusal that a map meets.
pub fn check(map: &[u8]) -> Result<(), Refusal>
    ensures { fault_of result ≡ first_fault (map_faults map.now) }
{
    if map.len() != 256 {
        return Err(Refusal::MapNot256);
    }
    if !own_inverse(map) {
        return Err(Refusal::MapNotOwnInverse);
    }
    Ok(())
}
