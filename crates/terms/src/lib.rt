// What a question is put in: sizes, letter maps, alphabets, limits, and the refusals that concern these alone.
#![tactic(auto)]

pub mod alphabets;
pub mod limits;
pub mod maps;
pub mod refusal;

// The most letters of a string.
pub const LETTERS: usize = 1000;

// The most changes that stand.
pub const CHANGES: usize = 64;

// The most centres of a string.
pub const CENTRES: usize = 2 * LETTERS - 1;
