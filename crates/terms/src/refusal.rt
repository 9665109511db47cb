// The numbers that say no, by name. Each kind of call meets some of them, in an order of its own.
ghost use Rattle.std.specs.Prelude.{◌≡◌};
ghost use Rattle.terms.specs.Refusals.{refusal_number};

// Why a call is refused.
#[derive(Clone, Copy, Debug, PartialEq, Eq)]
pub enum Refusal {
    StringTooLong = 1,
    MapNot256 = 2,
    MapNotOwnInverse = 3,
    WrongKind = 4,
    OutOfRange = 5,
    NoSuchPlace = 6,
    AllStand = 7,
    NoneStands = 8,
    NoneTakenBack = 9,
    NoTiling = 10,
    TableTooShort = 11,
    RoomTooShort = 12,
    NotUnderstood = 13,
    NoSheet = 14,
    NoWholeRecord = 15,
    WrongRecord = 16,
    NotATiling = 17,
    AlphabetNotClosed = 18,
    OutsideAlphabet = 19,
    NoCapital = 20,
    OutOfBounds = 24,
}

impl Refusal {
    // The number that is read back.
    pub fn number(self) -> usize
        ensures { result ≡ refusal_number self }
    {
        self as usize
    }
}
