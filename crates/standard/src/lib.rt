// The words that every crate above shares: how a refusal is named, and whether a type is of fixed or of variable size.
#![tactic(auto)]

pub mod words;

ghost use Rattle.std.specs.Prelude.{◌≡◌};
ghost use Rattle.standard.specs.Refusals.{numbers_of_lem};

// What is wrong, by document 01's names. The comment before a case is the refusal's number, and its a and b.
#[derive(Clone, Copy, Debug, PartialEq, Eq)]
pub enum Refusal {
    // 1: length, expected
    InvalidByteLength(usize, usize),
    // 2: bytes left, 4
    InvalidLengthPrefix(usize, usize),
    // 3: 0
    OutOfBoundsByte(usize),
    // 4: offset
    OffsetIntoFixedPortion(usize),
    // 5: offset
    OffsetSkipsVariableBytes(usize),
    // 6: offset
    OffsetsAreDecreasing(usize),
    // 7: offset
    OffsetOutOfBounds(usize),
    // 8: selector
    UnionSelectorInvalid(u8),
    // 9: bit, bit length
    OutOfBounds(usize, usize),
    // 10
    MissingLengthInformation,
    // 11
    ExcessBits,
    // 12: given, expected
    InvalidByteCount(usize, usize),
    // 13: byte
    BadBoolean(u8),
    // 14: length, limit
    OverLimit(usize, usize),
    // 15: offset
    InvalidListFixedBytesLen(usize),
    // 20: word
    BadLayout(usize),
    // 21: 2^32 or more
    TooLarge,
    // 22: needed, room
    NoRoom(usize, usize),
    // 23
    BadState,
    // 24
    LimitsDiffer,
    // 25: 0 contents or 1 bodies, index; kept: a and b as document 01 gives them, like those of the other cases
    BadValue(usize, usize),
    // 26: 64
    BuilderFull(usize),
}

// A refusal as the numbers that are given back.
#[derive(Clone, Copy, Debug, PartialEq, Eq)]
pub struct Numbers {
    pub number: usize,
    pub a: usize,
    pub b: usize,
}

fn numbers_of(number: usize, a: usize, b: usize) -> Numbers
    ensures { result ≡ record { number = number; a = a; b = b } }
{
    Numbers { number, a, b }
}

impl Refusal {
    // The refusal's number, a and b, as document 01's table has them.
    pub fn numbers(self) -> Numbers
        ensures { result ≡ numbers_of_lem self }
    {
        match self {
            Refusal::InvalidByteLength(a, b) => numbers_of(1, a, b),
            Refusal::InvalidLengthPrefix(a, b) => numbers_of(2, a, b),
            Refusal::OutOfBoundsByte(a) => numbers_of(3, a, 0),
            Refusal::OffsetIntoFixedPortion(a) => numbers_of(4, a, 0),
            Refusal::OffsetSkipsVariableBytes(a) => numbers_of(5, a, 0),
            Refusal::OffsetsAreDecreasing(a) => numbers_of(6, a, 0),
            Refusal::OffsetOutOfBounds(a) => numbers_of(7, a, 0),
            Refusal::UnionSelectorInvalid(a) => numbers_of(8, a as usize, 0),
            Refusal::OutOfBounds(a, b) => numbers_of(9, a, b),
            Refusal::MissingLengthInformation => numbers_of(10, 0, 0),
            Refusal::ExcessBits => numbers_of(11, 0, 0),
            Refusal::InvalidByteCount(a, b) => numbers_of(12, a, b),
            Refusal::BadBoolean(a) => numbers_of(13, a as usize, 0),
            Refusal::OverLimit(a, b) => numbers_of(14, a, b),
            Refusal::InvalidListFixedBytesLen(a) => numbers_of(15, a, 0),
            Refusal::BadLayout(a) => numbers_of(20, a, 0),
            Refusal::TooLarge => numbers_of(21, 0, 0),
            Refusal::NoRoom(a, b) => numbers_of(22, a, b),
            Refusal::BadState => numbers_of(23, 0, 0),
            Refusal::LimitsDiffer => numbers_of(24, 0, 0),
            Refusal::BadValue(a, b) => numbers_of(25, a, b),
            Refusal::BuilderFull(a) => numbers_of(26, a, 0),
        }
    }
}

// What a refusal gives back: the state as it was, and what is wrong.
#[derive(Clone, Copy, Debug, PartialEq, Eq)]
pub struct Refused<S> {
    pub state: S,
    pub refusal: Refusal,
}

// What is wrong, without the state: `?` gives it where the caller keeps the state.
impl<S: Drop> From<Refused<S>> for Refusal {
    ghost from_gives = { λ r e. e ≡ r.refusal };

    fn from(refused: Refused<S>) -> Refusal {
        refused.refusal
    }
}

// What stands for an item in the fixed portion of what holds it: so many bytes of its own, or an offset.
// kept: an enum of its own and no Option<usize>, which is no plainer: fixed and variable are the SSZ standard's words for the two sizes.
#[derive(Clone, Copy, Debug, PartialEq, Eq)]
pub enum Head {
    Fixed(usize),
    Variable,
}

// Where a field lies in its container's bytes, and where the next field's head is.
#[derive(Clone, Copy, Debug, PartialEq, Eq)]
pub struct Span {
    pub from: usize,
    pub to: usize,
    pub next: usize,
}
