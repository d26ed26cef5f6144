// Operations 10 to 45: bit lists and bit vectors.
//
// A held bitfield is its 256 bytes, its length and its N.
ghost use Rattle.std.specs.Prelude.{◌<◌};

use crate::case::Case;
use crate::room::{Room, lend};
use bitfield::{BitList, BitVector, Bitfield, BitfieldBehaviour};
use cases::{is_number, number, number_at};
use standard::{Refusal, Refused};

// What is asked of lists and of vectors alike.
#[derive(Clone, Copy)]
pub(crate) enum Operation {
    Intersection,
    Union,
    IsSubset,
    Set,
    Get,
    HighestSetBit,
    IsZero,
    NumSetBits,
    Difference,
    Not,
    ShiftUp,
}

impl Operation {
    // By a list's number; a vector's is 20 above.
    pub(crate) fn of(number: usize) -> Option<Operation> {
        match number {
            13 => Some(Operation::Intersection),
            14 => Some(Operation::Union),
            15 => Some(Operation::IsSubset),
            18 => Some(Operation::Set),
            19 => Some(Operation::Get),
            20 => Some(Operation::HighestSetBit),
            21 => Some(Operation::IsZero),
            22 => Some(Operation::NumSetBits),
            23 => Some(Operation::Difference),
            24 => Some(Operation::Not),
            25 => Some(Operation::ShiftUp),
            _ => None,
        }
    }
}

fn held<T: BitfieldBehaviour>(part: &[u8]) -> Option<Bitfield<T>> {
    let (bytes, numbers) = part.split_first_chunk::<256>()?;
    if numbers.len() != 16 {
        return None;
    }
    Some(Bitfield::from_parts(*bytes, number_at(numbers, 0), number_at(numbers, 1)))
}

// Whether the part is just this held bitfield: `held`, without the copies.
fn is_held<T: BitfieldBehaviour>(part: &[u8], field: &Bitfield<T>) -> bool {
    match part.split_first_chunk::<256>() {
        Some((bytes, numbers)) => {
            numbers.len() == 16
                && *bytes == field.bytes
                && number_at(numbers, 0) == field.len
                && number_at(numbers, 1) == field.n
        }
        None => false,
    }
}

// The value of a part that is 0 or 1.
fn bit(part: &[u8]) -> Option<bool> {
    if is_number(part, 0) {
        Some(false)
    } else {
        is_number(part, 1).then_some(true)
    }
}

#[inline(always)]
fn is_made<T: BitfieldBehaviour>(case: Case<'_>, answer: Result<Bitfield<T>, Refusal>) -> bool {
    case.has(answer, |field| is_held(case.value(0), &field))
}

// The same of a bitfield of the question, which a refusal leaves as it was.
#[inline(always)]
fn is_changed<T: BitfieldBehaviour>(
    case: Case<'_>,
    answer: Result<Bitfield<T>, Refused<Bitfield<T>>>,
) -> bool {
    match answer {
        Ok(field) => case.is_fine() && is_held(case.value(0), &field),
        Err(e) => case.is_refusal(e.refusal, 0) && is_held(case.part(0), &e.state),
    }
}

// Whether the part is 0 for no bit, else the bit's index plus 1.
fn is_place(part: &[u8], highest: Option<usize>) -> bool {
    number(part).is_some_and(|n| n.checked_sub(1) == highest)
}

#[inline(always)]
fn is_told(case: Case<'_>, answer: Result<bool, Refusal>) -> bool {
    match answer {
        Ok(x) => case.is_fine() && is_number(case.value(0), usize::from(x)),
        Err(e) => case.is_refusal(e, 0),
    }
}

// Asks a held bitfield, the first part of the question, which has so many parts.
#[inline(never)]
fn of_held<T: BitfieldBehaviour, F: Fn(Case<'_>, Bitfield<T>) -> Option<bool>>(
    b: &[u8],
    questions: usize,
    is_answer: F,
) -> Option<bool>
    requires { (questions < 8) × F.IsAlwaysCallable is_answer }
{
    let case = Case::new(b, questions, 1, 0)?;
    is_answer(case, held(case.part(0))?)
}

// 10: bits, N. Held.
#[inline(never)]
pub(crate) fn with_capacity(b: &[u8]) -> Option<bool> {
    let case = Case::new(b, 2, 1, 0)?;
    Some(is_made(
        case,
        BitList::with_capacity(case.number(0)?, case.number(1)?),
    ))
}

// 16: held, M. Held.
pub(crate) fn resize(b: &[u8]) -> Option<bool> {
    of_held(b, 2, |case, field: BitList| {
        Some(is_changed(case, field.resize(case.number(1)?)))
    })
}

// 17: held. Held.
pub(crate) fn clone_zeroed(b: &[u8]) -> Option<bool> {
    of_held(b, 1, |case, field: BitList| {
        Some(is_changed(case, field.clone_zeroed()))
    })
}

// 30: N. Held.
#[inline(never)]
pub(crate) fn new(b: &[u8]) -> Option<bool> {
    let case = Case::new(b, 1, 1, 0)?;
    Some(is_made(case, BitVector::new(case.number(0)?)))
}

// 11, 31: bytes, N. Held.
#[inline(never)]
pub(crate) fn from_bytes<T: BitfieldBehaviour, F: Fn(&[u8], usize) -> Result<Bitfield<T>, Refusal>>(
    b: &[u8],
    read: F,
) -> Option<bool>
    requires { F.IsAlwaysCallable read }
{
    let case = Case::new(b, 2, 1, 0)?;
    Some(is_made(case, read(case.part(0), case.number(1)?)))
}

// 12, 32: held, buffer. Bytes written, buffer.
#[inline(never)]
pub(crate) fn into_bytes<
    T: BitfieldBehaviour,
    F: Fn(Bitfield<T>, &mut [u8]) -> Result<usize, Refusal>,
>(b: &[u8], room: &mut Room, write: F) -> Option<bool>
    requires { F.IsAlwaysCallable write }
{
    let case = Case::new(b, 2, 1, 1)?;
    let field = held(case.part(0))?;
    let out = lend(&mut room.first, case.part(1));
    let answer = write(field, out);
    Some(case.has(answer, |n| is_number(case.value(0), n)) && *out == *case.buffer(0))
}

// 13, 14, 15, 23: held, held. 18: held, i, 0 or 1. 19, 25: held, number. 20, 21, 22, 24: held. Those that change a bitfield of the
// caller's own are asked by value and behind a reference.
pub(crate) fn alike<T: BitfieldBehaviour>(b: &[u8], operation: Operation) -> Option<bool> {
    match operation {
        Operation::Intersection => of_held(b, 2, |case, field: Bitfield<T>| {
            Some(is_changed(case, field.intersection(held(case.part(1))?)))
        }),
        Operation::Union => of_held(b, 2, |case, field: Bitfield<T>| {
            Some(is_changed(case, field.union(held(case.part(1))?)))
        }),
        Operation::IsSubset => of_held(b, 2, |case, field: Bitfield<T>| {
            Some(is_told(case, field.is_subset(held(case.part(1))?)))
        }),
        Operation::Difference => of_held(b, 2, |case, field: Bitfield<T>| {
            let other = held(case.part(1))?;
            Some(
                is_changed(case, field.difference(other))
                    && is_changed(case, lent::after_difference(field, other)),
            )
        }),
        Operation::Set => of_held(b, 3, |case, field: Bitfield<T>| {
            let i = case.number(1)?;
            let value = bit(case.part(2))?;
            Some(
                is_changed(case, field.set(i, value))
                    && is_changed(case, lent::after_set(field, i, value)),
            )
        }),
        Operation::Get => of_held(b, 2, |case, field: Bitfield<T>| {
            Some(is_told(case, field.get(case.number(1)?)))
        }),
        Operation::ShiftUp => of_held(b, 2, |case, field: Bitfield<T>| {
            Some(is_changed(case, field.shift_up(case.number(1)?)))
        }),
        Operation::HighestSetBit => of_held(b, 1, |case, field: Bitfield<T>| {
            Some(case.has(
                field.highest_set_bit(),
                |highest| is_place(case.value(0), highest),
            ))
        }),
        Operation::IsZero => of_held(b, 1, |case, field: Bitfield<T>| {
            Some(is_told(case, field.is_zero()))
        }),
        Operation::NumSetBits => of_held(b, 1, |case, field: Bitfield<T>| {
            Some(case.has(field.num_set_bits(), |n| is_number(case.value(0), n)))
        }),
        Operation::Not => of_held(b, 1, |case, field: Bitfield<T>| {
            Some(is_changed(case, field.not()) && is_changed(case, lent::after_not(field)))
        }),
    }
}
