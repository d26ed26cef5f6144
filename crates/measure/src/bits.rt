// Operations 11 to 45: bit lists and bit vectors.
use crate::rounds::{byte_in, count, repeat};
use bitfield::{BitList, BitVector, Bitfield, BitfieldBehaviour, Fixed, Variable};
use cases::{number, part};
use standard::Refusal;

// What lists and vectors do each in its own way.
pub(crate) trait Serialized: BitfieldBehaviour {
    fn read(bytes: &[u8], n: usize) -> Result<Bitfield<Self>, Refusal>;

    fn write(field: Bitfield<Self>, out: &mut [u8]) -> Result<usize, Refusal>;
}

impl Serialized for Variable {
    fn read(bytes: &[u8], n: usize) -> Result<BitList, Refusal> {
        BitList::from_bytes(bytes, n)
    }

    fn write(field: BitList, out: &mut [u8]) -> Result<usize, Refusal> {
        field.into_bytes(out)
    }
}

impl Serialized for Fixed {
    fn read(bytes: &[u8], n: usize) -> Result<BitVector, Refusal> {
        BitVector::from_bytes(bytes, n)
    }

    fn write(field: BitVector, out: &mut [u8]) -> Result<usize, Refusal> {
        field.into_bytes(out)
    }
}

// What a field that was made adds.
fn made<T: BitfieldBehaviour, E: Drop>(answer: Result<Bitfield<T>, E>, round: usize) -> usize {
    match answer {
        Ok(field) => field.len.wrapping_add(byte_in(&field.bytes, round)),
        Err(_) => 0,
    }
}

// What a serialization that was written adds.
fn written<T: Serialized>(field: Bitfield<T>, out: &mut [u8], round: usize) -> usize {
    count(T::write(field, out)).wrapping_add(byte_in(out, round))
}

// The field that a serialization says; one that can't be read is an empty one.
// A call of its own, so that the field is made in memory: what is split over registers is put together again for each round.
#[inline(never)]
fn field_of<T: Serialized>(bytes: &[u8], n: usize) -> Bitfield<T> {
    T::read(bytes, n).unwrap_or(Bitfield::from_parts([0; 256], 0, 0))
}

// The operations on two fields.
// kept: a loop that owns the fields. A closure borrows them, so each round copies both: 287 instructions a round for two vectors, and 153 here.
fn merged<T: BitfieldBehaviour>(op: usize, f: Bitfield<T>, g: Bitfield<T>, rounds: usize) -> usize {
    let mut sum = 0usize;
    for round in 1..=rounds {
        sum = sum.wrapping_add(match op {
            13 => made(f.intersection(g), round),
            14 => made(f.union(g), round),
            _ => made(f.difference(g), round),
        });
    }
    sum
}

// The operation by a list's number; a vector's is 20 above.
pub(crate) fn run<T: Serialized>(
    op: usize,
    plan: &[u8],
    out: &mut [u8],
    rounds: usize,
) -> Option<usize> {
    let n = number(part(plan, 1))?;
    let places = number(part(plan, 4))?;
    let bytes = part(plan, 2);
    let f = field_of::<T>(bytes, n);
    let g = field_of::<T>(part(plan, 3), n);
    // kept: numbers, as docs/CASES.md has them: the plan names an operation by its number, and each is named once
    Some(match op {
        11 => repeat(rounds, |round| made(T::read(bytes, n), round)),
        12 => repeat(rounds, |round| written(f, out, round)),
        13 | 14 | 23 => merged(op, f, g, rounds),
        22 => repeat(rounds, |_| count(f.num_set_bits())),
        25 => repeat(rounds, |round| made(f.shift_up(places), round)),
        _ => 0,
    })
}
