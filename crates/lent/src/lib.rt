// The source's methods that act on the caller's own bitfield, thin over the methods by value of crate `bitfield`.
#![tactic(auto)]

ghost use Rattle.std.specs.Prelude.{◌≡◌};
ghost use Rattle.bitfield.specs.Bitfields.{field_set, field_not, field_difference};
ghost use Rattle.lent.specs.Left.{left};

use bitfield::{Bitfield, BitfieldBehaviour};
use standard::{Refusal, Refused};

// Makes bit i the value. Beside a refusal all is as it was.
#[tactic(auto, using(crate::proofs::Refusals::made_left), unfolding(bitfield::specs::Bitfields::field_set))]
pub fn set<T: BitfieldBehaviour>(b: &mut Bitfield<T>, i: usize, value: bool) -> Result<(), Refusal>
    ensures { left b.new result ≡ field_set T.fits b.old i value }
{
    *b = b.set(i, value)?;
    Ok(())
}

// Turns every bit. Beside a refusal all is as it was.
#[tactic(auto, using(crate::proofs::Refusals::made_left), unfolding(bitfield::specs::Bitfields::field_not))]
pub fn not_inplace<T: BitfieldBehaviour>(b: &mut Bitfield<T>) -> Result<(), Refusal>
    ensures { left b.new result ≡ field_not T.fits b.old }
{
    *b = b.not()?;
    Ok(())
}

// Takes away the bits that the other one has. Beside a refusal all is as it was.
#[tactic(auto, using(crate::proofs::Refusals::made_left), unfolding(bitfield::specs::Bitfields::field_difference))]
pub fn difference_inplace<T: BitfieldBehaviour>(
    b: &mut Bitfield<T>,
    other: Bitfield<T>,
) -> Result<(), Refusal>
    ensures { left b.new result ≡ field_difference T.fits b.old other }
{
    *b = b.difference(other)?;
    Ok(())
}

// What each of them leaves of a bitfield of its own that it is lent, and what it tells.
pub fn after_set<T: BitfieldBehaviour>(
    b: Bitfield<T>,
    i: usize,
    value: bool,
) -> Result<Bitfield<T>, Refused<Bitfield<T>>>
    ensures { result ≡ field_set T.fits b i value }
{
    let mut state = b;
    match set(&mut state, i, value) {
        Ok(()) => Ok(state),
        Err(refusal) => Err(Refused { state, refusal }),
    }
}

pub fn after_not<T: BitfieldBehaviour>(b: Bitfield<T>) -> Result<Bitfield<T>, Refused<Bitfield<T>>>
    ensures { result ≡ field_not T.fits b }
{
    let mut state = b;
    match not_inplace(&mut state) {
        Ok(()) => Ok(state),
        Err(refusal) => Err(Refused { state, refusal }),
    }
}

pub fn after_difference<T: BitfieldBehaviour>(
    b: Bitfield<T>,
    other: Bitfield<T>,
) -> Result<Bitfield<T>, Refused<Bitfield<T>>>
    ensures { result ≡ field_difference T.fits b other }
{
    let mut state = b;
    match difference_inplace(&mut state, other) {
        Ok(()) => Ok(state),
        Err(refusal) => Err(Refused { state, refusal }),
    }
}
