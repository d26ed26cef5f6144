// Held bitfields, lists and vectors alike. Each call tests its fields first: 23, 24, 14, then the crate's own tests.
ghost use Rattle.std.specs.Prelude.{◌≡◌};
ghost use Rattle.bitfield.specs.Held.{of_parts};
ghost use Rattle.bitfield.specs.Bitfields.{field_intersection, field_union, field_difference, field_is_subset, field_set, field_get};
ghost use Rattle.bitfield.specs.Bitfields.{field_highest_set_bit, field_is_zero, field_num_set_bits, field_not, field_shift_up};

use super::tests::{inside_told, up_to_told};
use super::{Bitfield, BitfieldBehaviour};
use standard::{Refusal, Refused};
use std::marker::PhantomData;

impl<T: BitfieldBehaviour> Bitfield<T> {
    // A bitfield by its parts: any state, as a host may hand it in.
    pub fn from_parts(bytes: [u8; 256], len: usize, n: usize) -> Self
        ensures { result ≡ of_parts bytes len n }
    {
        Bitfield {
            bytes,
            len,
            n,
            behaviour: PhantomData,
        }
    }

    // What a refusal gives back: the old bitfield.
    pub(crate) fn refused(self, refusal: Refusal) -> Refused<Self>
        ensures { result ≡ record { state = self; refusal = refusal } }
    {
        Refused {
            state: self,
            refusal,
        }
    }

    // The bits that both have.
    #[tactic(auto, unfolding(crate::specs::Bitfields::field_intersection))]
    pub fn intersection(self, other: Self) -> Result<Self, Refused<Self>>
        ensures { result ≡ field_intersection T.fits self other }
    {
        self.both_tested(&other)
            .map_err(|refusal| self.refused(refusal))?;
        Ok(self.in_both(&other))
    }

    // The bits that either has.
    #[tactic(auto, unfolding(crate::specs::Bitfields::field_union))]
    pub fn union(self, other: Self) -> Result<Self, Refused<Self>>
        ensures { result ≡ field_union T.fits self other }
    {
        self.both_tested(&other)
            .map_err(|refusal| self.refused(refusal))?;
        Ok(self.in_either(&other))
    }

    // The bits that the other one has not.
    #[tactic(auto, unfolding(crate::specs::Bitfields::field_difference))]
    pub fn difference(self, other: Self) -> Result<Self, Refused<Self>>
        ensures { result ≡ field_difference T.fits self other }
    {
        self.both_tested(&other)
            .map_err(|refusal| self.refused(refusal))?;
        Ok(self.taken_from(&other))
    }

    // Whether every set bit is set in the other one.
    #[tactic(auto, unfolding(crate::specs::Bitfields::field_is_subset))]
    pub fn is_subset(self, other: Self) -> Result<bool, Refusal>
        ensures { result ≡ field_is_subset T.fits self other }
    {
        self.both_tested(&other)?;
        Ok(self.is_within(&other))
    }

    // Bit i made the value.
    #[tactic(auto, using(crate::proofs::Tolds::fine), unfolding(crate::specs::Bitfields::field_set))]
    pub fn set(self, i: usize, value: bool) -> Result<Self, Refused<Self>>
        ensures { result ≡ field_set T.fits self i value }
    {
        // Two tests with one way out: a way out for each copies the field for each.
        match self.tested().and_then(|()| inside_told(i, self.len)) {
            Ok(()) => Ok(self.changed(i, value)),
            Err(refusal) => Err(self.refused(refusal)),
        }
    }

    // Bit i.
    #[tactic(auto, using(crate::proofs::Tolds::fine), unfolding(crate::specs::Bitfields::field_get))]
    pub fn get(self, i: usize) -> Result<bool, Refusal>
        ensures { result ≡ field_get T.fits self i }
    {
        self.tested()?;
        inside_told(i, self.len)?;
        Ok(self.bit(i))
    }

    // The highest set bit.
    #[tactic(auto, unfolding(crate::specs::Bitfields::field_highest_set_bit))]
    pub fn highest_set_bit(self) -> Result<Option<usize>, Refusal>
        ensures { result ≡ field_highest_set_bit T.fits self }
    {
        self.tested()?;
        Ok(self.highest())
    }

    // Whether no bit is set.
    #[tactic(auto, unfolding(crate::specs::Bitfields::field_is_zero))]
    pub fn is_zero(self) -> Result<bool, Refusal>
        ensures { result ≡ field_is_zero T.fits self }
    {
        self.tested()?;
        Ok(self.has_none())
    }

    // How many bits are set.
    #[tactic(auto, unfolding(crate::specs::Bitfields::field_num_set_bits))]
    pub fn num_set_bits(self) -> Result<usize, Refusal>
        ensures { result ≡ field_num_set_bits T.fits self }
    {
        self.tested()?;
        Ok(self.ones())
    }

    // The complement.
    #[tactic(auto, unfolding(crate::specs::Bitfields::field_not))]
    pub fn not(self) -> Result<Self, Refused<Self>>
        ensures { result ≡ field_not T.fits self }
    {
        self.tested().map_err(|refusal| self.refused(refusal))?;
        Ok(self.complement())
    }

    // Every bit k places up; what passes the end is lost.
    #[tactic(auto, using(crate::proofs::Tolds::fine), unfolding(crate::specs::Bitfields::field_shift_up))]
    pub fn shift_up(self, k: usize) -> Result<Self, Refused<Self>>
        ensures { result ≡ field_shift_up T.fits self k }
    {
        self.tested().map_err(|refusal| self.refused(refusal))?;
        up_to_told(k, self.len).map_err(|refusal| self.refused(refusal))?;
        Ok(self.upward(k))
    }
}
