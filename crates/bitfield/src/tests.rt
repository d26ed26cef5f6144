// The tests that come before a call's work, each with its refusal.
ghost use Rattle.std.specs.Prelude.{◌≡◌, ◌≤◌, true};
ghost use Rattle.bitfield.specs.Held.{limited, inside, up_to, not_below, room_for};
ghost use Rattle.bitfield.specs.Bitfields.{good, field_told, fields_told, WellFormed};

use super::raw::is_clean;
use super::{Bitfield, BitfieldBehaviour};
use standard::Refusal;

// 14
#[tactic(auto, unfolding(crate::specs::Held::limited))]
pub(crate) fn limit_told(n: usize) -> Result<(), Refusal>
    ensures { result ≡ limited n }
{
    if n <= 2048 {
        Ok(())
    } else {
        Err(Refusal::OverLimit(n, 2048))
    }
}

// 9
#[tactic(auto, unfolding(crate::specs::Held::inside))]
pub(crate) fn inside_told(i: usize, len: usize) -> Result<(), Refusal>
    ensures { result ≡ inside i len }
{
    if i < len {
        Ok(())
    } else {
        Err(Refusal::OutOfBounds(i, len))
    }
}

// 9
#[tactic(auto, unfolding(crate::specs::Held::up_to))]
pub(crate) fn up_to_told(k: usize, most: usize) -> Result<(), Refusal>
    ensures { result ≡ up_to k most }
{
    if k <= most {
        Ok(())
    } else {
        Err(Refusal::OutOfBounds(k, most))
    }
}

// 12
#[tactic(auto, unfolding(crate::specs::Held::not_below))]
pub(crate) fn not_below_told(m: usize, n: usize) -> Result<(), Refusal>
    requires { n ≤ 2048 }
    ensures { result ≡ not_below m n }
{
    if n <= m {
        Ok(())
    } else {
        Err(Refusal::InvalidByteCount(m, n + 1))
    }
}

// 22
#[tactic(auto, unfolding(crate::specs::Held::room_for))]
pub(crate) fn room_told(need: usize, room: usize) -> Result<(), Refusal>
    ensures { result ≡ room_for need room }
{
    if need <= room {
        Ok(())
    } else {
        Err(Refusal::NoRoom(need, room))
    }
}

impl<T: BitfieldBehaviour> Bitfield<T> {
    // As many bits as the limit allows, at most 2,048, and nothing set behind them.
    fn is_good(&self) -> bool
        ensures told { result ≡ good T.fits self.now }
        ensures kept { result ≡ true → WellFormed self.now × (self.now.len ≤ self.now.n) }
    {
        T::fits(self.len, self.n) && is_clean(&self.bytes, self.len)
    }

    // 23, 14. What they leave is well formed.
    #[tactic(auto, using(crate::proofs::Tolds::fine), unfolding(crate::specs::Held::one_told_lem, crate::specs::Bitfields::field_told))]
    pub(crate) fn tested(&self) -> Result<(), Refusal>
        ensures told { result ≡ field_told T.fits self.now }
        ensures kept { result ≡ (Ok tt) → WellFormed self.now × (self.now.len ≤ self.now.n) × (self.now.n ≤ 2048) }
    {
        if !self.is_good() {
            return Err(Refusal::BadState);
        }
        limit_told(self.n)
    }

    // 23, 24, 14. What they leave is well formed.
    #[tactic(auto, unfolding(crate::specs::Held::two_told_lem, crate::specs::Bitfields::fields_told))]
    pub(crate) fn both_tested(&self, other: &Self) -> Result<(), Refusal>
        ensures told { result ≡ fields_told T.fits self.now other.now }
        ensures kept { result ≡ (Ok tt) → WellFormed self.now × WellFormed other.now }
    {
        if !self.is_good() || !other.is_good() {
            return Err(Refusal::BadState);
        }
        if self.n != other.n {
            return Err(Refusal::LimitsDiffer);
        }
        limit_told(self.n)
    }
}
