// What is done with well formed bitfields, by what is done with their raw bytes.
ghost use Rattle.std.specs.Prelude.{◌≡◌, ◌++◌, ◌+◌, ◌/◌, ◌%◌, ◌^◌, ◌<◌, ◌≤◌, false, length, get_or, set, drop};
ghost use Rattle.standard.specs.Bits.{marked, bits_of};
ghost use Rattle.standard.specs.Bytes.{Bytes, num};
ghost use Rattle.bitfield.specs.Body.{bytes_for_lem, highest};
ghost use Rattle.bitfield.specs.Bools.{both, either, without, flipped, no_bits, moved, widened, count, none_set, subset};
ghost use Rattle.bitfield.specs.Held.{held};
ghost use Rattle.bitfield.specs.Bitfields.{bits, WellFormed};

use super::Bitfield;
use super::body::{bytes_for, last_used, top_bit};
use super::raw::{bit_at, combine, copy_of, cut, none_from, ones_in, put_bit, put_raw, shifted};
use std::marker::PhantomData;

impl<T> Bitfield<T> {
    // No bit set.
    pub(crate) fn zeros(len: usize, n: usize) -> Self
        requires { len ≤ 2048 }
        ensures { result ≡ held (no_bits len) n }
    {
        Bitfield {
            bytes: [0u8; 256],
            len,
            n,
            behaviour: PhantomData,
        }
    }

    // The first len bits of some bytes.
    pub(crate) fn read(bytes: &[u8], len: usize, n: usize) -> Self
        requires few { len ≤ 2048 }
        requires there { bytes_for_lem len ≤ length bytes.now }
        ensures { result ≡ held (bits_of len (num bytes.now)) n }
    {
        let mut first = copy_of(bytes, bytes_for(len));
        cut(&mut first, len);
        Bitfield {
            bytes: first,
            len,
            n,
            behaviour: PhantomData,
        }
    }

    // The bits that both have.
    pub(crate) fn in_both(&self, other: &Self) -> Self
        requires one { WellFormed self.now }
        requires other { WellFormed other.now }
        ensures { result ≡ held (both (bits self.now) (bits other.now)) self.now.n }
    {
        let len = self.len.min(other.len);
        let bytes = combine(&self.bytes, &other.bytes, 256, |x, y| x & y);
        Bitfield {
            bytes,
            len,
            ..*self
        }
    }

    // The bits that either has.
    pub(crate) fn in_either(&self, other: &Self) -> Self
        requires one { WellFormed self.now }
        requires other { WellFormed other.now }
        ensures { result ≡ held (either (bits self.now) (bits other.now)) self.now.n }
    {
        let len = self.len.max(other.len);
        let bytes = combine(&self.bytes, &other.bytes, 256, |x, y| x | y);
        Bitfield {
            bytes,
            len,
            ..*self
        }
    }

    // The bits that the other one has not.
    pub(crate) fn taken_from(&self, other: &Self) -> Self
        requires one { WellFormed self.now }
        requires other { WellFormed other.now }
        ensures { result ≡ held (without (bits self.now) (bits other.now)) self.now.n }
    {
        let bytes = combine(&self.bytes, &other.bytes, 256, |x, y| x & !y);
        Bitfield { bytes, ..*self }
    }

    // The complement.
    pub(crate) fn complement(&self) -> Self
        requires { WellFormed self.now }
        ensures { result ≡ held (flipped (bits self.now)) self.now.n }
    {
        let used = bytes_for(self.len);
        let mut bytes = combine(&self.bytes, &self.bytes, used, |x, _| !x);
        cut(&mut bytes, self.len);
        Bitfield { bytes, ..*self }
    }

    // Every bit k places up.
    pub(crate) fn upward(&self, k: usize) -> Self
        requires kept { WellFormed self.now }
        requires few { k ≤ self.now.len }
        ensures { result ≡ held (moved k (bits self.now)) self.now.n }
    {
        let mut bytes = shifted(&self.bytes, k, bytes_for(self.len));
        cut(&mut bytes, self.len);
        Bitfield { bytes, ..*self }
    }

    // Bit i made v.
    pub(crate) fn changed(&self, i: usize, v: bool) -> Self
        requires kept { WellFormed self.now }
        requires inside { i < self.now.len }
        ensures { result ≡ held (set (bits self.now) i v) self.now.n }
    {
        let mut bytes = self.bytes;
        put_bit(&mut bytes, i, v);
        Bitfield { bytes, ..*self }
    }

    // The same bits under the limit m, m in all.
    pub(crate) fn wider(&self, m: usize) -> Self
        requires kept { WellFormed self.now }
        requires more { self.now.len ≤ m }
        requires few { m ≤ 2048 }
        ensures { result ≡ held (widened m (bits self.now)) m }
    {
        Bitfield {
            len: m,
            n: m,
            ..*self
        }
    }

    // Bit i.
    pub(crate) fn bit(&self, i: usize) -> bool
        requires kept { WellFormed self.now }
        requires inside { i < self.now.len }
        ensures { result ≡ get_or (bits self.now) i false }
    {
        bit_at(&self.bytes, i)
    }

    // The highest set bit.
    pub(crate) fn highest(&self) -> Option<usize>
        requires { WellFormed self.now }
        ensures { result ≡ highest (bits self.now) }
    {
        let last = last_used(&self.bytes[..bytes_for(self.len)])?;
        Some(8 * last + top_bit(self.bytes[last]))
    }

    // Whether no bit is set.
    pub(crate) fn has_none(&self) -> bool
        requires { WellFormed self.now }
        ensures { result ≡ none_set (bits self.now) }
    {
        none_from(&self.bytes, 0)
    }

    // Whether every set bit is set in the other one.
    pub(crate) fn is_within(&self, other: &Self) -> bool
        requires one { WellFormed self.now }
        requires other { WellFormed other.now }
        ensures { result ≡ subset (bits self.now) (bits other.now) }
    {
        self.taken_from(other).has_none()
    }

    // How many bits are set.
    pub(crate) fn ones(&self) -> usize
        requires { WellFormed self.now }
        ensures { result ≡ count (bits self.now) }
    {
        // kept: `div_ceil` takes nine instructions more, and the call has 111 at 64 bits
        ones_in(&self.bytes, (self.len + 63) / 64)
    }

    // The byte that holds the end, with the mark in it.
    fn mark_byte(&self) -> u8
        requires { WellFormed self.now }
        ensures { result ≡ num self.now.bytes / 256 ^ (self.now.len / 8) + 2 ^ (self.now.len % 8) }
    {
        let q = self.len / 8;
        let m = 1u8 << (self.len % 8);
        if q < 256 { self.bytes[q] | m } else { m }
    }

    // Puts the bits and the mark behind them into a buffer, which keeps the rest.
    pub(crate) fn put_marked(&self, out: &mut [u8])
        requires kept { WellFormed self.now }
        requires room { self.now.len / 8 + 1 ≤ length out.old }
        ensures { out.new ≡ marked (bits self.now) ++ drop (self.now.len / 8 + 1) out.old }
    {
        let q = self.len / 8;
        put_raw(out, &self.bytes, q);
        out[q] = self.mark_byte();
    }
}
