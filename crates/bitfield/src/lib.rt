// Bitfields: bit lists and bit vectors, held by value and as bodies of a message, as bitfield.rs of ethereum_ssz 0.10.4 has them.
#![tactic(auto)]

pub mod body;
mod fields;
mod held;
mod list;
mod raw;
mod tests;
mod vector;

ghost use Rattle.std.specs.Prelude.{◌≡◌, ℕ, ◌≤◌, Bool, true, leb, eqb};
ghost use Rattle.bitfield.specs.Fits.{leb-within, eqb-within};

use std::marker::PhantomData;

// How a bitfield's length goes by its limit.
pub trait BitfieldBehaviour {
    // Whether a bitfield of so many bits goes with the limit n.
    ghost fits: { ℕ → ℕ → Bool };

    fn fits(len: usize, n: usize) -> bool
        ensures { result ≡ fits len n };

    // None has more bits than its limit.
    ghost within: { (len n : ℕ) → fits len n ≡ true → len ≤ n };
}

// At most as many bits as the limit: a list's.
#[derive(Clone, Copy, Debug, PartialEq, Eq)]
pub struct Variable;

// As many bits as the limit: a vector's.
#[derive(Clone, Copy, Debug, PartialEq, Eq)]
pub struct Fixed;

impl BitfieldBehaviour for Variable {
    ghost fits = { leb };

    ghost within = { leb-within };

    fn fits(len: usize, n: usize) -> bool {
        len <= n
    }
}

impl BitfieldBehaviour for Fixed {
    ghost fits = { eqb };

    ghost within = { eqb-within };

    fn fits(len: usize, n: usize) -> bool {
        len == n
    }
}

// A bitfield with the limit n: the first len of its bytes' bits. Any state can be handed in: every call tests it first.
// kept: 256 bytes and a length, as document 01 has a held bitfield; a length that does not fit is answered with 23.
#[derive_where(Clone, Copy, Debug, PartialEq, Eq)]
pub struct Bitfield<T> {
    pub bytes: [u8; 256],
    pub len: usize,
    pub n: usize,
    pub behaviour: PhantomData<T>,
}

pub type BitList = Bitfield<Variable>;

pub type BitVector = Bitfield<Fixed>;
