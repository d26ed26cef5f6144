// The selector of a union, as union_selector.rs of ethereum_ssz 0.10.4 has it.
ghost use Rattle.std.specs.Prelude.{◌≡◌, eqb};
ghost use Rattle.decode.specs.Unions.{selector_of};

use standard::Refusal;

pub const MAX_UNION_SELECTOR: u8 = 127;

// A number of its own kind: made from 0 to 127 alone, and no type's or field's number.
#[derive(Clone, Copy, Debug, PartialEq, Eq)]
pub struct UnionSelector(u8);

impl From<UnionSelector> for u8 {
    ghost from_gives = { λ selector byte. byte ≡ selector.0 };

    fn from(union_selector: UnionSelector) -> u8 {
        union_selector.0
    }
}

impl UnionSelector {
    pub fn new(selector: u8) -> Result<Self, Refusal>
        ensures { result ≡ selector_of selector }
    {
        if selector <= MAX_UNION_SELECTOR {
            Ok(Self(selector))
        } else {
            Err(Refusal::UnionSelectorInvalid(selector))
        }
    }

    // The selector as the byte that it was made from.
    pub fn get(self) -> u8
        ensures { result ≡ self.0 }
    {
        self.0
    }
}
