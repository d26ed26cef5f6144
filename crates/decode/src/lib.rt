// Decoding: offsets and the split of a union's bytes, as decode.rs of ethereum_ssz 0.10.4 has them.
#![tactic(auto)]

pub mod builder;
pub mod decoder;
pub mod union_selector;

ghost use Rattle.std.specs.Prelude.{◌≡◌};
ghost use Rattle.decode.specs.Offsets.{read_offset_lem, sanitize_offset_lem};
ghost use Rattle.decode.specs.Unions.{split_union, union_body_lem};

use standard::Refusal;
use standard::words::four_at;
use union_selector::UnionSelector;

pub const BYTES_PER_LENGTH_OFFSET: usize = 4;

// Reads the offset that begins the bytes.
pub fn read_offset(bytes: &[u8]) -> Result<usize, Refusal>
    ensures { result ≡ read_offset_lem bytes.now }
{
    if bytes.len() < BYTES_PER_LENGTH_OFFSET {
        return Err(Refusal::InvalidLengthPrefix(bytes.len(), BYTES_PER_LENGTH_OFFSET));
    }
    Ok(four_at(bytes, 0))
}

// The source's four tests, in its order.
pub fn sanitize_offset(
    offset: usize,
    previous_offset: Option<usize>,
    num_bytes: usize,
    num_fixed_bytes: Option<usize>,
) -> Result<usize, Refusal>
    ensures { result ≡ sanitize_offset_lem offset previous_offset num_bytes num_fixed_bytes }
{
    if num_fixed_bytes.is_some_and(|fixed_bytes| offset < fixed_bytes) {
        Err(Refusal::OffsetIntoFixedPortion(offset))
    } else if previous_offset.is_none()
        && num_fixed_bytes.is_some_and(|fixed_bytes| offset != fixed_bytes)
    {
        Err(Refusal::OffsetSkipsVariableBytes(offset))
    } else if offset > num_bytes {
        Err(Refusal::OffsetOutOfBounds(offset))
    } else if previous_offset.is_some_and(|previous| previous > offset) {
        Err(Refusal::OffsetsAreDecreasing(offset))
    } else {
        Ok(offset)
    }
}

// The selector that begins a union's bytes. The body behind it is `union_body`.
pub fn split_union_bytes(bytes: &[u8]) -> Result<UnionSelector, Refusal>
    ensures { result ≡ split_union bytes.now }
{
    let selector = bytes.first().ok_or(Refusal::OutOfBoundsByte(0))?;
    UnionSelector::new(*selector)
}

// The bytes behind the selector, as a part of the caller's own; none where there is no selector.
// kept: it cannot fail, and still can't; `split_union_bytes` says why there is no selector.
pub fn union_body(bytes: &[u8]) -> &[u8]
    ensures { result.now ≡ union_body_lem bytes.now }
{
    if bytes.is_empty() { bytes } else { &bytes[1..] }
}
