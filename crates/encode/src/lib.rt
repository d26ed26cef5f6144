// Encoding: the bytes of a length, and the encoder of a container, as encode.rs of ethereum_ssz 0.10.4 has them.
#![tactic(auto)]

pub mod encoder;

ghost use Rattle.std.specs.Prelude.{◌≡◌};
ghost use Rattle.encode.specs.Lengths.{encode_length_lem};

use standard::Refusal;

pub const BYTES_PER_LENGTH_OFFSET: usize = 4;
// The greatest length that an offset can say.
pub const MAX_LENGTH_VALUE: usize = 4294967295;

// The bytes of a length, as an offset has them.
#[tactic(auto, using(standard::proofs::Bytes::le_bytes))]
pub fn encode_length(len: usize) -> Result<[u8; 4], Refusal>
    ensures { result ≡ encode_length_lem len }
{
    if len > MAX_LENGTH_VALUE {
        return Err(Refusal::TooLarge);
    }
    Ok((len as u32).to_le_bytes())
}
