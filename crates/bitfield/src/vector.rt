// Bit vectors: what only they have, and what differs from lists.
ghost use Rattle.std.specs.Prelude.{◌≡◌, max, length};
ghost use Rattle.bitfield.specs.Body.{bytes_for_lem};
ghost use Rattle.bitfield.specs.Vectors.{vector_new, vector_from_bytes, vector_into_bytes, vector_buffer};

use super::body::{bitvector_body, bytes_for};
use super::raw::put_raw;
use super::tests::{limit_told, room_told};
use super::{Bitfield, Fixed};
use standard::Refusal;

// Raw bytes are at least one.
fn raw_len(len: usize) -> usize
    ensures { result ≡ max 1 (bytes_for_lem len) }
{
    bytes_for(len).max(1)
}

impl Bitfield<Fixed> {
    // n bits, and none of them set.
    #[tactic(auto, using(crate::proofs::Tolds::fine), unfolding(crate::specs::Vectors::vector_new))]
    pub fn new(n: usize) -> Result<Self, Refusal>
        ensures { result ≡ vector_new n }
    {
        limit_told(n)?; // the length is the limit
        Ok(Self::zeros(n, n))
    }

    // The bits of a bit vector's serialization.
    #[tactic(auto, using(crate::proofs::Tolds::fine, crate::proofs::Standard::vector_says), unfolding(crate::specs::Vectors::vector_from_bytes))]
    pub fn from_bytes(bytes: &[u8], n: usize) -> Result<Self, Refusal>
        ensures { result ≡ vector_from_bytes bytes.now n }
    {
        limit_told(n)?;
        bitvector_body(bytes, n)?;
        Ok(Self::read(bytes, n, n))
    }

    // Writes the serialization into a buffer, which keeps the rest, and says how many bytes it has.
    #[tactic(auto, using(crate::proofs::Tolds::fine, crate::proofs::Results::vector_needs), unfolding(crate::specs::Vectors::vector_into_bytes, crate::specs::Vectors::vector_buffer))]
    pub fn into_bytes(self, out: &mut [u8]) -> Result<usize, Refusal>
        ensures answer { result ≡ vector_into_bytes self (length out.old) }
        ensures buffer { out.new ≡ vector_buffer self out.old }
    {
        self.tested()?;
        let need = raw_len(self.len);
        room_told(need, out.len())?;
        put_raw(out, &self.bytes, need);
        Ok(need)
    }
}
