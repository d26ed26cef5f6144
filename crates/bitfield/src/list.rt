// Bit lists: what only they have, and what differs from vectors.
ghost use Rattle.std.specs.Prelude.{◌≡◌, length};
ghost use Rattle.bitfield.specs.Lists.{list_with_capacity, list_from_bytes, list_into_bytes, list_buffer, list_resize, list_clone_zeroed};

use super::body::bitlist_body;
use super::tests::{limit_told, not_below_told, room_told, up_to_told};
use super::{Bitfield, Variable};
use standard::{Refusal, Refused};

impl Bitfield<Variable> {
    // So many bits, of at most n, and none of them set.
    #[tactic(auto, using(crate::proofs::Tolds::fine), unfolding(crate::specs::Lists::list_with_capacity))]
    pub fn with_capacity(len: usize, n: usize) -> Result<Self, Refusal>
        ensures { result ≡ list_with_capacity len n }
    {
        limit_told(n)?;
        up_to_told(len, n)?;
        Ok(Self::zeros(len, n))
    }

    // The bits of a bit list's serialization.
    #[tactic(auto, using(crate::proofs::Tolds::fine, crate::proofs::Standard::list_body), unfolding(crate::specs::Lists::list_from_bytes))]
    pub fn from_bytes(bytes: &[u8], n: usize) -> Result<Self, Refusal>
        ensures { result ≡ list_from_bytes bytes.now n }
    {
        limit_told(n)?;
        let len = bitlist_body(bytes, n)?;
        Ok(Self::read(bytes, len, n))
    }

    // Writes the serialization into a buffer, which keeps the rest, and says how many bytes it has.
    #[tactic(auto, using(crate::proofs::Tolds::fine, crate::proofs::Results::list_needs), unfolding(crate::specs::Lists::list_into_bytes, crate::specs::Lists::list_buffer))]
    pub fn into_bytes(self, out: &mut [u8]) -> Result<usize, Refusal>
        ensures answer { result ≡ list_into_bytes self (length out.old) }
        ensures buffer { out.new ≡ list_buffer self out.old }
    {
        self.tested()?;
        let need = self.len / 8 + 1;
        room_told(need, out.len())?;
        self.put_marked(out);
        Ok(need)
    }

    // The same bits with the limit m, m of them.
    #[tactic(auto, using(crate::proofs::Tolds::fine), unfolding(crate::specs::Lists::list_resize))]
    pub fn resize(self, m: usize) -> Result<Self, Refused<Self>>
        ensures { result ≡ list_resize self m }
    {
        self.tested().map_err(|refusal| self.refused(refusal))?;
        limit_told(m).map_err(|refusal| self.refused(refusal))?;
        not_below_told(m, self.n).map_err(|refusal| self.refused(refusal))?;
        Ok(self.wider(m))
    }

    // As many bits, and none of them set.
    #[tactic(auto, unfolding(crate::specs::Lists::list_clone_zeroed))]
    pub fn clone_zeroed(self) -> Result<Self, Refused<Self>>
        ensures { result ≡ list_clone_zeroed self }
    {
        self.tested().map_err(|refusal| self.refused(refusal))?;
        Ok(Self::zeros(self.len, self.n))
    }
}
