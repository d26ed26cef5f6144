// The encoder of a container, as SszEncoder of encode.rs has it: three numbers by value, over two lent buffers, one for the fixed parts
// and their offsets, one for the variable parts.
ghost use Rattle.std.specs.Prelude.{◌≡◌, ◌+◌, ◌≤◌, length, take, leb, Ok, Err};
ghost use Rattle.std.proofs.lemmas.List.Edits.{sets};
ghost use Rattle.standard.specs.Bytes.{le};
ghost use Rattle.standard.specs.Choice.{pick};
ghost use Rattle.standard.specs.declared.Refusal.TheVariants.{NoRoom, BadState};
ghost use Rattle.encode.specs.Encoder.{container, holds, append_fixed_lem, append_variable_lem, append, appended, front_of, back_of};
ghost use Rattle.encode.specs.Finish.{finalize, finished};

use crate::{BYTES_PER_LENGTH_OFFSET, MAX_LENGTH_VALUE};
use standard::Refusal;
use standard::words::put_four;

// The size of the fixed portion, and how many bytes of each buffer are used.
// kept: lengths beside lent buffers, as document 01 has it ("a state by value .. over two lent buffers").
#[derive(Clone, Copy, Debug, PartialEq, Eq)]
pub struct SszEncoder {
    pub offset: usize,
    pub fixed_used: usize,
    pub variable_used: usize,
}

// Stores the bytes of src from at on.
#[tactic(auto, using(standard::proofs::Store::part_sets))]
fn copy_into(out: &mut [u8], at: usize, src: &[u8])
    requires { at + length src.now ≤ length out.old }
    ensures { out.new ≡ sets out.old at src.now }
{
    out[at..at + src.len()].copy_from_slice(src);
}

// Whether the sum is at most the greatest offset.
fn is_offset(size: usize, used: usize) -> bool
    ensures { result ≡ leb (size + used) 4294967295 }
{
    size <= MAX_LENGTH_VALUE && used <= MAX_LENGTH_VALUE - size
}

// 22 unless there is room for what is needed.
fn check_room(needed: usize, room: usize) -> Result<(), Refusal>
    ensures { result ≡ pick (leb needed room) (Ok tt) (Err (NoRoom needed room)) }
{
    if needed > room {
        return Err(Refusal::NoRoom(needed, room));
    }
    Ok(())
}

impl SszEncoder {
    pub fn container(num_fixed_bytes: usize) -> Self
        ensures { result ≡ container num_fixed_bytes }
    {
        SszEncoder {
            offset: num_fixed_bytes,
            fixed_used: 0,
            variable_used: 0,
        }
    }

    // 23 unless each buffer has what is used of it.
    fn check_used(self, fixed: &[u8], variable: &[u8]) -> Result<(), Refusal>
        ensures { result ≡ pick (holds self fixed.now variable.now) (Ok tt) (Err BadState) }
    {
        if self.fixed_used > fixed.len() || self.variable_used > variable.len() {
            return Err(Refusal::BadState);
        }
        Ok(())
    }

    // Appends an item of fixed size: its bytes go into the fixed buffer.
    #[tactic(auto, unfolding(crate::specs::Encoder::append_fixed_lem))]
    pub fn append_fixed(
        self,
        item: &[u8],
        fixed: &mut [u8],
        variable: &[u8],
    ) -> Result<Self, Refusal>
        ensures answer { result ≡ append_fixed_lem self item.now fixed.old variable.now }
        ensures front { fixed.new ≡ appended result fixed.old self.fixed_used item.now }
    {
        self.check_used(fixed, variable)?;
        let end = self.fixed_used + item.len();
        check_room(end, fixed.len())?;
        copy_into(fixed, self.fixed_used, item);
        Ok(SszEncoder {
            fixed_used: end,
            ..self
        })
    }

    // Appends an item of variable size: its offset goes into the fixed buffer, its bytes into the variable one.
    #[tactic(auto, unfolding(crate::specs::Encoder::append_variable_lem))]
    pub fn append_variable(
        self,
        item: &[u8],
        fixed: &mut [u8],
        variable: &mut [u8],
    ) -> Result<Self, Refusal>
        ensures answer { result ≡ append_variable_lem self item.now fixed.old variable.old }
        ensures front { fixed.new ≡ appended result fixed.old self.fixed_used (le 4 (self.offset + self.variable_used)) }
        ensures back { variable.new ≡ appended result variable.old self.variable_used item.now }
    {
        self.check_used(fixed, variable)?;
        if !is_offset(self.offset, self.variable_used) {
            return Err(Refusal::TooLarge);
        }
        let front = self.fixed_used + BYTES_PER_LENGTH_OFFSET;
        check_room(front, fixed.len())?;
        let back = self.variable_used + item.len();
        check_room(back, variable.len())?;
        put_four(fixed, self.fixed_used, self.offset + self.variable_used);
        copy_into(variable, self.variable_used, item);
        Ok(SszEncoder {
            fixed_used: front,
            variable_used: back,
            ..self
        })
    }

    // Appends an item of either kind.
    // kept: the flag is the source's parameter.
    pub fn append_parameterized(
        self,
        is_ssz_fixed_len: bool,
        item: &[u8],
        fixed: &mut [u8],
        variable: &mut [u8],
    ) -> Result<Self, Refusal>
        ensures answer { result ≡ append is_ssz_fixed_len self item.now fixed.old variable.old }
        ensures front { fixed.new ≡ appended result fixed.old self.fixed_used (front_of is_ssz_fixed_len self item.now) }
        ensures back { variable.new ≡ appended result variable.old self.variable_used (back_of is_ssz_fixed_len item.now) }
    {
        if is_ssz_fixed_len {
            self.append_fixed(item, fixed, variable)
        } else {
            self.append_variable(item, fixed, variable)
        }
    }

    // Moves the variable parts behind the fixed ones.
    #[tactic(auto, unfolding(crate::specs::Finish::finalize))]
    pub fn finalize(self, fixed: &mut [u8], variable: &[u8]) -> Result<usize, Refusal>
        ensures answer { result ≡ finalize self fixed.old variable.now }
        ensures front { fixed.new ≡ finished result fixed.old self.fixed_used (take self.variable_used variable.now) }
    {
        self.check_used(fixed, variable)?;
        let len = self.fixed_used + self.variable_used;
        check_room(len, fixed.len())?;
        copy_into(fixed, self.fixed_used, &variable[..self.variable_used]);
        Ok(len)
    }
}
