// Bodies of a message: whether bytes are those of a bit list or of a bit vector. Nothing is copied.
ghost use Rattle.std.specs.Prelude.{◌≡◌, ℕ, ◌+◌, ◌-◌, ◌*◌, ◌/◌, ◌<◌, ◌≤◌, length, get_or, slice_index, MatchOption};
ghost use Rattle.standard.specs.Bytes.{Bytes};
ghost use Rattle.bitfield.specs.Body.{bit_list_body, bit_vector_body, bytes_for_lem, list_bits_lem, within};
ghost use Rattle.bitfield.specs.Facts.{LastUsed, TopOf};

use standard::Refusal;

// Where the last byte is that is not zero.
pub(crate) fn last_used(bytes: &[u8]) -> Option<usize>
    ensures { MatchOption result ((k : ℕ) → slice_index bytes.now k ≡ 0) (λ i. LastUsed bytes.now i) }
{
    bytes.iter().rposition(|x| *x != 0)
}

// The highest set bit of a byte that is not zero.
pub(crate) fn top_bit(x: u8) -> usize
    requires { 0 < x }
    ensures { TopOf x result }
{
    7 - (u8::leading_zeros(x) as usize)
}

// The bytes that n bits need.
pub(crate) fn bytes_for(n: usize) -> usize
    ensures { result ≡ bytes_for_lem n }
{
    n.div_ceil(8)
}

// The number of bits before bit h of byte i, where it is at most n.
fn list_bits(i: usize, h: usize, n: usize) -> Result<usize, Refusal>
    requires { h < 8 }
    ensures { result ≡ list_bits_lem (8 * i + h) n }
{
    let q = n / 8;
    if q < i {
        return Err(Refusal::OutOfBounds(n, n));
    }
    let k = 8 * i + h;
    if k <= n {
        Ok(k)
    } else {
        Err(Refusal::OutOfBounds(n, n))
    }
}

// A bit list's body whose last byte is zero is none.
fn unmarked(bytes: &[u8]) -> Result<usize, Refusal>
    requires { (0 < length bytes.now) × (get_or bytes.now (length bytes.now - 1) 0 ≡ 0) }
    ensures { (n : ℕ) → result ≡ bit_list_body bytes.now n }
{
    match last_used(bytes) {
        Some(last) => Err(Refusal::InvalidByteCount(bytes.len(), last + 1)),
        None => Err(Refusal::MissingLengthInformation),
    }
}

// The number of bits of a bit list that has these bytes and at most n bits.
pub fn bitlist_body(bytes: &[u8], n: usize) -> Result<usize, Refusal>
    ensures { result ≡ bit_list_body bytes.now n }
{
    let len = bytes.len();
    if len == 0 {
        return Err(Refusal::ExcessBits);
    }
    let last = bytes[len - 1];
    if last == 0 {
        return unmarked(bytes);
    }
    list_bits(len - 1, top_bit(last), n)
}

// Nothing is set from bit n on, in bytes that end at most with the byte of that bit.
fn none_above(bytes: &[u8], n: usize) -> Result<(), Refusal>
    requires { (length bytes.now ≤ n / 8 + 1) × Bytes bytes.now }
    ensures { result ≡ within bytes.now n }
{
    let q = n / 8;
    if bytes.len() <= q {
        return Ok(());
    }
    if bytes[q] >> (n % 8) == 0 {
        Ok(())
    } else {
        Err(Refusal::ExcessBits)
    }
}

// Whether these bytes are a bit vector of n bits.
pub fn bitvector_body(bytes: &[u8], n: usize) -> Result<(), Refusal>
    ensures { result ≡ bit_vector_body bytes.now n }
{
    let len = bytes.len();
    if n == 0 {
        if len == 1 {
            return none_above(bytes, 0);
        }
        return Err(Refusal::ExcessBits);
    }
    let need = bytes_for(n);
    if len == need {
        none_above(bytes, n)
    } else {
        Err(Refusal::InvalidByteCount(len, need))
    }
}
