// Little-endian words in lent bytes, for every position: what is not there reads as 0, and is not stored. That four bytes are a single load
// or store was seen in the machine code.
ghost use Rattle.std.specs.Prelude.{◌≡◌, ◌<◌, ◌^◌, length};
ghost use Rattle.std.proofs.lemmas.List.Edits.{sets};
ghost use Rattle.standard.specs.Bytes.{num, four, word_at, le};

// The number in a word.
#[tactic(auto, using(crate::proofs::Bytes::le_number))]
fn number(word: [u8; 4]) -> usize
    ensures { (result ≡ num word) × (result < 2 ^ 32) }
{
    u32::from_le_bytes(word) as usize
}

// The number in less than four bytes.
#[tactic(auto, using(crate::proofs::Bytes::num_short))]
fn short_number(bytes: &[u8]) -> usize
    requires { length bytes.now < 4 }
    ensures { (result ≡ num bytes.now) × (result < 2 ^ 32) }
{
    let mut word = [0; 4];
    word[..bytes.len()].copy_from_slice(bytes);
    number(word)
}

// The number in the four bytes from p on: one load, if they are all there.
// kept: the bytes named one by one and the place compared by hand: measured, `get(p..)` with `first_chunk` takes an instruction more a call.
pub fn four_at(b: &[u8], p: usize) -> usize
    ensures { (result ≡ four b.now p) × (result < 2 ^ 32) }
{
    let len = b.len();
    if len <= p {
        0
    } else if len - p < 4 {
        short_number(&b[p..])
    } else {
        number([b[p], b[p + 1], b[p + 2], b[p + 3]])
    }
}

// The i-th word of a table: one comparison and one load.
pub fn word_at(table: &[u8], i: usize) -> usize
    ensures { (result ≡ word_at table.now i) × (result < 2 ^ 32) }
{
    let (words, _) = table.as_chunks();
    match words.get(i) {
        Some(word) => number(*word),
        None => 0,
    }
}

// Stores the low 32 bits of x in the four bytes from at on, as far as they are there: one store, if they all are.
pub fn put_four(out: &mut [u8], at: usize, x: usize)
    ensures { out.new ≡ sets out.old at (le 4 x) }
{
    let word = ((x % 4294967296) as u32).to_le_bytes();
    let len = out.len();
    if at >= len {
        return;
    }
    if len - at < 4 {
        out[at..].copy_from_slice(&word[..len - at]);
    } else {
        out[at..at + 4].copy_from_slice(&word);
    }
}
