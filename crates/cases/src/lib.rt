// Recorded cases: where a record ends, what its parts are, and whether an expected answer is the one that was given.
//
// A record is a word for its operation, a word for the number of its parts, then each part as a word for its length and so
// many bytes. A word is four bytes and a number eight, little-endian.
#![tactic(auto)]

ghost use Rattle.std.specs.Prelude.{◌≡◌, length};
ghost use Rattle.cases.specs.Records.{end_of, next_of, body_of, part_of, record_end_lem, number_at, number_of};
ghost use Rattle.cases.specs.Answers.{agrees, is_number, head_matches_lem, refusal_matches_lem, is_formed_lem, told_of};

use standard::words::{four_at, word_at};
use standard::{Numbers, Refusal};

// What a head's field says where it is not compared: the greatest number
// kept: a number, since the recorded files have it (docs/CASES.md)
pub const ANY: usize = usize::MAX;
// A head is five numbers.
pub const HEAD: usize = 40;

// How a record came out.
#[derive(Clone, Copy, Debug, PartialEq, Eq)]
pub enum Verdict {
    Same,
    Differs,
    Malformed,
}

// Whether the answer is the expected one.
impl From<bool> for Verdict {
    ghost from_gives = { λ same r. r ≡ told_of same };

    fn from(same: bool) -> Verdict {
        if same {
            Verdict::Same
        } else {
            Verdict::Differs
        }
    }
}

// Where the part that begins at p ends.
pub fn part_end(b: &[u8], p: usize) -> Option<usize>
    ensures { result ≡ end_of b.now p }
{
    let end = p.checked_add(4)?.checked_add(four_at(b, p))?;
    (end <= b.len()).then_some(end)
}

// How many bytes the record takes that begins the bytes.
pub fn record_end(b: &[u8]) -> Option<usize>
    ensures { result ≡ record_end_lem b.now }
{
    if b.len() < 8 {
        return None;
    }
    let mut at = 8;
    for _ in 0..word_at(b, 1) {
        at = part_end(b, at)?;
    }
    Some(at)
}

// Where the next part begins.
fn next_start(b: &[u8], p: usize) -> usize
    ensures { result ≡ next_of b.now p }
{
    part_end(b, p).unwrap_or(b.len())
}

// The bytes of the part that begins at p; none where it is not all there.
fn body_at(b: &[u8], p: usize) -> &[u8]
    ensures { result.now ≡ body_of b.now p }
{
    match part_end(b, p) {
        Some(end) => &b[p + 4..end],
        None => &[],
    }
}

// The record's i-th part, from 0; no bytes where the record has none. The walk ends with the bytes, however great i is: from there on no
// step moves it, and no part has bytes.
#[inline(always)]
pub fn part(b: &[u8], i: usize) -> &[u8]
    ensures { result.now ≡ part_of b.now i }
{
    let mut at = 8;
    for _ in 0..i {
        if at >= b.len() {
            break;
        }
        at = next_start(b, at);
    }
    body_at(b, at)
}

// The i-th number of a row; 0 where the row does not have it.
pub fn number_at(row: &[u8], i: usize) -> usize
    ensures { result ≡ number_at row.now i }
{
    let (numbers, _) = row.as_chunks::<8>();
    match numbers.get(i) {
        Some(bytes) => usize::from_le_bytes(*bytes),
        None => 0,
    }
}

// The number that a part says, which then has eight bytes.
pub fn number(part: &[u8]) -> Option<usize>
    ensures { result ≡ number_of part.now }
{
    let bytes = part.as_array::<8>()?;
    Some(usize::from_le_bytes(*bytes))
}

// Whether the part says this number.
pub fn is_number(part: &[u8], x: usize) -> bool
    ensures { result ≡ is_number part.now x }
{
    number(part) == Some(x)
}

// Whether an expected number stands for this one.
fn does_agree(expected: usize, x: usize) -> bool
    ensures { result ≡ agrees expected x }
{
    expected == ANY || expected == x
}

// Whether the expected head is this one, but for what it leaves open.
#[tactic(auto, unfolding(crate::specs::Answers::head_matches_lem))]
pub fn head_matches(head: &[u8], said: Numbers, kind: usize, start: usize) -> bool
    ensures { result ≡ head_matches_lem head.now said.number said.a said.b kind start }
{
    head.len() == HEAD
        && does_agree(number_at(head, 0), said.number)
        && does_agree(number_at(head, 1), said.a)
        && does_agree(number_at(head, 2), said.b)
        && does_agree(number_at(head, 3), kind)
        && does_agree(number_at(head, 4), start)
}

// Whether the expected head is that of a refusal without type and start.
pub fn refusal_matches(head: &[u8], refusal: Refusal) -> bool
    ensures { result ≡ refusal_matches_lem head.now refusal }
{
    head_matches(head, refusal.numbers(), 0, 0)
}

// Whether the record has so many parts, with a head after the question's.
pub fn is_formed(b: &[u8], question: usize, parts: usize) -> bool
    ensures { result ≡ is_formed_lem b.now question parts }
{
    word_at(b, 1) == parts && part(b, question).len() == HEAD
}
