// The elements of a list or vector: how many there are, and whether their offsets are in order.
ghost use Rattle.std.specs.Prelude.{◌≡◌, ℕ, ◌+◌, ◌*◌, ◌/◌, ◌≤◌, ◌<◌, ◌^◌, length, true};
ghost use Rattle.standard.specs.Types.{head};
ghost use Rattle.layout.specs.Kinds.{has_element};
ghost use Rattle.layout.specs.Tree.{node_of, tree_of, head_of};
ghost use Rattle.message.specs.Read.{within, further, behind_first_lem, offset_elements_lem, elements, vector_told_lem, read_item};
ghost use Rattle.std.specs.declared.result.Result.TheVariants.{Ok};
ghost use Rattle.message.specs.Steps.{IsAccepted, many_in_lem};

use crate::table::Table;
use crate::words::four_in;
use layout::{Kind, Node};
use standard::Refusal;

// So many elements, where the limit lets them be.
fn many_within(n: usize, limit: usize) -> Result<usize, Refusal>
    ensures { result ≡ within n limit }
{
    if n <= limit {
        return Ok(n);
    }
    Err(Refusal::OverLimit(n, limit))
}

// The n offsets behind the first.
fn further_offsets(b: &[u8], first: usize, n: usize) -> Result<(), Refusal>
    requires { (4 + 4 * n ≤ length b.now) × (length b.now < 2 ^ 32) }
    ensures { result ≡ further b.now first first 4 n }
{
    let len = b.len();
    let mut previous = first;
    for i in 0..n {
        let o = four_in(b, 4 + 4 * i);
        if o < first {
            return Err(Refusal::OffsetIntoFixedPortion(o));
        }
        if o > len {
            return Err(Refusal::OffsetOutOfBounds(o));
        }
        if o < previous {
            return Err(Refusal::OffsetsAreDecreasing(o));
        }
        previous = o;
    }
    Ok(())
}

// The elements that the first offset o says: all their offsets lie before it.
fn behind_first(limit: usize, b: &[u8], o: usize) -> Result<usize, Refusal>
    requires { (4 ≤ o) × (o ≤ length b.now) × (length b.now < 2 ^ 32) }
    ensures { result ≡ behind_first_lem (within (o / 4) limit) b.now o }
{
    let n = many_within(o / 4, limit)?;
    further_offsets(b, o, n - 1)?;
    Ok(n)
}

// The elements of variable size: the first offset says how many.
fn offset_elements(limit: usize, b: &[u8]) -> Result<usize, Refusal>
    requires { length b.now < 2 ^ 32 }
    ensures { result ≡ offset_elements_lem limit b.now }
{
    let len = b.len();
    if len == 0 {
        return Ok(0);
    }
    if len < 4 {
        return Err(Refusal::InvalidLengthPrefix(len, 4));
    }
    let o = four_in(b, 0);
    if o > len {
        return Err(Refusal::OffsetOutOfBounds(o));
    }
    if o == 0 {
        return Err(Refusal::InvalidListFixedBytesLen(o));
    }
    if o % 4 > 0 {
        return Err(Refusal::InvalidListFixedBytesLen(o));
    }
    behind_first(limit, b, o)
}

// How many elements of the fixed length k the list b has, or of variable size where k is 0.
#[tactic(auto, unfolding(crate::specs::Read::elements))]
pub(crate) fn elements_of(k: usize, limit: usize, b: &[u8]) -> Result<usize, Refusal>
    requires { length b.now < 2 ^ 32 }
    ensures { result ≡ elements (head_of k) limit b.now }
{
    if k == 0 {
        return offset_elements(limit, b);
    }
    let len = b.len();
    if len % k != 0 {
        return Err(Refusal::InvalidByteLength(len, k));
    }
    many_within(len / k, limit)
}

// How many elements a list has that was accepted: its offsets are not looked at again.
pub(crate) fn count_of(k: usize, b: &[u8]) -> usize
    ensures { (limit n : ℕ) → elements (head_of k) limit b.now ≡ Ok n → result ≡ n }
{
    let len = b.len();
    if k > 0 {
        return len / k;
    }
    if len < 4 {
        return 0;
    }
    four_in(b, 0) / 4
}

// How many elements a list or vector of the type t has that was accepted, whose words are n.
pub(crate) fn many_in(table: &Table, n: Node, t: usize, b: &[u8]) -> usize
    requires { (t < table.now.types) × (n ≡ node_of table.now.layout.now t) × (has_element n.kind ≡ true) × IsAccepted (read_item (tree_of table.now.layout.now t) b.now 0) }
    ensures { result ≡ many_in_lem table.now.layout.now n (head (tree_of table.now.layout.now n.second)) b.now }
{
    match n.kind {
        Kind::Vector => table.word(n.at + 2),
        _ => count_of(table.length(n.second), b),
    }
}

// What is found of a vector of n elements of the fixed length k: only its length is asked.
#[tactic(auto, unfolding(crate::specs::Read::vector_told_lem))]
pub(crate) fn exact_told(k: usize, n: usize, b: &[u8]) -> Result<(), Refusal>
    requires { (0 < k) × (n * k < 2 ^ 32) }
    ensures { result ≡ vector_told_lem (head_of k) n b.now }
{
    let len = b.len();
    let whole = n * k;
    if len == whole {
        return Ok(());
    }
    Err(Refusal::InvalidByteLength(len, whole))
}
