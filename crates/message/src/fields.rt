// The fields of a container or the elements of a list: their registration, and where each of them lies.
ghost use Rattle.std.specs.Prelude.{◌≡◌, ◌∷◌, ◌+◌, ◌*◌, ◌≤◌, ◌<◌, ◌^◌, length};
ghost use Rattle.standard.specs.Bytes.{word_at};
ghost use Rattle.standard.specs.Types.{head, heads, width, container};
ghost use Rattle.standard.specs.Parts.{next, span_of, InRange};
ghost use Rattle.decode.specs.Builder.{build_at, lay_out_lem};
ghost use Rattle.layout.specs.Tree.{tree_of, head_of};
ghost use Rattle.message.specs.Read.{vector_told_lem};
ghost use Rattle.message.specs.Steps.{Placed, types_of};

use crate::elements::exact_told;
use crate::parts::Series;
use crate::table::Table;
use crate::words::four_in;
use standard::{Refusal, Span};

// The end of a registration that has come to p, over len bytes.
fn finish(first: Option<usize>, p: usize, len: usize) -> Result<(), Refusal>
    ensures { result ≡ build_at first p len }
{
    match first {
        None if p == len => Ok(()),
        None => Err(Refusal::InvalidByteLength(len, p)),
        Some(o) if o < p => Err(Refusal::OffsetIntoFixedPortion(o)),
        Some(o) if o > p => Err(Refusal::OffsetSkipsVariableBytes(o)),
        Some(_) => Ok(()),
    }
}

// Registers the fields, and builds: as `register_head` and `finalize` do, in plain numbers.
fn lay_out(table: &Table, row: Series, b: &[u8]) -> Result<(), Refusal>
    requires { Placed table.now row × (length b.now < 2 ^ 32) }
    ensures { result ≡ lay_out_lem (heads (types_of table.now.layout.now row)) b.now }
{
    let len = b.len();
    let mut p = 0;
    let mut first = None;
    let mut previous = 0;
    let mut rest = row;
    while let Some(f) = rest.next(table) {
        let k = table.length(f);
        if k > 0 {
            p += k;
            if p > len {
                return Err(Refusal::InvalidByteLength(len, p));
            }
            continue;
        }
        let next = p + 4;
        if next > len {
            return Err(Refusal::InvalidLengthPrefix(len - p, 4));
        }
        let o = four_in(b, p);
        if o > len {
            return Err(Refusal::OffsetOutOfBounds(o));
        }
        if o < previous {
            return Err(Refusal::OffsetsAreDecreasing(o));
        }
        first = first.or(Some(o));
        previous = o;
        p = next;
    }
    finish(first, p, len)
}

// What the registration of a container's fields finds. One of fixed size that has its length needs no look at them.
pub(crate) fn container_told(table: &Table, row: Series, b: &[u8]) -> Result<(), Refusal>
    requires { (row.below < table.now.types) × Placed table.now row × (length b.now < 2 ^ 32) × (tree_of table.now.layout.now row.below ≡ container row.below (types_of table.now.layout.now row)) }
    ensures { result ≡ lay_out_lem (heads (types_of table.now.layout.now row)) b.now }
{
    let own = table.length(row.below);
    if own > 0 && own == b.len() {
        return Ok(());
    }
    lay_out(table, row, b)
}

// What is found of a vector of elements of the type e: of fixed size its length is asked alone, else the elements are registered as fields are.
pub(crate) fn vector_told(table: &Table, row: Series, e: usize, b: &[u8]) -> Result<(), Refusal>
    requires { Placed table.now row × (row.step ≡ 0) × (e ≡ word_at table.now.layout.now row.first) × (e < row.below) × (length b.now < 2 ^ 32) × (row.many * width (head (tree_of table.now.layout.now e)) < 2 ^ 32) }
    ensures { result ≡ vector_told_lem (head (tree_of table.now.layout.now e)) row.many b.now }
{
    let k = table.length(e);
    if k == 0 {
        return lay_out(table, row, b);
    }
    exact_told(k, row.many, b)
}

// Where the next variable item starts, from the field at the position p0 on.
fn next_start(table: &Table, row: Series, b: &[u8], p0: usize) -> usize
    requires { Placed table.now row × InRange (heads (types_of table.now.layout.now row)) b.now p0 0 }
    ensures { result ≡ next (heads (types_of table.now.layout.now row)) b.now p0 }
{
    let mut rest = row;
    let mut p = p0;
    while let Some(f) = rest.next(table) {
        let k = table.length(f);
        if k == 0 {
            return four_in(b, p);
        }
        p += k;
    }
    b.len()
}

// Where a field lies whose type has the fixed length k, and whose head is at p. Behind it lie the rest.
pub(crate) fn locate(table: &Table, rest: Series, k: usize, b: &[u8], p: usize) -> Span
    requires { Placed table.now rest × (k < 2 ^ 32) × InRange (head_of k ∷ heads (types_of table.now.layout.now rest)) b.now p 0 }
    ensures { result ≡ span_of (head_of k) (heads (types_of table.now.layout.now rest)) b.now p }
{
    if k == 0 {
        let next = p + 4;
        return Span {
            from: four_in(b, p),
            to: next_start(table, rest, b, next),
            next,
        };
    }
    let to = p + k;
    Span {
        from: p,
        to,
        next: to,
    }
}
