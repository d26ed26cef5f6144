// The items of a message: leaves, unions, containers with their fields, and lists and vectors with their elements.
ghost use Rattle.std.specs.Prelude.{◌≡◌, ℕ, ◌+◌, ◌≤◌, ◌<◌, ◌^◌, length, true, false};
ghost use Rattle.standard.specs.Choice.{pick};
ghost use Rattle.standard.specs.Bytes.{word_at};
ghost use Rattle.standard.specs.Types.{boolean, free_bytes, bit_vector, bit_list, heads};
ghost use Rattle.standard.specs.Parts.{InRange};
ghost use Rattle.layout.specs.Tree.{node_of, leaf_of, tree_of};
ghost use Rattle.layout.specs.Kinds.{is_leaf, is_plain, has_element};
ghost use Rattle.layout.specs.declared.Kind.{Kind};
ghost use Rattle.std.specs.declared.result.Result.TheVariants.{Ok};
ghost use Rattle.message.specs.Read.{located, raw_bytes_lem, one, plus, and_then, read_exact, read_item, read_fields};
ghost use Rattle.message.specs.declared.Counts.{Counts};
ghost use Rattle.message.specs.declared.items.Inside.{Inside};
ghost use Rattle.message.specs.Steps.{Placed, types_of, Found, placed, option_at_lem, choice_of, choose, Small};

use crate::elements::elements_of;
use crate::fields::{container_told, locate, vector_told};
use crate::parts::Series;
use crate::table::Table;
use crate::{Counts, RefusedAt, Sizes};
use bitfield::body::{bitlist_body, bitvector_body};
use decode::split_union_bytes;
use decode::union_selector::UnionSelector;
use layout::{Kind, NO_BODY, Node};
use standard::Refusal;
use standard::words::word_at;

// What is wrong with the item of type t that starts at start.
fn located(refusal: Refusal, t: usize, start: usize) -> RefusedAt
    ensures { result ≡ located refusal t start }
{
    RefusedAt {
        refusal,
        type_number: t,
        start,
    }
}

impl Counts {
    // One item with so many contents words and body bytes.
    fn item(words: usize, bytes: usize) -> Counts
        ensures { result ≡ record { records = 1; words = words; bytes = bytes } }
    {
        Counts {
            records: 1,
            words,
            bytes,
        }
    }

    // Two parts together.
    fn add(self, other: Counts) -> Counts
        requires { Small self (2 ^ 50) × Small other (2 ^ 50) }
        ensures { result ≡ plus self other }
    {
        Counts {
            records: self.records + other.records,
            words: self.words + other.words,
            bytes: self.bytes + other.bytes,
        }
    }
}

// The raw bytes of so many bits.
fn raw_bytes(bits: usize) -> usize
    ensures { result ≡ raw_bytes_lem bits }
{
    bits.div_ceil(8).max(1)
}

// A number or fixed bytes: w bytes. Where a leaf lies its caller knows, here and below.
fn exact_check(w: usize, b: &[u8]) -> Result<Sizes, Refusal>
    ensures { (t s : ℕ) → placed result t s ≡ read_exact w t b.now s }
{
    let len = b.len();
    if len == w {
        Ok(Sizes {
            words: 0,
            bytes: len,
        })
    } else {
        Err(Refusal::InvalidByteLength(len, w))
    }
}

// A boolean: one byte, 0 or 1.
#[tactic(auto, unfolding(crate::specs::Read::read_item))]
fn boolean_check(b: &[u8]) -> Result<Sizes, Refusal>
    ensures { (t s : ℕ) → placed result t s ≡ read_item (boolean t) b.now s }
{
    let len = b.len();
    if len != 1 {
        return Err(Refusal::InvalidByteLength(len, 1));
    }
    let x = b[0];
    if x < 2 {
        Ok(Sizes { words: 0, bytes: 1 })
    } else {
        Err(Refusal::BadBoolean(x))
    }
}

// Free bytes up to their limit; they are not looked at.
#[tactic(auto, unfolding(crate::specs::Read::read_item))]
fn free_check(limit: usize, b: &[u8]) -> Result<Sizes, Refusal>
    ensures { (t s : ℕ) → placed result t s ≡ read_item (free_bytes t limit) b.now s }
{
    let len = b.len();
    if len <= limit {
        Ok(Sizes {
            words: 1,
            bytes: len,
        })
    } else {
        Err(Refusal::OverLimit(len, limit))
    }
}

// A bit vector of n bits.
#[tactic(auto, unfolding(crate::specs::Read::read_item))]
fn vector_check(n: usize, b: &[u8]) -> Result<Sizes, Refusal>
    ensures { (t s : ℕ) → placed result t s ≡ read_item (bit_vector t n) b.now s }
{
    bitvector_body(b, n)?;
    Ok(Sizes {
        words: 0,
        bytes: b.len(),
    })
}

// A bit list of at most limit bits.
#[tactic(auto, unfolding(crate::specs::Read::read_item))]
fn list_check(limit: usize, b: &[u8]) -> Result<Sizes, Refusal>
    ensures { (t s : ℕ) → placed result t s ≡ read_item (bit_list t limit) b.now s }
{
    let k = bitlist_body(b, limit)?;
    Ok(Sizes {
        words: 1,
        bytes: raw_bytes(k),
    })
}

// An item of a type that has no lower types.
#[tactic(auto, unfolding(crate::specs::Read::read_item, layout::specs::Tree::leaf_of))]
fn leaf_check(n: Node, b: &[u8]) -> Result<Sizes, Refusal>
    ensures { (t s : ℕ) → placed result t s ≡ read_item (leaf_of t n) b.now s }
{
    match n.kind {
        Kind::Number => exact_check(n.second, b),
        Kind::Boolean => boolean_check(b),
        Kind::FixedBytes => exact_check(n.second, b),
        Kind::FreeBytes => free_check(n.second, b),
        Kind::BitVector => vector_check(n.second, b),
        _ => list_check(n.second, b),
    }
}

// The option whose word is w, the type of its body: without body it is its selector byte alone.
fn option_at(w: usize, len: usize) -> Result<Option<usize>, Refusal>
    requires { 1 ≤ len }
    ensures { result ≡ option_at_lem w len }
{
    if w != NO_BODY {
        return Ok(Some(w));
    }
    if len == 1 {
        return Ok(None);
    }
    Err(Refusal::InvalidByteLength(len - 1, 0))
}

// The option that the selector names, of a union whose words are n. Nowhere else is a selector a place in the table.
fn option_of(
    table: &Table,
    n: Node,
    selector: UnionSelector,
    len: usize,
) -> Result<Option<usize>, Refusal>
    requires { (n.at < 2 ^ 32) × (1 ≤ len) }
    ensures { result ≡ choice_of (Ok selector) table.now.layout.now (n.at + 2) n.second len }
{
    let byte = selector.get();
    let k = byte as usize;
    if k >= n.second {
        return Err(Refusal::UnionSelectorInvalid(byte));
    }
    let w = word_at(table.layout, n.at + 2 + k);
    option_at(w, len)
}

// What the selector of the union b chooses, whose words are n: the type of a body, or none.
#[tactic(auto, unfolding(crate::specs::Steps::choose))]
pub(crate) fn select(table: &Table, n: Node, b: &[u8]) -> Result<Option<usize>, Refusal>
    requires { n.at < 2 ^ 32 }
    ensures { result ≡ choose table.now.layout.now (n.at + 2) n.second b.now }
{
    let selector = split_union_bytes(b)?;
    option_of(table, n, selector, b.len())
}

// Free bytes within their limit: of them nothing else is asked.
fn is_within(n: Node, len: usize) -> bool
    ensures { result ≡ true → (n.kind ≡ Kind.FreeBytes) × (len ≤ n.second) }
{
    match n.kind {
        Kind::FreeBytes => len <= n.second,
        _ => false,
    }
}

// What there is to read inside an item: nothing more, and how many records and contents words the item has; or its fields or elements, and the
// contents words of the item itself.
#[derive(Clone, Copy)]
enum Inside {
    Counted { records: usize, words: usize },
    Fields { row: Series, words: usize },
}

// Elements of the type e, which lie as they should. Numbers and fixed bytes have no rule of their own left to fail, so they are counted and not
// looked at.
fn row_inside(table: &Table, row: Series, e: usize, words: usize) -> Inside
    requires { (e < table.now.types) × (row.many < 2 ^ 34) }
    ensures { result ≡ pick (is_plain (node_of table.now.layout.now e).kind) (Inside.Counted (1 + row.many) words) (Inside.Fields row words) }
{
    if table.kind(e).is_plain() {
        return Inside::Counted {
            records: 1 + row.many,
            words,
        };
    }
    Inside::Fields { row, words }
}

// The inside of the list or vector b of the type t, whose words are n.
fn elements_inside(table: &Table, n: Node, t: usize, b: &[u8]) -> Result<Inside, Refusal>
    requires { (t < table.now.types) × (length b.now < 2 ^ 32) × (n ≡ node_of table.now.layout.now t) × (has_element n.kind ≡ true) }
    ensures { Found table.now.lens.now table.now.layout.now t b.now result }
{
    let e = n.second;
    let third = table.word(n.at + 2);
    match n.kind {
        Kind::Vector => {
            let row = Series::elements(t, n, third);
            vector_told(table, row, e, b)?;
            Ok(row_inside(table, row, e, 0))
        }
        _ => {
            let many = elements_of(table.length(e), third, b)?;
            let row = Series::elements(t, n, many);
            Ok(row_inside(table, row, e, 1))
        }
    }
}

// The inside of the container, list or vector b of the type t, whose words are n.
fn inside_of(table: &Table, n: Node, t: usize, b: &[u8]) -> Result<Inside, Refusal>
    requires { (t < table.now.types) × (length b.now < 2 ^ 32) × (n ≡ node_of table.now.layout.now t) × (is_leaf n.kind ≡ false) × (n.kind ≡ Kind.Union → ⊥) }
    ensures { Found table.now.lens.now table.now.layout.now t b.now result }
{
    match n.kind {
        Kind::Container => {
            let row = Series::fields(t, n);
            container_told(table, row, b)?;
            Ok(Inside::Fields { row, words: 0 })
        }
        _ => elements_inside(table, n, t, b),
    }
}

// Checks the item b of the type t, which starts at start. Only here are fields read, whatever holds them: the loop over them is then no call.
#[cycle(field_check_item_check)]
pub(crate) fn item_check(
    table: &Table,
    t: usize,
    b: &[u8],
    start: usize,
) -> Result<Counts, RefusedAt>
    requires { (t < table.now.types) × (start + length b.now < 2 ^ 32) }
    ensures { result ≡ read_item (tree_of table.now.layout.now t) b.now start }
{
    let n = table.look(t);
    if n.kind.is_leaf() {
        return match leaf_check(n, b) {
            Ok(sizes) => Ok(Counts::item(sizes.words, sizes.bytes)),
            Err(refusal) => Err(located(refusal, t, start)),
        };
    }
    match n.kind {
        Kind::Union => match select(table, n, b) {
            Ok(None) => Ok(Counts::item(1, 0)),
            Ok(Some(o)) => {
                let body = item_check(table, o, &b[1..], start + 1)?;
                Ok(Counts::item(1, 0).add(body))
            }
            Err(refusal) => Err(located(refusal, t, start)),
        },
        _ => match inside_of(table, n, t, b) {
            Ok(Inside::Counted { records, words }) => Ok(Counts {
                records,
                words,
                bytes: b.len(),
            }),
            Ok(Inside::Fields { row, words }) => field_check(table, row, words, b, start),
            Err(refusal) => Err(located(refusal, t, start)),
        },
    }
}

// Checks the fields in the item b, and counts them with what holds them, which has so many contents words. Numbers and fixed bytes have their
// length from the table, and the registration tested it; free bytes are the most common of variable size: neither needs a call.
#[cycle(field_check_item_check)]
fn field_check(
    table: &Table,
    row: Series,
    words: usize,
    b: &[u8],
    start: usize,
) -> Result<Counts, RefusedAt>
    requires { Placed table.now row × (start + length b.now < 2 ^ 32) × InRange (heads (types_of table.now.layout.now row)) b.now 0 0 × (words ≤ 1) × (row.below ≤ table.now.types) }
    ensures { result ≡ and_then (one words 0) (read_fields (types_of table.now.layout.now row) b.now 0 start) }
{
    // A copy of the table stays in registers, whatever is stored meanwhile.
    let known = *table;
    let mut sum = Counts::item(words, 0);
    let mut rest = row;
    let mut p = 0;
    while let Some(f) = rest.next(&known) {
        let kind = known.kind(f);
        let k = known.length(f);
        if kind.is_plain() {
            sum = sum.add(Counts::item(0, k));
            p += k;
            continue;
        }
        let w = locate(&known, rest, k, b, p);
        p = w.next;
        let len = w.to - w.from;
        let node = known.node(f, kind);
        if is_within(node, len) {
            sum = sum.add(Counts::item(1, len));
            continue;
        }
        let at = start + w.from;
        let field = &b[w.from..w.to];
        if kind.is_leaf() {
            match leaf_check(node, field) {
                Ok(sizes) => sum = sum.add(Counts::item(sizes.words, sizes.bytes)),
                Err(refusal) => return Err(located(refusal, f, at)),
            }
            continue;
        }
        sum = sum.add(item_check(table, f, field, at)?);
    }
    Ok(sum)
}
