// The unfolding of an accepted message: contents words and body bytes of its value form.
ghost use Rattle.std.specs.Prelude.{◌≡◌, [], ◌∷◌, true, ◌+◌, ◌-◌, ◌≤◌, ◌<◌, ◌^◌, length, get_or};
ghost use Rattle.standard.specs.Bytes.{Stored, Room};
ghost use Rattle.standard.specs.Types.{head, heads};
ghost use Rattle.standard.specs.declared.Head.TheVariants.{Variable};
ghost use Rattle.standard.specs.Parts.{InRange};
ghost use Rattle.layout.specs.declared.Kind.{Kind};
ghost use Rattle.layout.specs.Tree.{node_of, leaf_of, tree_of};
ghost use Rattle.message.specs.Steps.{Placed, types_of};
ghost use Rattle.message.specs.Unfold.{raw_of, unfold_words, words_fields, unfold_bytes, bytes_fields, Accepts, AcceptsAll, Rooms, Filled, MarkedAt};
ghost use Rattle.message.specs.Series.{count_word};
ghost use Rattle.message.specs.Unfolding.{Filling};

use crate::fields::locate;
use crate::items::select;
use crate::parts::{Series, series_in};
use crate::table::Table;
use bitfield::body::bitlist_body;
use layout::{Kind, Node};

// How many contents words and body bytes are filled.
#[derive(Clone, Copy)]
pub(crate) struct Place {
    pub word: usize,
    pub byte: usize,
}

// What is stored of an item ends here, and these of its fields or elements are left to be unfolded.
#[derive(Clone, Copy)]
struct Opened {
    at: Place,
    left: Series,
}

// Copies src to out from at on, and returns where it ends.
fn copy_into(out: &mut [u8], at: usize, src: &[u8]) -> usize
    requires { Room out.old at src.now }
    ensures { Stored out.old at src.now result out.new }
{
    let end = at + src.len();
    out[at..end].copy_from_slice(src);
    end
}

// Stores the last byte of a body of bits without its mark, which is bit h.
fn put_last(out: &mut [u8], at: usize, last: u8, h: usize) -> usize
    requires { (at < length out.old) × (h < 8) × (2 ^ h ≤ last) }
    ensures { Stored out.old at ((last - 2 ^ h) ∷ []) result out.new }
{
    let mark = 1u8 << h;
    out[at] = last - mark;
    at + 1
}

// Stores the k bits of a marked body as raw bytes, and returns where they end.
fn put_raw(out: &mut [u8], at: usize, b: &[u8], k: usize) -> usize
    requires { MarkedAt b.now k × Room out.old at (raw_of b.now k) }
    ensures { Stored out.old at (raw_of b.now k) result out.new }
{
    let full = k / 8;
    let rest = k % 8;
    let last = b[full];
    let whole = copy_into(out, at, &b[..full]);
    if rest != 0 {
        return put_last(out, whole, last, rest);
    }
    if full == 0 {
        return put_last(out, whole, last, rest);
    }
    whole
}

// Free bytes: their length and themselves.
fn unfold_free(contents: &mut [u32], bodies: &mut [u8], at: Place, b: &[u8]) -> Place
    requires { (length b.now < 2 ^ 32) × Rooms contents.old bodies.old at (length b.now ∷ []) b.now }
    ensures { Filled contents.old bodies.old at (length b.now ∷ []) b.now result contents.new bodies.new }
{
    contents[at.word] = b.len() as u32;
    Place {
        word: at.word + 1,
        byte: copy_into(bodies, at.byte, b),
    }
}

// A bit list: how many bits, and their raw bytes.
fn unfold_bits(contents: &mut [u32], bodies: &mut [u8], at: Place, k: usize, b: &[u8]) -> Place
    requires { (k < 2 ^ 32) × MarkedAt b.now k × Rooms contents.old bodies.old at (k ∷ []) (raw_of b.now k) }
    ensures { Filled contents.old bodies.old at (k ∷ []) (raw_of b.now k) result contents.new bodies.new }
{
    contents[at.word] = k as u32;
    Place {
        word: at.word + 1,
        byte: put_raw(bodies, at.byte, b, k),
    }
}

// Stores body bytes that need no contents word.
fn put_bytes(bodies: &mut [u8], at: Place, b: &[u8]) -> Place
    requires { Room bodies.old at.byte b.now }
    ensures { Stored bodies.old at.byte b.now result.byte bodies.new × (result.word ≡ at.word) }
{
    let byte = copy_into(bodies, at.byte, b);
    Place { byte, ..at }
}

// A leaf of variable size: free bytes or a bit list.
fn unfold_leaf(
    contents: &mut [u32],
    bodies: &mut [u8],
    at: Place,
    n: Node,
    t: usize,
    b: &[u8],
) -> Place
    requires { (head (leaf_of t n) ≡ Variable) × (n.second < 2 ^ 32) × (length b.now < 2 ^ 32) × Accepts (leaf_of t n) b.now × Rooms contents.old bodies.old at (unfold_words (leaf_of t n) b.now) (unfold_bytes (leaf_of t n) b.now) }
    ensures { Filled contents.old bodies.old at (unfold_words (leaf_of t n) b.now) (unfold_bytes (leaf_of t n) b.now) result contents.new bodies.new }
{
    match n.kind {
        Kind::FreeBytes => unfold_free(contents, bodies, at, b),
        _ => match bitlist_body(b, n.second) {
            Ok(k) => unfold_bits(contents, bodies, at, k, b),
            Err(_) => at,
        },
    }
}

// Stores the selector of a union.
fn put_selector(contents: &mut [u32], at: Place, b: &[u8]) -> Place
    requires { (at.word < length contents.old) × (1 ≤ length b.now) }
    ensures { Stored contents.old at.word (get_or b.now 0 0 ∷ []) result.word contents.new × (result.byte ≡ at.byte) }
{
    contents[at.word] = b[0] as u32;
    Place {
        word: at.word + 1,
        ..at
    }
}

// Stores the count of a list; a container and a vector have none.
fn put_count(contents: &mut [u32], at: Place, n: Node, m: usize) -> Place
    requires { Room contents.old at.word (count_word n m) × (m < 2 ^ 32) }
    ensures { Stored contents.old at.word (count_word n m) result.word contents.new × (result.byte ≡ at.byte) }
{
    match n.kind {
        Kind::List => {
            contents[at.word] = m as u32;
            Place {
                word: at.word + 1,
                ..at
            }
        }
        _ => at,
    }
}

// Whether the type whose words are n is a list of elements of fixed size.
fn fixed_elements(table: &Table, n: Node) -> bool
    requires { n.kind ≡ Kind.List → n.second < 64 }
    ensures { result ≡ true → (n.kind ≡ Kind.List) × (0 < get_or table.now.lens.now n.second 0) }
{
    match n.kind {
        Kind::List => table.length(n.second) > 0,
        _ => false,
    }
}

// Nothing is left of an item whose value form ends here.
fn nothing_left(at: Place) -> Opened
    ensures { result ≡ record { at = at; left = record { below = 0; first = 0; step = 0; many = 0 } } }
{
    Opened {
        at,
        left: Series::none(),
    }
}

// Stores what an item that is no union has before its fields or elements, and says which of these are left. An item of fixed size is its
// own bytes, and so are elements of fixed size: of those nothing is left.
fn begin(
    contents: &mut [u32],
    bodies: &mut [u8],
    at: Place,
    table: &Table,
    n: Node,
    t: usize,
    b: &[u8],
) -> Opened
    requires { (t < table.now.types) × (length b.now < 2 ^ 32) × (n ≡ node_of table.now.layout.now t) × (n.kind ≡ Kind.Union → ⊥) × Accepts (tree_of table.now.layout.now t) b.now × Rooms contents.old bodies.old at (unfold_words (tree_of table.now.layout.now t) b.now) (unfold_bytes (tree_of table.now.layout.now t) b.now) }
    ensures { Filling table.now.lens.now table.now.layout.now t b.now (unfold_words (tree_of table.now.layout.now t) b.now) (unfold_bytes (tree_of table.now.layout.now t) b.now) contents.old bodies.old at contents.new bodies.new result.at result.left 0 }
{
    if table.length(t) > 0 {
        let end = put_bytes(bodies, at, b);
        return nothing_left(end);
    }
    if n.kind.is_leaf() {
        let end = unfold_leaf(contents, bodies, at, n, t, b);
        return nothing_left(end);
    }
    let left = series_in(table, n, t, b);
    let inside = put_count(contents, at, n, left.many);
    if fixed_elements(table, n) {
        let end = put_bytes(bodies, inside, b);
        return nothing_left(end);
    }
    Opened { at: inside, left }
}

// Stores the value form of the item b from a place on, and returns where it ends.
#[cycle(unfold_fields_unfold_item)]
pub(crate) fn unfold_item(
    contents: &mut [u32],
    bodies: &mut [u8],
    at: Place,
    table: &Table,
    t: usize,
    b: &[u8],
) -> Place
    requires { (t < table.now.types) × (length b.now < 2 ^ 32) × Accepts (tree_of table.now.layout.now t) b.now × Rooms contents.old bodies.old at (unfold_words (tree_of table.now.layout.now t) b.now) (unfold_bytes (tree_of table.now.layout.now t) b.now) }
    ensures { Filled contents.old bodies.old at (unfold_words (tree_of table.now.layout.now t) b.now) (unfold_bytes (tree_of table.now.layout.now t) b.now) result contents.new bodies.new }
{
    let n = table.look(t);
    match n.kind {
        Kind::Union => match select(table, n, b) {
            Ok(None) => put_selector(contents, at, b),
            Ok(Some(o)) => {
                let inside = put_selector(contents, at, b);
                unfold_item(contents, bodies, inside, table, o, &b[1..])
            }
            Err(_) => at,
        },
        _ => {
            let s = begin(contents, bodies, at, table, n, t, b);
            unfold_fields(contents, bodies, s.at, table, s.left, b)
        }
    }
}

// Stores the value forms of the fields or elements of the item b, and returns where they end. A field of fixed size is its own bytes. Of
// variable size only a type that has lower types is unfolded as an item.
#[cycle(unfold_fields_unfold_item)]
fn unfold_fields(
    contents: &mut [u32],
    bodies: &mut [u8],
    at0: Place,
    table: &Table,
    row: Series,
    b: &[u8],
) -> Place
    requires { Placed table.now row × (length b.now < 2 ^ 32) × InRange (heads (types_of table.now.layout.now row)) b.now 0 0 × AcceptsAll (types_of table.now.layout.now row) b.now 0 × Rooms contents.old bodies.old at0 (words_fields (types_of table.now.layout.now row) b.now 0) (bytes_fields (types_of table.now.layout.now row) b.now 0) × (row.below ≤ table.now.types) }
    ensures { Filled contents.old bodies.old at0 (words_fields (types_of table.now.layout.now row) b.now 0) (bytes_fields (types_of table.now.layout.now row) b.now 0) result contents.new bodies.new }
{
    // A copy of the table stays in registers, whatever is stored meanwhile.
    let known = *table;
    let mut at = at0;
    let mut rest = row;
    let mut p = 0;
    while let Some(f) = rest.next(&known) {
        let k = known.length(f);
        if k > 0 {
            let to = p + k;
            at = put_bytes(bodies, at, &b[p..to]);
            p = to;
            continue;
        }
        let w = locate(&known, rest, k, b, p);
        p = w.next;
        let field = &b[w.from..w.to];
        let n = known.look(f);
        at = if n.kind.is_leaf() {
            unfold_leaf(contents, bodies, at, n, f, field)
        } else {
            unfold_item(contents, bodies, at, table, f, field)
        };
    }
    at
}
