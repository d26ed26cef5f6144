// The types of a table: where the body of each ends, and how long it is.
ghost use Rattle.std.specs.Prelude.{◌≡◌, ◌+◌, ◌*◌, ◌≤◌, ◌<◌, ◌^◌, get_or, false, true, IfOk};
ghost use Rattle.standard.specs.Bytes.{word_at};
ghost use Rattle.standard.specs.Types.{is_width, width, boolean, head, head_all};
ghost use Rattle.layout.specs.Tree.{node_of, fields, trees, tree_of, len_of, head_of};
ghost use Rattle.layout.specs.Table.{count, may_name_lem, refs, counted, many, container_end_lem, list_end_lem, vector_end_lem, leaf_word, leaf_end_lem, body_end_lem};
ghost use Rattle.layout.specs.Legal.{Legal};
ghost use Rattle.layout.specs.Steps.{Known, Lengthened, leaf_len_lem, sizes_of, with_len};

use crate::{Kind, NO_BODY, Node};
use standard::Refusal;
use standard::words::{four_at, word_at};

// Where a type's body ends, and how long the type is, 0 if it is of variable size.
#[derive(Clone, Copy)]
pub(crate) struct Body {
    pub end: usize,
    pub len: usize,
}

// Where the words of some fields end, what the fields take of a fixed portion, and how long they are, 0 if one of them is of variable size.
#[derive(Clone, Copy)]
struct Sizes {
    end: usize,
    portion: usize,
    length: usize,
}

// A word that is there: no comparison is needed.
#[tactic(auto, unfolding(crate::specs::Table::count))]
pub(crate) fn word_in(layout: &[u8], i: usize) -> usize
    requires { i < count layout.now }
    ensures { (result ≡ word_at layout.now i) × (result < 2 ^ 32) }
{
    let p = 4 * i;
    four_at(&layout[p..p + 4], 0)
}

// A word names a type below t, or no body where that may be.
fn may_name(w: usize, t: usize, none: bool) -> bool
    ensures { result ≡ may_name_lem w t none }
{
    w < t || none && w == NO_BODY
}

// How much of a fixed portion a type with this length takes.
#[tactic(auto, unfolding(standard::specs::Types::width))]
fn width_of(len: usize) -> usize
    ensures { result ≡ width (head_of len) }
{
    if len == 0 { 4 } else { len }
}

// A width that a number may have.
fn width_ok(w: usize) -> bool
    ensures { result ≡ is_width w }
{
    matches!(w, 1 | 2 | 4 | 8 | 16 | 32)
}

// What the word of a leaf must be.
fn leaf_ok(kind: Kind, w: usize) -> bool
    ensures { result ≡ leaf_word kind w }
{
    match kind {
        Kind::Number => width_ok(w),
        Kind::FixedBytes | Kind::BitVector => 0 < w,
        _ => true,
    }
}

// The fixed length of a leaf.
#[tactic(auto, unfolding(standard::specs::Types::head))]
fn leaf_len(kind: Kind, w: usize) -> usize
    requires { w < 2 ^ 32 }
    ensures { result ≡ leaf_len_lem kind w }
{
    match kind {
        Kind::Number | Kind::FixedBytes => w,
        Kind::Boolean => 1,
        Kind::BitVector => (w + 7) / 8,
        _ => 0,
    }
}

// The n words from a0 on are there, and name types below t, or no body where that may be.
fn refs_end(layout: &[u8], t: usize, none: bool, a0: usize, n: usize) -> Result<usize, Refusal>
    requires { a0 + n < 2 ^ 64 }
    ensures { result ≡ refs layout.now t none a0 n }
{
    let words = layout.len() / 4;
    for a in a0..a0 + n {
        if a >= words {
            return Err(Refusal::BadLayout(words));
        }
        if !may_name(word_at(layout, a), t, none) {
            return Err(Refusal::BadLayout(a));
        }
    }
    Ok(a0 + n)
}

// A number of 1 to most at the word behind at.
#[tactic(auto, unfolding(crate::specs::Table::counted, crate::specs::Table::count))]
fn count_at(layout: &[u8], at: usize, most: usize) -> Result<usize, Refusal>
    requires { at ≤ 2 ^ 61 }
    ensures value { result ≡ counted layout.now at most }
    ensures few { IfOk result (λ n. n ≤ most) }
{
    let words = layout.len() / 4;
    let next = at + 1;
    if next >= words {
        return Err(Refusal::BadLayout(words));
    }
    let n = word_at(layout, next);
    if n == 0 || n > most {
        return Err(Refusal::BadLayout(next));
    }
    Ok(n)
}

// A leaf with one word behind its kind.
#[tactic(auto, unfolding(crate::specs::Table::leaf_end_lem, crate::specs::Table::count))]
fn leaf_end(layout: &[u8], kind: Kind, at: usize) -> Result<Body, Refusal>
    requires { at < 2 ^ 32 }
    ensures { result ≡ with_len (leaf_end_lem kind layout.now at) (leaf_len_lem kind (word_at layout.now (at + 1))) }
{
    let words = layout.len() / 4;
    let next = at + 1;
    if next >= words {
        return Err(Refusal::BadLayout(words));
    }
    let w = word_in(layout, next);
    if !leaf_ok(kind, w) {
        return Err(Refusal::BadLayout(next));
    }
    Ok(Body {
        end: at + 2,
        len: leaf_len(kind, w),
    })
}

// What the table says of the type t, which is legal: its words are there, and its kind.
fn look(layout: &[u8], t: usize) -> Node
    requires { Legal layout.now (t + 1) }
    ensures { result ≡ node_of layout.now t }
{
    let at = word_in(layout, 1 + t);
    let kind = Kind::of(word_in(layout, at)).unwrap();
    let second = word_at(layout, at + 1);
    Node { kind, at, second }
}

// kept: `lens` and `layout` as parameters: a struct's invariant over a lent array is refused between the two writes that remember a length.
// The fixed length of the type t: remembered below `known`, or worked out.
// kept: the rule of docs/DECISIONS.md, "Fixed lengths": it calls itself on lower types, and remembers what it finds in an array lent to it.
#[cycle(fields_len_fixed_len_work_out)]
fn fixed_len(lens: &mut [u32; 64], known: usize, layout: &[u8], t: usize) -> usize
    requires { Known lens.old layout.now known × Legal layout.now (t + 1) × (t ≤ known) × (t < 64) }
    ensures { Lengthened layout.now known t result lens.new }
{
    if t < known {
        return lens[t] as usize;
    }
    work_out(lens, layout, t)
}

// The fixed length of the type t, from the lower types that it names, and remembered. Apart from the look at what is remembered, which is
// then no call.
#[cycle(fields_len_fixed_len_work_out)]
fn work_out(lens: &mut [u32; 64], layout: &[u8], t: usize) -> usize
    requires { Known lens.old layout.now t × Legal layout.now (t + 1) × (t < 64) }
    ensures { Lengthened layout.now t t result lens.new }
{
    let n = look(layout, t);
    let len = match n.kind {
        Kind::Vector => word_at(layout, n.at + 2) * fixed_len(lens, t, layout, n.second),
        Kind::Container => fields_len(lens, layout, t, n.at + 2, n.second)
            .unwrap()
            .length,
        kind => leaf_len(kind, n.second),
    };
    lens[t] = len as u32;
    len
}

// The n words from a0 on, which are there, name types below t, the fields of type t: their sizes, from their fixed lengths, or the first bad
// word.
#[cycle(fields_len_fixed_len_work_out)]
fn fields_len(
    lens: &mut [u32; 64],
    layout: &[u8],
    t: usize,
    a0: usize,
    n: usize,
) -> Result<Sizes, Refusal>
    requires { Known lens.old layout.now t × (n ≤ 64) × (a0 + n ≤ count layout.now) }
    ensures value { result ≡ sizes_of (refs layout.now t false a0 n) (fields layout.now (trees layout.now t) a0 n) }
    ensures lens_unchanged { lens.new ≡ lens.old }
{
    let mut portion = 0;
    let mut fixed = true;
    for a in a0..a0 + n {
        let f = word_in(layout, a);
        if f >= t {
            return Err(Refusal::BadLayout(a));
        }
        let len = fixed_len(lens, t, layout, f);
        if len == 0 {
            fixed = false;
        }
        portion += width_of(len);
    }
    Ok(Sizes {
        end: a0 + n,
        portion,
        length: if fixed { portion } else { 0 },
    })
}

// The container t at the word at: a number of fields, their words, and a fixed portion that fits an offset.
#[tactic(auto, unfolding(crate::specs::Table::container_end_lem, crate::specs::Table::many, crate::specs::Table::counted, crate::specs::Steps::sizes_of))]
fn container_end(lens: &mut [u32; 64], layout: &[u8], t: usize, at: usize) -> Result<Body, Refusal>
    requires { Known lens.old layout.now t × (at < 2 ^ 32) }
    ensures lens_unchanged { lens.new ≡ lens.old }
    ensures value { result ≡ with_len (container_end_lem layout.now t at) (len_of (head_all (fields layout.now (trees layout.now t) (at + 2) (word_at layout.now (at + 1))))) }
{
    let n = count_at(layout, at, 64)?;
    let first = at + 2;
    // only where a word is missing is each looked for
    if first + n > layout.len() / 4 {
        return Err(refs_end(layout, t, false, first, n).unwrap_err());
    }
    let sizes = fields_len(lens, layout, t, first, n)?;
    if sizes.portion > 4294967295 {
        return Err(Refusal::BadLayout(at));
    }
    Ok(Body {
        end: sizes.end,
        len: sizes.length,
    })
}

// The union t at the word at: the number of its options, and as many references.
#[tactic(auto, unfolding(crate::specs::Table::many))]
fn union_end(layout: &[u8], t: usize, at: usize) -> Result<usize, Refusal>
    requires { at ≤ 2 ^ 61 }
    ensures { result ≡ many layout.now t at true 128 }
{
    let n = count_at(layout, at, 128)?;
    refs_end(layout, t, true, at + 2, n)
}

// The list t at the word at: its element's type, and any greatest count.
#[tactic(auto, unfolding(crate::specs::Table::list_end_lem, crate::specs::Table::count))]
fn list_end(layout: &[u8], t: usize, at: usize) -> Result<usize, Refusal>
    requires { at ≤ 2 ^ 61 }
    ensures { result ≡ list_end_lem layout.now t at }
{
    let words = layout.len() / 4;
    let e = refs_end(layout, t, false, at + 1, 1)?;
    if e < words {
        Ok(e + 1)
    } else {
        Err(Refusal::BadLayout(words))
    }
}

// The vector t at the word at: its element's type, a count of at least 1, and a fixed portion that fits an offset. An element of variable
// size has the length 0, and so has the vector.
#[tactic(auto, unfolding(crate::specs::Table::vector_end_lem))]
fn vector_end(lens: &[u32; 64], layout: &[u8], t: usize, at: usize) -> Result<Body, Refusal>
    requires { Known lens.now layout.now t × (at < 2 ^ 32) }
    ensures { result ≡ with_len (vector_end_lem layout.now t at) (word_at layout.now (at + 2) * len_of (head (get_or (trees layout.now t) (word_at layout.now (at + 1)) (boolean 0)))) }
{
    refs_end(layout, t, false, at + 1, 1)?;
    let n = count_at(layout, at + 1, 4294967295)?;
    let f = word_at(layout, at + 1);
    let len = lens[f] as usize;
    if n * width_of(len) > 4294967295 {
        return Err(Refusal::BadLayout(at));
    }
    Ok(Body {
        end: at + 3,
        len: n * len,
    })
}

// The body of type t, which starts at the word at.
#[tactic(auto, unfolding(crate::specs::Table::body_end_lem, crate::specs::Table::count))]
pub(crate) fn body_end(
    lens: &mut [u32; 64],
    layout: &[u8],
    t: usize,
    at: usize,
) -> Result<Body, Refusal>
    requires { Known lens.old layout.now t × (at < 2 ^ 32) × (at ≡ word_at layout.now (1 + t)) }
    ensures lens_unchanged { lens.new ≡ lens.old }
    ensures value { result ≡ with_len (body_end_lem layout.now t at) (len_of (head (tree_of layout.now t))) }
{
    let words = layout.len() / 4;
    if at >= words {
        return Err(Refusal::BadLayout(words));
    }
    let Some(kind) = Kind::of(word_in(layout, at)) else {
        return Err(Refusal::BadLayout(at));
    };
    match kind {
        Kind::Container => container_end(lens, layout, t, at),
        Kind::Vector => vector_end(lens, layout, t, at),
        Kind::Union => {
            let end = union_end(layout, t, at)?;
            Ok(Body { end, len: 0 })
        }
        Kind::List => {
            let end = list_end(layout, t, at)?;
            Ok(Body { end, len: 0 })
        }
        Kind::Boolean => Ok(Body {
            end: at + 1,
            len: 1,
        }),
        // kept: each leaf by its name: one arm for all jumps on the kind again (measured: a table of a byte 96 instructions, so 88)
        Kind::Number => leaf_end(layout, Kind::Number, at),
        Kind::FixedBytes => leaf_end(layout, Kind::FixedBytes, at),
        Kind::FreeBytes => leaf_end(layout, Kind::FreeBytes, at),
        Kind::BitVector => leaf_end(layout, Kind::BitVector, at),
        Kind::BitList => leaf_end(layout, Kind::BitList, at),
    }
}
