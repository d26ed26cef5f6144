// The form of a value measured: its first fault, or how far it goes and how long what it says is. Nothing is written.
ghost use Rattle.std.specs.Prelude.{◌≡◌, ◌+◌, ◌/◌, ◌<◌, ◌^◌, length, get_or, ltb};
ghost use Rattle.standard.specs.Choice.{pick};
ghost use Rattle.standard.specs.Types.{free_bytes, bit_list};
ghost use Rattle.standard.specs.declared.Refusal.TheVariants.{BadValue};
ghost use Rattle.layout.specs.Tree.{leaf_of, tree_of, head_of};
ghost use Rattle.message.specs.Read.{raw_bytes_lem};
ghost use Rattle.value.specs.Walk.{upto, wrong, with_body, walk_bits, walk_item};
ghost use Rattle.value.specs.Steps.{InRow, types_in, cap, measured, measured_item, measured_row, selected, extra, AllPlain};

use crate::form::{Form, Place};
use crate::laid::{Laid, Members, lay};
use crate::table::Table;
use layout::{Kind, Node};
use standard::Refusal;

// From here on a length is too large, whatever it is.
const TOO_LARGE: usize = 1 << 32;

// How far a form is used, and the length of what it says, as far as 2^32.
#[derive(Clone, Copy)]
pub(crate) struct Mark {
    pub end: Place,
    pub len: usize,
}

fn add(a: usize, b: usize) -> usize
    ensures { result ≡ cap (a + b) }
{
    a.saturating_add(b).min(TOO_LARGE)
}

// The raw bytes of so many bits.
// kept: message says the same. It is one expression, and a call into another crate would be no plainer.
pub(crate) fn raw_bytes(bits: usize) -> usize
    ensures { result ≡ raw_bytes_lem bits }
{
    bits.div_ceil(8).max(1)
}

// A number or fixed bytes: n bytes.
fn measure_exact(form: Form, at: Place, n: usize) -> Result<Mark, Refusal>
    ensures { result ≡ measured (with_body form.entry.bodies.now at.byte n (upto at.word (at.byte + n))) n }
{
    if !form.has(at.byte, n) {
        return Err(form.short());
    }
    let end = Place {
        byte: at.byte + n,
        ..at
    };
    Ok(Mark {
        end,
        len: n.min(TOO_LARGE),
    })
}

// A boolean: one byte, 0 or 1.
fn measure_boolean(form: Form, at: Place) -> Result<Mark, Refusal>
    ensures { result ≡ measured (with_body form.entry.bodies.now at.byte 1 (pick (ltb (get_or form.entry.bodies.now at.byte 0) 2) (upto at.word (at.byte + 1)) (wrong (BadValue 1 at.byte)))) 1 }
{
    let Some(x) = form.bodies.get(at.byte) else {
        return Err(form.short());
    };
    if *x > 1 {
        return Err(Refusal::BadValue(1, at.byte));
    }
    let end = Place {
        byte: at.byte + 1,
        ..at
    };
    Ok(Mark { end, len: 1 })
}

// Raw bytes of k bits, with zero above the last bit; n bytes are written of them.
fn measure_bits(form: Form, k: usize, at: Place, n: usize) -> Result<Mark, Refusal>
    ensures { result ≡ measured (walk_bits form.entry.bodies.now k at.word at.byte) n }
{
    let raw = raw_bytes(k);
    if !form.has(at.byte, raw) {
        return Err(form.short());
    }
    let byte = at.byte + raw;
    let last = byte - 1;
    let bits = k - 8 * (raw - 1);
    if form.bodies[last] as usize >> bits != 0 {
        return Err(Refusal::BadValue(1, last));
    }
    Ok(Mark {
        end: Place { byte, ..at },
        len: n.min(TOO_LARGE),
    })
}

// Free bytes up to their limit.
#[tactic(auto, unfolding(crate::specs::Walk::walk_item))]
fn measure_free(form: Form, at: Place, limit: usize) -> Result<Mark, Refusal>
    ensures { result ≡ measured (walk_item (free_bytes 0 limit) form.entry.contents.now form.entry.bodies.now at.word at.byte) (get_or form.entry.contents.now at.word 0) }
{
    let n = form.count_at(at.word, limit)?;
    measure_exact(form, at.next_word(), n)
}

// A bit list of at most limit bits.
#[tactic(auto, unfolding(crate::specs::Walk::walk_item))]
fn measure_list(form: Form, at: Place, limit: usize) -> Result<Mark, Refusal>
    ensures { result ≡ measured (walk_item (bit_list 0 limit) form.entry.contents.now form.entry.bodies.now at.word at.byte) (get_or form.entry.contents.now at.word 0 / 8 + 1) }
{
    let k = form.count_at(at.word, limit)?;
    let n = k / 8 + 1;
    measure_bits(form, k, at.next_word(), n)
}

// An item of a type that has no lower types.
#[tactic(auto, unfolding(crate::specs::Walk::walk_item, crate::specs::Write::write_item_lem, layout::specs::Tree::leaf_of))]
fn measure_leaf(n: Node, form: Form, at: Place) -> Result<Mark, Refusal>
    ensures { result ≡ measured_item (leaf_of 0 n) form.entry.contents.now form.entry.bodies.now at.word at.byte }
{
    let second = n.second;
    match n.kind {
        Kind::Number | Kind::FixedBytes => measure_exact(form, at, second),
        Kind::Boolean => measure_boolean(form, at),
        Kind::FreeBytes => measure_free(form, at, second),
        Kind::BitVector => measure_bits(form, second, at, raw_bytes(second)),
        _ => measure_list(form, at, second),
    }
}

// A union's selector byte, with what its body has.
fn with_selector(m: Mark) -> Mark
    ensures { Ok result ≡ selected (Ok m) }
{
    Mark {
        len: add(1, m.len),
        ..m
    }
}

// What a field takes in its container: an offset besides, where its length k says that it is of variable size.
fn with_offset(k: usize, len: usize) -> usize
    ensures { result ≡ cap (extra (head_of k) + len) }
{
    let offset = if k == 0 { 4 } else { 0 };
    add(offset, len)
}

// How many bytes the elements are, if they are numbers or fixed bytes: those are measured at once. 0 stands for other elements, and for
// fields.
fn plain_bytes(table: Table, row: Members) -> usize
    requires { InRow table.layout.now table.types row × (row.many < 2 ^ 32) }
    ensures { 0 < result → AllPlain (types_in table.entry.layout.now row) result }
{
    if row.step > 0 || row.many == 0 {
        return 0;
    }
    let f = table.word(row.first);
    if !table.kind(f).is_plain() {
        return 0;
    }
    row.many * (table.lens[f] as usize)
}

// Measures the form of an item of the type t, which starts at the place `at`.
#[cycle(measure_fields_measure_item)]
pub(crate) fn measure_item(table: Table, t: usize, form: Form, at: Place) -> Result<Mark, Refusal>
    requires { t < table.types }
    ensures { result ≡ measured_item (tree_of table.entry.layout.now t) form.entry.contents.now form.entry.bodies.now at.word at.byte }
{
    let n = table.look(t);
    if n.kind.is_leaf() {
        return measure_leaf(n, form, at);
    }
    match lay(table, t, n, form, at.word)? {
        Laid::Row { members, word } => {
            let first = Place { word, ..at };
            let all = plain_bytes(table, members);
            if all > 0 {
                return measure_exact(form, first, all);
            }
            measure_fields(table, members, form, first)
        }
        Laid::Bare => Ok(Mark {
            end: at.next_word(),
            len: 1,
        }),
        Laid::Body(o) => {
            let m = measure_item(table, o, form, at.next_word())?;
            Ok(with_selector(m))
        }
    }
}

// Measures the forms of the fields or elements, from the place `start` on. Most are numbers or fixed bytes, which need no call: only what has
// lower types is measured as an item.
#[cycle(measure_fields_measure_item)]
fn measure_fields(table: Table, row: Members, form: Form, start: Place) -> Result<Mark, Refusal>
    requires { InRow table.layout.now table.types row }
    ensures { result ≡ measured_row (types_in table.entry.layout.now row) form.entry.contents.now form.entry.bodies.now start.word start.byte }
{
    let mut len = 0;
    let mut a = row.first;
    let mut at = start;
    for _ in 0..row.many {
        let f = table.word(a);
        let k = table.lens[f] as usize;
        a += row.step;
        if table.kind(f).is_plain() {
            if !form.has(at.byte, k) {
                return Err(form.short());
            }
            at.byte += k;
            len = add(len, k);
            continue;
        }
        let n = table.look(f);
        let r = if n.kind.is_leaf() {
            measure_leaf(n, form, at)
        } else {
            measure_item(table, f, form, at)
        };
        let m = r?;
        len = add(len, with_offset(k, m.len));
        at = m.end;
    }
    Ok(Mark { end: at, len })
}
