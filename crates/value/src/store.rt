// The message written from a form that was measured: each body byte is copied once.
ghost use Rattle.std.specs.Prelude.{◌≡◌, [], ◌∷◌, ◌+◌, ◌-◌, ◌*◌, ◌/◌, ◌≤◌, ◌<◌, ◌^◌, length, get_or, eqb};
ghost use Rattle.std.proofs.lemmas.List.Edits.{sets};
ghost use Rattle.standard.specs.Choice.{pick};
ghost use Rattle.standard.specs.Bytes.{Room, le};
ghost use Rattle.standard.specs.Types.{head, width, portion};
ghost use Rattle.standard.specs.Parts.{join};
ghost use Rattle.standard.specs.declared.Head.TheVariants.{Variable};
ghost use Rattle.layout.specs.Tree.{leaf_of, tree_of, head_of};
ghost use Rattle.message.specs.Read.{raw_bytes_lem};
ghost use Rattle.value.specs.Walk.{upto, last_bits, walk_item, walk_fields};
ghost use Rattle.value.specs.Write.{bytes_at, with_mark, write_item_lem, parts_from};
ghost use Rattle.value.specs.Steps.{InRow, types_in, heads_in, IsUpto};
ghost use Rattle.value.specs.Stores.{Put, Together, Fields};

use crate::form::{Form, Place};
use crate::laid::{Laid, Members, lay};
use crate::measure::raw_bytes;
use crate::table::Table;
use layout::{Kind, Node};
use standard::words::put_four;

// How far the form is used, and where what was written ends.
#[derive(Clone, Copy)]
pub(crate) struct Stop {
    pub end: Place,
    pub to: usize,
}

// Stores the bytes of src from `to` on.
// kept: encode and message have it too. A shared one would be public, and a public function has no `requires` (a rule of the project).
#[tactic(auto, using(standard::proofs::Store::part_sets))]
fn copy_into(out: &mut [u8], to: usize, src: &[u8])
    requires { to + length src.now ≤ length out.old }
    ensures { out.new ≡ sets out.old to src.now }
{
    out[to..to + src.len()].copy_from_slice(src);
}

// Stores an offset, for which there is room: its four bytes are a slice, so `put_four` compares nothing.
fn put_offset(out: &mut [u8], to: usize, offset: usize)
    requires { to + 4 ≤ length out.old }
    ensures { out.new ≡ sets out.old to (le 4 offset) }
{
    put_four(&mut out[to..to + 4], 0, offset);
}

// Stores n bytes of the bodies.
fn put_part(out: &mut [u8], to: usize, form: Form, at: Place, n: usize) -> Stop
    requires { (at.byte + n ≤ length form.bodies.now) × (to + n ≤ length out.old) }
    ensures { Put out.old to (bytes_at form.entry.bodies.now at.byte n) (upto at.word (at.byte + n)) result out.new }
{
    let byte = at.byte + n;
    copy_into(out, to, &form.bodies[at.byte..byte]);
    Stop {
        end: Place { byte, ..at },
        to: to + n,
    }
}

// The byte with the mark: a byte of its own where the bits before it fill theirs.
fn mark_byte(bodies: &[u8], place: usize, bits: usize) -> u8
    requires { (bits < 8) × ((bits ≡ 0 → ⊥) → (place < length bodies.now) × (get_or bodies.now place 0 < 2 ^ bits)) }
    ensures { result ≡ pick (eqb bits 0) 1 (get_or bodies.now place 0 + 2 ^ bits) }
{
    if bits == 0 {
        1
    } else {
        bodies[place] | 1u8 << bits
    }
}

// Stores a bit list of k bits: its raw bytes with the mark.
fn put_list(out: &mut [u8], to: usize, form: Form, at: Place, k: usize) -> Stop
    requires { (at.byte + raw_bytes_lem k ≤ length form.bodies.now) × (get_or form.bodies.now (at.byte + raw_bytes_lem k - 1) 0 < 2 ^ last_bits k) × (to + (k / 8 + 1) ≤ length out.old) }
    ensures { Put out.old to (with_mark form.entry.bodies.now at.byte k) (upto at.word (at.byte + raw_bytes_lem k)) result out.new }
{
    let full = at.byte + k / 8;
    copy_into(out, to, &form.bodies[at.byte..full]);
    let last = to + k / 8;
    out[last] = mark_byte(form.bodies, full, k % 8);
    let end = Place {
        byte: at.byte + raw_bytes(k),
        ..at
    };
    Stop { end, to: last + 1 }
}

// Stores an item of variable size of a type that has no lower types: free bytes or a bit list.
fn put_leaf(out: &mut [u8], to: usize, n: Node, form: Form, at: Place) -> Stop
    requires { (head (leaf_of 0 n) ≡ Variable) × IsUpto (walk_item (leaf_of 0 n) form.contents.now form.bodies.now at.word at.byte) × Room out.old to (write_item_lem (leaf_of 0 n) form.contents.now form.bodies.now at.word at.byte) }
    ensures { Put out.old to (write_item_lem (leaf_of 0 n) form.entry.contents.now form.entry.bodies.now at.word at.byte) (walk_item (leaf_of 0 n) form.entry.contents.now form.entry.bodies.now at.word at.byte) result out.new }
{
    let k = form.contents[at.word] as usize;
    let body = at.next_word();
    match n.kind {
        Kind::FreeBytes => put_part(out, to, form, body, k),
        _ => put_list(out, to, form, body, k),
    }
}

// Stores the selector of a union.
fn put_selector(out: &mut [u8], to: usize, form: Form, at: Place) -> Stop
    requires { (at.word < length form.contents.now) × (get_or form.contents.now at.word 0 < 256) × (to < length out.old) }
    ensures { Put out.old to (get_or form.entry.contents.now at.word 0 ∷ []) (upto (at.word + 1) at.byte) result out.new }
{
    out[to] = form.contents[at.word] as u8;
    Stop {
        end: at.next_word(),
        to: to + 1,
    }
}

// How much of a fixed portion a type with this length takes.
// kept: layout says the same. It is one expression, and a call into another crate would be no plainer.
#[tactic(auto, unfolding(standard::specs::Types::width))]
fn width_of(len: usize) -> usize
    ensures { result ≡ width (head_of len) }
{
    if len == 0 { 4 } else { len }
}

// The fixed portion of the fields or elements. Elements have an offset each: there may be very many, so they are not added up one by one.
fn portion_of(table: Table, row: Members) -> usize
    requires { InRow table.layout.now table.types row × (portion (heads_in table.layout.now row) < 2 ^ 64) × (row.step ≡ 0 → portion (heads_in table.layout.now row) ≡ 4 * row.many) }
    ensures { result ≡ portion (heads_in table.entry.layout.now row) }
{
    if row.step == 0 {
        return 4 * row.many;
    }
    let mut a = row.first;
    let mut sum = 0;
    for _ in 0..row.many {
        let f = table.word(a);
        sum += width_of(table.lens[f] as usize);
        a += row.step;
    }
    sum
}

// How many bytes the elements are, if each is of fixed size: those are copied at once. 0 stands for other elements, and for fields.
fn copied_bytes(table: Table, row: Members) -> usize
    requires { InRow table.layout.now table.types row × (row.many < 2 ^ 32) }
    ensures { Together (types_in table.entry.layout.now row) row.step row.many result }
{
    if row.step > 0 || row.many == 0 {
        return 0;
    }
    let f = table.word(row.first);
    row.many * (table.lens[f] as usize)
}

// Stores the item of the type t from `to` on, whose form starts at the place `at`.
#[cycle(write_fields_write_item)]
pub(crate) fn write_item(
    out: &mut [u8],
    to: usize,
    table: Table,
    t: usize,
    form: Form,
    at: Place,
) -> Stop
    requires { (t < table.types) × IsUpto (walk_item (tree_of table.layout.now t) form.contents.now form.bodies.now at.word at.byte) × Room out.old to (write_item_lem (tree_of table.layout.now t) form.contents.now form.bodies.now at.word at.byte) }
    ensures { Put out.old to (write_item_lem (tree_of table.entry.layout.now t) form.entry.contents.now form.entry.bodies.now at.word at.byte) (walk_item (tree_of table.entry.layout.now t) form.entry.contents.now form.entry.bodies.now at.word at.byte) result out.new }
{
    let own = table.lens[t] as usize;
    if own > 0 {
        return put_part(out, to, form, at, own);
    }
    let n = table.look(t);
    if n.kind.is_leaf() {
        return put_leaf(out, to, n, form, at);
    }
    let Ok(made) = lay(table, t, n, form, at.word) else {
        unreachable!()
    };
    match made {
        Laid::Row { members, word } => {
            let first = Place { word, ..at };
            let all = copied_bytes(table, members);
            if all > 0 {
                return put_part(out, to, form, first, all);
            }
            write_fields(out, to, table, members, form, first)
        }
        Laid::Bare => put_selector(out, to, form, at),
        Laid::Body(o) => {
            let s = put_selector(out, to, form, at);
            write_item(out, s.to, table, o, form, s.end)
        }
    }
}

// Stores the fields or elements from `start` on, whose forms start at the place `from`: each head in the fixed portion, each body of variable
// size behind it. A field of fixed size is copied without a look at its type, and a leaf has no lower types: only what has lower
// types is stored as an item.
#[cycle(write_fields_write_item)]
fn write_fields(
    out: &mut [u8],
    start: usize,
    table: Table,
    row: Members,
    form: Form,
    from: Place,
) -> Stop
    requires { Fields table.layout.now table.types row form.contents.now form.bodies.now from.word from.byte out.old start }
    ensures { Put out.old start (join (parts_from (types_in table.entry.layout.now row) form.entry.contents.now form.entry.bodies.now from.word from.byte)) (walk_fields (types_in table.entry.layout.now row) form.entry.contents.now form.entry.bodies.now from.word from.byte) result out.new }
{
    let own = portion_of(table, row);
    let mut p = start;
    let mut q = start + own;
    let mut a = row.first;
    let mut at = from;
    for _ in 0..row.many {
        let f = table.word(a);
        let k = table.lens[f] as usize;
        a += row.step;
        if k > 0 {
            let s = put_part(out, p, form, at, k);
            p = s.to;
            at = s.end;
            continue;
        }
        put_offset(out, p, q - start);
        p += 4;
        let n = table.look(f);
        let s = if n.kind.is_leaf() {
            put_leaf(out, q, n, form, at)
        } else {
            write_item(out, q, table, f, form, at)
        };
        q = s.to;
        at = s.end;
    }
    Stop { end: at, to: q }
}
