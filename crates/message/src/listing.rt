// The listing of an accepted message: three words an item, in preorder.
ghost use Rattle.std.specs.Prelude.{◌≡◌, ◌+◌, ◌≤◌, ◌<◌, ◌^◌, length};
ghost use Rattle.std.proofs.lemmas.List.Edits.{sets};
ghost use Rattle.standard.specs.Bytes.{le, Stored, Room};
ghost use Rattle.standard.specs.Types.{heads};
ghost use Rattle.standard.specs.Parts.{InRange};
ghost use Rattle.layout.specs.Tree.{tree_of};
ghost use Rattle.message.specs.Read.{read_item, read_fields};
ghost use Rattle.message.specs.Listing.{entry, list_item_lem, list_fields_lem};
ghost use Rattle.message.specs.Steps.{Placed, types_of, IsAccepted};

use crate::fields::locate;
use crate::items::select;
use crate::parts::{Series, series_in};
use crate::table::Table;
use layout::Kind;

// Stores a word of a record, which has room. `put_four` would compare it with the room.
fn put_word(out: &mut [u8], at: usize, x: usize)
    requires { (at + 4 ≤ length out.old) × (x < 2 ^ 32) }
    ensures { out.new ≡ sets out.old at (le 4 x) }
{
    out[at..at + 4].copy_from_slice(&(x as u32).to_le_bytes());
}

// Stores the record of an item b of type t that starts at start.
fn put_entry(out: &mut [u8], at: usize, t: usize, b: &[u8], start: usize)
    requires { (at + 12 ≤ length out.old) × (t < 64) × (start + length b.now < 2 ^ 32) }
    ensures { Stored out.old at (entry t b.now start) (at + 12) out.new }
{
    put_word(out, at, t);
    put_word(out, at + 4, start);
    let end = start + b.len();
    put_word(out, at + 8, end);
}

// Stores the listing of the item b from at on, and returns where it ends.
#[cycle(list_fields_list_item)]
pub(crate) fn list_item(
    out: &mut [u8],
    at: usize,
    table: &Table,
    t: usize,
    b: &[u8],
    start: usize,
) -> usize
    requires { (t < table.now.types) × (start + length b.now < 2 ^ 32) × IsAccepted (read_item (tree_of table.now.layout.now t) b.now start) × Room out.old at (list_item_lem (tree_of table.now.layout.now t) b.now start) }
    ensures { Stored out.old at (list_item_lem (tree_of table.now.layout.now t) b.now start) result out.new }
{
    put_entry(out, at, t, b, start);
    let next = at + 12;
    let n = table.look(t);
    match n.kind {
        Kind::Union => match select(table, n, b) {
            Ok(Some(o)) => list_item(out, next, table, o, &b[1..], start + 1),
            Ok(None) => next,
            Err(_) => next,
        },
        _ => {
            let row = series_in(table, n, t, b);
            list_fields(out, next, table, row, b, start)
        }
    }
}

// Stores the listing of the fields or elements of the item b from at0 on, and returns where it ends. A leaf has no lower types: its
// record is its listing.
#[cycle(list_fields_list_item)]
fn list_fields(
    out: &mut [u8],
    at0: usize,
    table: &Table,
    row: Series,
    b: &[u8],
    start: usize,
) -> usize
    requires { Placed table.now row × (start + length b.now < 2 ^ 32) × InRange (heads (types_of table.now.layout.now row)) b.now 0 0 × IsAccepted (read_fields (types_of table.now.layout.now row) b.now 0 start) × Room out.old at0 (list_fields_lem (types_of table.now.layout.now row) b.now 0 start) × (row.below ≤ table.now.types) }
    ensures { Stored out.old at0 (list_fields_lem (types_of table.now.layout.now row) b.now 0 start) result out.new }
{
    // A copy of the table stays in registers, whatever is stored meanwhile.
    let known = *table;
    let mut at = at0;
    let mut rest = row;
    let mut p = 0;
    while let Some(f) = rest.next(&known) {
        let w = locate(&known, rest, known.length(f), b, p);
        p = w.next;
        let field = &b[w.from..w.to];
        let place = start + w.from;
        if known.kind(f).is_leaf() {
            put_entry(out, at, f, field, place);
            at += 12;
            continue;
        }
        at = list_item(out, at, table, f, field, place);
    }
    at
}
