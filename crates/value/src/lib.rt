// The value writer: from the form of a value to the message.
#![tactic(auto)]

mod form;
mod laid;
mod measure;
mod store;
mod table;

ghost use Rattle.std.specs.Prelude.{◌≡◌};
ghost use Rattle.value.specs.Write.{written_under, stored_under, write_message, written_bytes};

use form::{Form, Place};
use layout::table_of;
use measure::measure_item;
use standard::Refusal;
use store::write_item;
use table::Table;

// Writes under a legal table.
fn write_under(out: &mut [u8], table: Table, form: Form) -> Result<usize, Refusal>
    ensures value { result ≡ written_under (Ok table.entry.types) table.entry.layout.now form.entry.contents.now form.entry.bodies.now out.old }
    ensures out_after { out.new ≡ stored_under (Ok table.entry.types) table.entry.layout.now form.entry.contents.now form.entry.bodies.now out.old }
{
    let last = table.types - 1;
    let start = Place { word: 0, byte: 0 };
    let m = measure_item(table, last, form, start)?;
    if m.end.word < form.contents.len() {
        return Err(Refusal::BadValue(0, m.end.word));
    }
    if m.end.byte < form.bodies.len() {
        return Err(Refusal::BadValue(1, m.end.byte));
    }
    if m.len > 4294967295 {
        return Err(Refusal::TooLarge);
    }
    let room = out.len();
    if m.len > room {
        return Err(Refusal::NoRoom(m.len, room));
    }
    write_item(out, 0, table, last, form, start);
    Ok(m.len)
}

// Writes the message whose value has this form: 20 for a bad table, 25 for the first fault of the form, 21 for 2^32 bytes or more, then
// 22 (bytes needed, room).
#[tactic(auto, unfolding(crate::specs::Write::write_message, crate::specs::Write::written_bytes))]
pub fn write(
    layout: &[u8],
    contents: &[u32],
    bodies: &[u8],
    out: &mut [u8],
) -> Result<usize, Refusal>
    ensures value { result ≡ write_message layout.now contents.now bodies.now out.old }
    ensures out_after { out.new ≡ written_bytes layout.now contents.now bodies.now out.old }
{
    let mut lens = [0u32; 64];
    let types = table_of(&mut lens, layout)?;
    let table = Table {
        lens: &lens,
        layout,
        types,
    };
    write_under(out, table, Form { contents, bodies })
}
