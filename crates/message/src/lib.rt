// The check of a message under a layout table, and the listing of its items.
#![tactic(auto)]

mod elements;
mod fields;
mod items;
mod listing;
mod parts;
mod table;
mod unfolding;
mod words;

ghost use Rattle.std.specs.Prelude.{◌≡◌, ◌-◌, ◌+◌, ◌≤◌, ◌<◌, ◌^◌};
ghost use Rattle.std.specs.declared.result.Result.TheVariants.{Ok};
ghost use Rattle.message.specs.Read.{located};
ghost use Rattle.message.specs.Check.{message_type, under_table_lem, check_message, listed_of, records_of, list_message, listed_records};
ghost use Rattle.message.specs.Unfold.{unfold_words, unfold_bytes, unfolded_of, filled_of, unfold_message, unfolded_words, unfolded_bytes};

use items::item_check;
use layout::table_of;
use listing::list_item;
use standard::Refusal;
use table::Table;
use unfolding::{Place, unfold_item};

// How much there is of an accepted message: records of its listing, contents words and body bytes of its value form.
#[derive(Clone, Copy, Debug, PartialEq, Eq)]
pub struct Counts {
    pub records: usize,
    pub words: usize,
    pub bytes: usize,
}

// How many contents words and body bytes a value form has.
#[derive(Clone, Copy, Debug, PartialEq, Eq)]
pub struct Sizes {
    pub words: usize,
    pub bytes: usize,
}

// What is wrong with a message, with the type and the start of the item it is wrong with.
#[derive(Clone, Copy, Debug, PartialEq, Eq)]
pub struct RefusedAt {
    pub refusal: Refusal,
    pub type_number: usize,
    pub start: usize,
}

// What is wrong with no single item has type 0 and start 0.
impl From<Refusal> for RefusedAt {
    ghost from_gives = { λ r e. e ≡ located r 0 0 };

    fn from(refusal: Refusal) -> RefusedAt {
        RefusedAt {
            refusal,
            type_number: 0,
            start: 0,
        }
    }
}

// The message under a legal table.
fn check_under(table: &Table, message: &[u8]) -> Result<Counts, RefusedAt>
    ensures { result ≡ under_table_lem (Ok table.now.types) table.now.layout.now message.now }
{
    if message.len() > 4294967295 {
        return Err(RefusedAt::from(Refusal::TooLarge));
    }
    item_check(table, table.types - 1, message, 0)
}

// Checks a message: 20 for a bad table, 21 for 2^32 bytes or more, then the rules of reading.
#[tactic(auto, unfolding(crate::specs::Check::check_message))]
pub fn check(layout: &[u8], message: &[u8]) -> Result<Counts, RefusedAt>
    ensures { result ≡ check_message layout.now message.now }
{
    let mut lens = [0u32; 64];
    let types = table_of(&mut lens, layout)?;
    let table = Table {
        lens: &lens,
        layout,
        types,
    };
    check_under(&table, message)
}

// Stores the listing of a message that was checked, where there is room for it.
fn list_under(records: &mut [u8], table: &Table, message: &[u8]) -> Result<usize, RefusedAt>
    ensures value { result ≡ listed_of (under_table_lem (Ok table.now.types) table.now.layout.now message.now) records.old }
    ensures records_after { records.new ≡ records_of (under_table_lem (Ok table.now.types) table.now.layout.now message.now) (message_type table.now.layout.now table.now.types) message.now records.old }
{
    let c = check_under(table, message)?;
    let room = records.len() / 12;
    let need = c.records;
    if need > room {
        return Err(RefusedAt::from(Refusal::NoRoom(need, room)));
    }
    list_item(records, 0, table, table.types - 1, message, 0);
    Ok(need)
}

// Lists the items of a message in records of three words: the check's refusals, then 22 (records needed, room in whole records).
#[tactic(auto, unfolding(crate::specs::Check::list_message, crate::specs::Check::listed_records, crate::specs::Check::check_message))]
pub fn list(layout: &[u8], message: &[u8], records: &mut [u8]) -> Result<usize, RefusedAt>
    ensures value { result ≡ list_message layout.now message.now records.old }
    ensures records_after { records.new ≡ listed_records layout.now message.now records.old }
{
    let mut lens = [0u32; 64];
    let types = table_of(&mut lens, layout)?;
    let table = Table {
        lens: &lens,
        layout,
        types,
    };
    list_under(records, &table, message)
}

// Stores the value form of a message that was checked, where there is room for it.
fn unfold_under(
    contents: &mut [u32],
    bodies: &mut [u8],
    table: &Table,
    message: &[u8],
) -> Result<Sizes, RefusedAt>
    ensures value { result ≡ unfolded_of (under_table_lem (Ok table.now.types) table.now.layout.now message.now) contents.old bodies.old }
    ensures contents_after { contents.new ≡ filled_of (under_table_lem (Ok table.now.types) table.now.layout.now message.now) contents.old bodies.old contents.old (unfold_words (message_type table.now.layout.now table.now.types) message.now) }
    ensures bodies_after { bodies.new ≡ filled_of (under_table_lem (Ok table.now.types) table.now.layout.now message.now) contents.old bodies.old bodies.old (unfold_bytes (message_type table.now.layout.now table.now.types) message.now) }
{
    let c = check_under(table, message)?;
    let words = c.words;
    let bytes = c.bytes;
    if words > contents.len() {
        return Err(RefusedAt::from(Refusal::NoRoom(words, bytes)));
    }
    if bytes > bodies.len() {
        return Err(RefusedAt::from(Refusal::NoRoom(words, bytes)));
    }
    let start = Place { word: 0, byte: 0 };
    unfold_item(contents, bodies, start, table, table.types - 1, message);
    Ok(Sizes { words, bytes })
}

// Unfolds a message into contents words and body bytes: the check's refusals, then 22 (words needed, bytes needed) if either room is short.
#[tactic(auto, unfolding(crate::specs::Unfold::unfold_message, crate::specs::Unfold::unfolded_words, crate::specs::Unfold::unfolded_bytes, crate::specs::Check::check_message))]
pub fn unfold(
    layout: &[u8],
    message: &[u8],
    contents: &mut [u32],
    bodies: &mut [u8],
) -> Result<Sizes, RefusedAt>
    ensures value { result ≡ unfold_message layout.now message.now contents.old bodies.old }
    ensures contents_after { contents.new ≡ unfolded_words layout.now message.now contents.old bodies.old }
    ensures bodies_after { bodies.new ≡ unfolded_bytes layout.now message.now contents.old bodies.old }
{
    let mut lens = [0u32; 64];
    let types = table_of(&mut lens, layout)?;
    let table = Table {
        lens: &lens,
        layout,
        types,
    };
    unfold_under(contents, bodies, &table, message)
}
