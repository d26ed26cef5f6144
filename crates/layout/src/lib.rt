// The check of a layout table, lent as its little-endian bytes, with the fixed length of each of its types.
#![tactic(auto)]

ghost use Rattle.std.specs.Prelude.{◌≡◌, ◌≤◌, ◌<◌};
ghost use Rattle.layout.specs.Kinds.{kind_of, is_leaf, is_plain};
ghost use Rattle.layout.specs.Table.{count, types_of, table_of, lengths_of, told_of};
ghost use Rattle.layout.specs.Steps.{Known, Typed, Tabled};

mod types;

use crate::types::{body_end, word_in};
use standard::Refusal;
use standard::words::word_at;

// What stands in an option's place where it has no body.
// kept: a number, since it is a word of the table (document 01: "4294967295 for no body").
pub const NO_BODY: usize = 4294967295;

// What a type is, by its kind word: 0 to 9 in this order.
#[derive(Clone, Copy, Debug, PartialEq, Eq)]
pub enum Kind {
    Number,
    Boolean,
    FixedBytes,
    FreeBytes,
    BitVector,
    BitList,
    Container,
    Union,
    List,
    Vector,
}

impl Kind {
    // The kind that a kind word names.
    #[tactic(auto, unfolding(crate::specs::Kinds::kind_of))]
    pub fn of(word: usize) -> Option<Kind>
        ensures { result ≡ kind_of word }
    {
        match word {
            0 => Some(Kind::Number),
            1 => Some(Kind::Boolean),
            2 => Some(Kind::FixedBytes),
            3 => Some(Kind::FreeBytes),
            4 => Some(Kind::BitVector),
            5 => Some(Kind::BitList),
            6 => Some(Kind::Container),
            7 => Some(Kind::Union),
            8 => Some(Kind::List),
            9 => Some(Kind::Vector),
            _ => None,
        }
    }

    // A leaf names no other type.
    pub fn is_leaf(self) -> bool
        ensures { result ≡ is_leaf self }
    {
        !matches!(
            self,
            Kind::Container | Kind::Union | Kind::List | Kind::Vector
        )
    }

    // A number or fixed bytes: of their items only the length is asked.
    #[tactic(auto, unfolding(crate::specs::Kinds::is_plain))]
    pub fn is_plain(self) -> bool
        ensures { result ≡ is_plain self }
    {
        matches!(self, Kind::Number | Kind::FixedBytes)
    }
}

// What a table says of a type: the kind, where the body starts, and the word behind the kind.
#[derive(Clone, Copy, Debug, PartialEq, Eq)]
pub struct Node {
    pub kind: Kind,
    pub at: usize,
    pub second: usize,
}

// Where the n types end, whose bodies follow the contents; their lengths go to `lens`.
fn types_end(lens: &mut [u32; 64], layout: &[u8], n: usize) -> Result<usize, Refusal>
    requires { Known lens.old layout.now 0 × (n ≤ 64) × (n < count layout.now) }
    ensures { Typed layout.now n result lens.new }
{
    let mut at = n + 1;
    for t in 0..n {
        if word_in(layout, 1 + t) != at {
            return Err(Refusal::BadLayout(1 + t));
        }
        let body = body_end(lens, layout, t, at)?;
        lens[t] = body.len as u32;
        at = body.end;
    }
    Ok(at)
}

// The first tests: whole words, the number of types, and that each has a start word.
#[tactic(auto, unfolding(crate::specs::Table::types_of, crate::specs::Table::count))]
fn types_of(layout: &[u8]) -> Result<usize, Refusal>
    ensures { result ≡ types_of layout.now }
{
    let words = layout.len() / 4;
    if layout.len() % 4 != 0 {
        return Err(Refusal::BadLayout(words));
    }
    let n = word_at(layout, 0);
    if words == 0 || n == 0 || n > 64 {
        return Err(Refusal::BadLayout(0));
    }
    if n >= words {
        return Err(Refusal::BadLayout(words));
    }
    Ok(n)
}

// The whole table, from lengths that are all 0.
#[tactic(auto, unfolding(crate::specs::Table::table_of, crate::specs::Table::count))]
fn table_end(lens: &mut [u32; 64], layout: &[u8]) -> Result<usize, Refusal>
    requires { Known lens.old layout.now 0 }
    ensures { Tabled layout.now result lens.new }
{
    let n = types_of(layout)?;
    let e = types_end(lens, layout, n)?;
    if e == layout.len() / 4 {
        Ok(n)
    } else {
        Err(Refusal::BadLayout(e))
    }
}

// The number of types of a legal table, or the first bad word. `lens` gets the types' lengths, and 0 for all others.
// kept: 0 for a type of variable size, in 64 numbers: the clause `lens_after` promises them (`lengths_of`).
pub fn table_of(lens: &mut [u32; 64], layout: &[u8]) -> Result<usize, Refusal>
    ensures value { result ≡ table_of layout.now }
    ensures lens_after { lens.new ≡ lengths_of (table_of layout.now) layout.now }
{
    *lens = [0; 64];
    // kept: a match: `is_err` on the answer, given back after it, is slower (measured: a table of a byte 88 instructions, so 86)
    match table_end(lens, layout) {
        Ok(n) => Ok(n),
        Err(refusal) => {
            *lens = [0; 64];
            Err(refusal)
        }
    }
}

// The check of a layout table: 20 with the first bad word.
pub fn layout_check(layout: &[u8]) -> Result<(), Refusal>
    ensures { result ≡ told_of (table_of layout.now) }
{
    let mut lens = [0u32; 64];
    table_of(&mut lens, layout)?;
    Ok(())
}
