// What an item of a type with lower types is made of: a container, list or vector is a row of fields or elements, a union one option.
ghost use Rattle.std.specs.Prelude.{◌≡◌, ◌+◌, ◌≤◌, ◌<◌, ◌^◌, false};
ghost use Rattle.layout.specs.Tree.{node_of};
ghost use Rattle.layout.specs.Kinds.{is_leaf};
ghost use Rattle.value.specs.Steps.{fields_of, elements_of, choose, laid_of, laid_at, LaidAs};

use crate::form::Form;
use crate::table::Table;
use decode::union_selector::UnionSelector;
use layout::{Kind, NO_BODY, Node};
use standard::Refusal;
use standard::words::word_at;

// Fields of the type `of`, or its elements: the word at `first` names the first, each next one is named `step` words behind. Fields have a
// word each, elements share one.
#[derive(Clone, Copy)]
pub(crate) struct Members {
    pub of: usize,
    pub first: usize,
    pub step: usize,
    pub many: usize,
}

impl Members {
    // The fields of the container t of which the table says n.
    pub(crate) fn fields(t: usize, n: Node) -> Members
        requires { n.at < 2 ^ 32 }
        ensures { result ≡ fields_of t n }
    {
        Members {
            of: t,
            first: n.at + 2,
            step: 1,
            many: n.second,
        }
    }

    // So many elements of the list or vector t of which the table says n.
    pub(crate) fn elements(t: usize, n: Node, many: usize) -> Members
        requires { n.at < 2 ^ 32 }
        ensures { result ≡ elements_of t n many }
    {
        Members {
            of: t,
            first: n.at + 1,
            step: 0,
            many,
        }
    }
}

// A row of fields or elements, whose forms start at the contents word `word`. Or of a union: an option without body, the type of a body.
#[derive(Clone, Copy)]
pub(crate) enum Laid {
    Row { members: Members, word: usize },
    Bare,
    Body(usize),
}

// The option whose word is w.
fn option_at(w: usize) -> Laid
    ensures { result ≡ laid_at w }
{
    if w == NO_BODY {
        Laid::Bare
    } else {
        Laid::Body(w)
    }
}

// The option that the selector names among the n whose words stand from a on. Its contents word is the one at i.
fn option_of(
    layout: &[u8],
    a: usize,
    n: usize,
    selector: UnionSelector,
    i: usize,
) -> Result<Laid, Refusal>
    requires { a < 2 ^ 34 }
    ensures { result ≡ laid_of layout.now a n selector.0 i }
{
    let k = selector.get() as usize;
    if k >= n {
        return Err(Refusal::BadValue(0, i));
    }
    Ok(option_at(word_at(layout, a + k)))
}

// What the contents word at i chooses among the n options that the words from a on name. No table has more than 128 options.
fn select(layout: &[u8], a: usize, n: usize, form: Form, i: usize) -> Result<Laid, Refusal>
    requires { (a < 2 ^ 34) × (n ≤ 128) }
    ensures { result ≡ choose layout.now a n form.entry.contents.now i }
{
    let k = form.count_at(i, 127)?;
    let Ok(selector) = UnionSelector::new(k as u8) else {
        return Err(Refusal::BadValue(0, i));
    };
    option_of(layout, a, n, selector, i)
}

// What the item of the type t is made of, whose words are n: t only says whose. A vector's count is in the table, a list's is the contents
// word before its elements.
pub(crate) fn lay(table: Table, t: usize, n: Node, form: Form, i: usize) -> Result<Laid, Refusal>
    requires { (t < table.types) × (n ≡ node_of table.layout.now t) × (is_leaf n.kind ≡ false) }
    ensures { LaidAs table.entry.layout.now t form.entry.contents.now i result }
{
    let third = n.at + 2;
    match n.kind {
        Kind::Container => Ok(Laid::Row {
            members: Members::fields(t, n),
            word: i,
        }),
        Kind::Union => select(table.layout, third, n.second, form, i),
        Kind::Vector => Ok(Laid::Row {
            members: Members::elements(t, n, table.word(third)),
            word: i,
        }),
        _ => {
            let many = form.count_at(i, table.word(third))?;
            Ok(Laid::Row {
                members: Members::elements(t, n, many),
                word: i + 1,
            })
        }
    }
}
