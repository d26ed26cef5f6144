// The items that an item is made of: what checking, listing and unfolding go through.
ghost use Rattle.std.specs.Prelude.{◌≡◌, ◌+◌, ◌<◌, ◌^◌, length};
ghost use Rattle.layout.specs.declared.Kind.{Kind};
ghost use Rattle.layout.specs.Tree.{node_of, tree_of};
ghost use Rattle.message.specs.Read.{read_item};
ghost use Rattle.message.specs.Steps.{Placed, Next, IsAccepted};
ghost use Rattle.message.specs.Series.{MadeOf};

use crate::elements::many_in;
use crate::table::Table;
use layout::{Kind, Node};

// So many fields or elements: the word first names the type of the first, each next one is named step words behind (1 for fields, 0 for
// elements, which share one). All these types are below `below`.
#[derive(Clone, Copy)]
pub(crate) struct Series {
    pub below: usize,
    pub first: usize,
    pub step: usize,
    pub many: usize,
}

impl Series {
    // No items.
    pub(crate) fn none() -> Series
        ensures { result ≡ record { below = 0; first = 0; step = 0; many = 0 } }
    {
        Series {
            below: 0,
            first: 0,
            step: 0,
            many: 0,
        }
    }

    // The fields of a container of the type t, whose words are n.
    pub(crate) fn fields(t: usize, n: Node) -> Series
        requires { n.at < 2 ^ 32 }
        ensures { result ≡ record { below = t; first = n.at + 2; step = 1; many = n.second } }
    {
        Series {
            below: t,
            first: n.at + 2,
            step: 1,
            many: n.second,
        }
    }

    // So many elements of a list or vector of the type t, whose words are n.
    pub(crate) fn elements(t: usize, n: Node, many: usize) -> Series
        requires { n.at < 2 ^ 32 }
        ensures { result ≡ record { below = t; first = n.at + 1; step = 0; many = many } }
    {
        Series {
            below: t,
            first: n.at + 1,
            step: 0,
            many,
        }
    }

    // Takes the first off, and says its type.
    pub(crate) fn next(&mut self, table: &Table) -> Option<usize>
        requires { Placed table.now self.old }
        ensures { Next table.now.layout.now self.old result self.new }
    {
        if self.many == 0 {
            return None;
        }
        let f = table.word(self.first);
        self.first += self.step;
        self.many -= 1;
        Some(f)
    }
}

// The fields or elements of an accepted item b of the type t, whose words are n. A leaf has none; a union has no series.
pub(crate) fn series_in(table: &Table, n: Node, t: usize, b: &[u8]) -> Series
    requires { (t < table.now.types) × (length b.now < 2 ^ 32) × (n ≡ node_of table.now.layout.now t) × (n.kind ≡ Kind.Union → ⊥) × IsAccepted (read_item (tree_of table.now.layout.now t) b.now 0) }
    ensures { MadeOf table.now.lens.now table.now.layout.now t n b.now result }
{
    if n.kind.is_leaf() {
        return Series::none();
    }
    match n.kind {
        Kind::Container => Series::fields(t, n),
        _ => Series::elements(t, n, many_in(table, n, t, b)),
    }
}
