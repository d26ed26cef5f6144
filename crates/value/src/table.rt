// A table that is known to be legal. Its words are there, so none is compared with the table's length.
ghost use Rattle.std.specs.Prelude.{◌≡◌, ◌+◌, ◌≤◌, ◌<◌, ◌^◌};
ghost use Rattle.standard.specs.Bytes.{word_at};
ghost use Rattle.layout.specs.Table.{count};
ghost use Rattle.layout.specs.Tree.{node_of};
ghost use Rattle.layout.specs.Steps.{Known};
ghost use Rattle.message.specs.Held.{known_prop};

use layout::{Kind, Node};
use standard::words::{four_at, word_at};

// kept: message has such a table too. A shared one would be public, and a public function has no `requires` (a rule of the project).
//
// The table, the fixed length of each of its types, where 0 stands for variable size, and how many these are.
#[derive(Clone, Copy)]
pub(crate) struct Table<'a> {
    pub lens: &'a [u32; 64],
    pub layout: &'a [u8],
    pub types: usize,
    ghost known: { Known lens.now layout.now types } by { known_prop lens.now layout.now types },
    ghost some: { 1 ≤ types },
}

impl<'a> Table<'a> {
    // The i-th word.
    #[tactic(auto, unfolding(layout::specs::Table::count))]
    pub(crate) fn word(self, i: usize) -> usize
        requires { i < count self.layout.now }
        ensures { (result ≡ word_at self.entry.layout.now i) × (result < 2 ^ 32) }
    {
        let p = 4 * i;
        four_at(&self.layout[p..p + 4], 0)
    }

    // The kind of the type t.
    pub(crate) fn kind(self, t: usize) -> Kind
        requires { t < self.types }
        ensures { result ≡ (node_of self.entry.layout.now t).kind }
    {
        let at = self.word(1 + t);
        Kind::of(self.word(at)).unwrap()
    }

    // What the table says of the type t. The word behind the kind may be missing: a boolean has none.
    pub(crate) fn look(self, t: usize) -> Node
        requires { t < self.types }
        ensures { result ≡ node_of self.entry.layout.now t }
    {
        let at = self.word(1 + t);
        let kind = self.kind(t);
        let second = word_at(self.layout, at + 1);
        Node { kind, at, second }
    }
}
