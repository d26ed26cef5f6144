// A table that is known to be legal, with the lengths of its types: all its words are there, so none is compared with a length.
ghost use Rattle.std.specs.Prelude.{◌≡◌, ◌+◌, ◌≤◌, ◌<◌, ◌^◌, get_or};
ghost use Rattle.standard.specs.Bytes.{word_at};
ghost use Rattle.layout.specs.Table.{count};
ghost use Rattle.layout.specs.Tree.{node_of};
ghost use Rattle.layout.specs.Steps.{Known};
ghost use Rattle.message.specs.Held.{known_prop};

use crate::words::four_in;
use layout::{Kind, Node};
use standard::words::word_at;

// The bytes of the table, the fixed length of each of its types, 0 for one of variable size, and how many these are.
// kept: value has such a table too. A shared one would be public, and a public function has no `requires` (a rule of the project).
#[derive(Clone, Copy)]
pub(crate) struct Table<'a> {
    pub lens: &'a [u32; 64],
    pub layout: &'a [u8],
    pub types: usize,
    ghost known: { Known lens.now layout.now types } by { known_prop lens.now layout.now types },
    ghost some: { 1 ≤ types },
}

impl<'a> Table<'a> {
    // The i-th word.
    pub(crate) fn word(&self, i: usize) -> usize
        requires { i < count self.now.layout.now }
        ensures { (result ≡ word_at self.now.layout.now i) × (result < 2 ^ 32) }
    {
        four_in(self.layout, 4 * i)
    }

    // The kind of the type t.
    pub(crate) fn kind(&self, t: usize) -> Kind
        requires { t < self.now.types }
        ensures { result ≡ (node_of self.now.layout.now t).kind }
    {
        let at = self.word(1 + t);
        Kind::of(self.word(at)).unwrap()
    }

    // What the table says of the type t, which has this kind. The word behind the kind may be missing: a boolean has none.
    pub(crate) fn node(&self, t: usize, kind: Kind) -> Node
        requires { (t < self.now.types) × (kind ≡ (node_of self.now.layout.now t).kind) }
        ensures { result ≡ node_of self.now.layout.now t }
    {
        let at = self.word(1 + t);
        let second = word_at(self.layout, at + 1);
        Node { kind, at, second }
    }

    // What the table says of the type t.
    pub(crate) fn look(&self, t: usize) -> Node
        requires { t < self.now.types }
        ensures { result ≡ node_of self.now.layout.now t }
    {
        self.node(t, self.kind(t))
    }

    // The fixed length of the type t.
    pub(crate) fn length(&self, t: usize) -> usize
        requires { t < 64 }
        ensures { (result ≡ get_or self.now.lens.now t 0) × (result < 2 ^ 32) }
    {
        self.lens[t] as usize
    }
}
