// The form of a value, as it is lent: its contents words, and the bytes of its bodies.
ghost use Rattle.std.specs.Prelude.{◌≡◌, ◌+◌, ◌<◌, ◌^◌, length, leb};
ghost use Rattle.standard.specs.declared.Refusal.TheVariants.{BadValue};
ghost use Rattle.value.specs.Steps.{counted};

use standard::Refusal;

#[derive(Clone, Copy)]
pub(crate) struct Form<'a> {
    pub contents: &'a [u32],
    pub bodies: &'a [u8],
}

// A place in a form: the next contents word, and the next body byte.
#[derive(Clone, Copy)]
pub(crate) struct Place {
    pub word: usize,
    pub byte: usize,
}

impl Place {
    // The place behind the next contents word.
    pub(crate) fn next_word(self) -> Place
        requires { self.word + 1 < 2 ^ 64 }
        ensures { result ≡ record { word = self.word + 1; byte = self.byte } }
    {
        Place {
            word: self.word + 1,
            ..self
        }
    }
}

impl<'a> Form<'a> {
    // The contents word at i, a number of at most limit.
    pub(crate) fn count_at(self, i: usize, limit: usize) -> Result<usize, Refusal>
        ensures { result ≡ counted self.entry.contents.now i limit }
    {
        match self.contents.get(i) {
            Some(n) if *n as usize <= limit => Ok(*n as usize),
            Some(_) => Err(Refusal::BadValue(0, i)),
            None => Err(Refusal::BadValue(0, self.contents.len())),
        }
    }

    // Whether the bodies have n bytes from j on.
    // kept: a test. As a Result of the place behind them it was measured: 4 % more instructions for bit lists.
    pub(crate) fn has(self, j: usize, n: usize) -> bool
        ensures { result ≡ leb (j + n) (length self.entry.bodies.now) }
    {
        let len = self.bodies.len();
        j <= len && n <= len - j
    }

    // What says that the bodies end too soon.
    pub(crate) fn short(self) -> Refusal
        ensures { result ≡ BadValue 1 (length self.entry.bodies.now) }
    {
        Refusal::BadValue(1, self.bodies.len())
    }
}
