// The builder and the reader, as SszDecoderBuilder and SszDecoder of decode.rs have them: plain data by value, over lent bytes.
ghost use Rattle.std.specs.Prelude.{◌≡◌, ◌+◌, ◌≤◌, ◌<◌, length, get_or, MatchOption};
ghost use Rattle.std.specs.declared.result.Result.TheVariants.{Ok, Err};
ghost use Rattle.standard.specs.declared.Refusal.TheVariants.{BadState};
ghost use Rattle.standard.specs.Types.{width};
ghost use Rattle.decode.specs.Builder.{fresh};
ghost use Rattle.decode.specs.Held.{new, start_of, end_of, put, zeros, recall, walk, arrived, recalled, Come, allowed, register_item, head_for};
ghost use Rattle.decode.specs.Reader.{close_ends_lem, closable, build_items, item_told_lem, item_of};

use crate::builder::{Progress, finalize, register_head};
use standard::words::four_at;
use standard::{Head, Refusal, Refused};

pub const MAX_ITEMS: usize = 64;
// Stands for the end of a variable item until the container is built. No fixed item can end there.
// kept: a state as given (operation 52 of docs/CASES.md) holds plain numbers, so an open end is one of them and no `None`.
pub const OPEN_END: usize = usize::MAX;

// How many items are registered, where the next one's head is, and where each item starts and ends; unused entries are zero.
// kept: document 01 ("SmallVec of slices becomes start and end numbers in arrays") and operation 52 of docs/CASES.md have two arrays.
#[derive(Clone, Copy, Debug, PartialEq, Eq)]
pub struct SszDecoderBuilder {
    pub count: usize,
    pub pos: usize,
    pub starts: [usize; 64],
    pub ends: [usize; 64],
}

// Where each item lies in the bytes.
#[derive(Clone, Copy, Debug, PartialEq, Eq)]
pub struct SszDecoder {
    pub count: usize,
    pub starts: [usize; 64],
    pub ends: [usize; 64],
}

// Whether all unused entries are zero.
fn are_zero(unused: &[usize]) -> bool
    ensures { result ≡ zeros unused.now }
{
    unused.iter().all(|entry| *entry == 0)
}

// Registers anew an item that the record tells of.
#[tactic(auto, unfolding(crate::specs::Held::recall))]
fn recall_item(x: Progress, start: usize, end: usize, bytes: &[u8]) -> Result<Progress, Refusal>
    ensures { result ≡ recall start end bytes.now x }
{
    if end == OPEN_END && start == four_at(bytes, x.pos) {
        register_head(x, Head::Variable, bytes)
    } else if end != OPEN_END && start == x.pos && start <= end {
        register_head(x, Head::Fixed(end - start), bytes)
    } else {
        Err(Refusal::BadState)
    }
}

// Registers anew all the items that the record tells of.
fn recall_items(starts: &[usize], ends: &[usize], bytes: &[u8]) -> Result<Progress, Refusal>
    requires { length starts.now ≡ length ends.now }
    ensures { result ≡ walk starts.now ends.now (length starts.now) bytes.now fresh }
{
    let mut x = Progress::new();
    for (start, end) in starts.iter().zip(ends) {
        x = recall_item(x, *start, *end, bytes)?;
    }
    Ok(x)
}

fn start_of(head: Head, pos: usize, bytes: &[u8]) -> usize
    ensures { result ≡ start_of head bytes.now pos }
{
    match head {
        Head::Fixed(_) => pos,
        Head::Variable => four_at(bytes, pos),
    }
}

fn end_of(head: Head, next: usize) -> usize
    ensures { result ≡ end_of head next }
{
    match head {
        Head::Fixed(_) => next,
        Head::Variable => OPEN_END,
    }
}

// Each variable item ends where the next one starts, the last one at the end of the bytes.
fn close_ends(starts: [usize; 64], ends: [usize; 64], count: usize, len: usize) -> [usize; 64]
    requires { count ≤ 64 }
    ensures { result ≡ close_ends_lem starts ends count len }
{
    let mut closed = ends;
    let mut next = len;
    for i in (0..count).rev() {
        if ends[i] == OPEN_END {
            closed[i] = next;
            next = starts[i];
        }
    }
    closed
}

impl SszDecoderBuilder {
    pub fn new() -> Self
        ensures { result ≡ new }
    {
        SszDecoderBuilder {
            count: 0,
            pos: 0,
            starts: [0; 64],
            ends: [0; 64],
        }
    }

    // How far the registrations over these bytes have come that reach this state; refused if none do.
    #[tactic(auto, using(crate::proofs::Walk::walk_front), unfolding(crate::specs::Held::recalled))]
    fn recall(self, bytes: &[u8]) -> Result<Progress, Refusal>
        ensures { result ≡ recalled self bytes.now }
    {
        let count = self.count;
        if count > MAX_ITEMS || !are_zero(&self.starts[count..]) || !are_zero(&self.ends[count..]) {
            return Err(Refusal::BadState);
        }
        match recall_items(&self.starts[..count], &self.ends[..count], bytes) {
            Ok(x) if x.pos == self.pos => Ok(x),
            _ => Err(Refusal::BadState),
        }
    }

    // What a refusal gives back: the old state. A call of its own: laid in, the state is copied on the good way too.
    #[inline(never)]
    fn refused(self, refusal: Refusal) -> Refused<Self>
        ensures { result ≡ record { state = self; refusal = refusal } }
    {
        Refused {
            state: self,
            refusal,
        }
    }

    // The state with one item more, behind which the next head is at next.
    fn put(self, head: Head, next: usize, bytes: &[u8]) -> Self
        requires { (self.count < 64) × (next ≡ self.pos + width head) }
        ensures { result ≡ put head bytes.now self }
    {
        let mut state = self;
        state.starts[self.count] = start_of(head, self.pos, bytes);
        state.ends[self.count] = end_of(head, next);
        state.count = self.count + 1;
        state.pos = next;
        state
    }

    // Registers an item in a state that is reached: 21, 26, then the rules of reading.
    #[tactic(auto, using(crate::proofs::Walk::come_step, crate::proofs::Walk::come_next))]
    fn admit(self, x: Progress, head: Head, bytes: &[u8]) -> Result<Self, Refused<Self>>
        requires { Come x self bytes.now }
        ensures { result ≡ allowed x head bytes.now self }
    {
        if bytes.len() > 4294967295 {
            return Err(self.refused(Refusal::TooLarge));
        }
        if self.count >= MAX_ITEMS {
            return Err(self.refused(Refusal::BuilderFull(MAX_ITEMS)));
        }
        let y = register_head(x, head, bytes).map_err(|refusal| self.refused(refusal))?;
        Ok(self.put(head, y.pos, bytes))
    }

    #[tactic(auto, using(crate::proofs::Walk::recalled_come, crate::proofs::Walk::recalled_bad), unfolding(crate::specs::Held::register_item))]
    fn register(self, head: Head, bytes: &[u8]) -> Result<Self, Refused<Self>>
        ensures { result ≡ register_item head bytes.now self }
    {
        let x = self.recall(bytes).map_err(|refusal| self.refused(refusal))?;
        self.admit(x, head, bytes)
    }

    // Registers an item of so many bytes.
    pub fn register_fixed(self, len: usize, bytes: &[u8]) -> Result<Self, Refused<Self>>
        ensures { result ≡ register_item (Head.Fixed len) bytes.now self }
    {
        self.register(Head::Fixed(len), bytes)
    }

    // Registers an item that an offset stands for.
    pub fn register_variable(self, bytes: &[u8]) -> Result<Self, Refused<Self>>
        ensures { result ≡ register_item Head.Variable bytes.now self }
    {
        self.register(Head::Variable, bytes)
    }

    // Registers an item of either kind, as the source's function of this name does.
    // kept: the flag and the length are the source's parameters.
    pub fn register_type_parameterized(
        self,
        is_ssz_fixed_len: bool,
        ssz_fixed_len: usize,
        bytes: &[u8],
    ) -> Result<Self, Refused<Self>>
        ensures { result ≡ register_item (head_for is_ssz_fixed_len ssz_fixed_len) bytes.now self }
    {
        if is_ssz_fixed_len {
            self.register_fixed(ssz_fixed_len, bytes)
        } else {
            self.register_variable(bytes)
        }
    }

    // Builds a state that is reached: 21, then the rules of building.
    fn close(self, x: Progress, bytes: &[u8]) -> Result<SszDecoder, Refusal>
        requires { self.count ≤ 64 }
        ensures { result ≡ closable x bytes.now self }
    {
        let len = bytes.len();
        if len > 4294967295 {
            return Err(Refusal::TooLarge);
        }
        finalize(x, len)?;
        let starts = self.starts;
        let ends = close_ends(starts, self.ends, self.count, len);
        Ok(SszDecoder {
            count: self.count,
            starts,
            ends,
        })
    }

    // The ranges of all items.
    #[tactic(auto, using(crate::proofs::Walk::recalled_bad, crate::proofs::Walk::recalled_few), unfolding(crate::specs::Reader::build_items))]
    pub fn build(self, bytes: &[u8]) -> Result<SszDecoder, Refusal>
        ensures { result ≡ build_items bytes.now self }
    {
        let x = self.recall(bytes)?;
        self.close(x, bytes)
    }
}

impl SszDecoder {
    // The two numbers of an entry. To read them copies both arrays, a kilobyte: as a call by value, and by references, once, and only where
    // there is an entry.
    fn entry(self, index: usize) -> (usize, usize)
        requires { index < 64 }
        ensures { result ≡ (get_or self.starts index 0, get_or self.ends index 0) }
    {
        let starts = &self.starts;
        let ends = &self.ends;
        (starts[index], ends[index])
    }

    // Where the item starts and ends in bytes of this length; nowhere past the last, or where its range is not one of theirs.
    #[tactic(auto, unfolding(crate::specs::Reader::item_told_lem))]
    fn range(self, index: usize, len: usize) -> Option<(usize, usize)>
        ensures { MatchOption result (item_told_lem self index len ≡ Err BadState) (λ r. (item_told_lem self index len ≡ Ok tt) × (r ≡ (get_or self.starts index 0, get_or self.ends index 0))) }
    {
        if index >= self.count || index >= MAX_ITEMS {
            return None;
        }
        let (start, end) = self.entry(index);
        if end < start || end > len {
            return None;
        }
        Some((start, end))
    }

    // Whether bytes of this length have the item: past the last, or where its range is not one of theirs, it is 23.
    pub fn item_told(self, index: usize, len: usize) -> Result<(), Refusal>
        ensures { result ≡ item_told_lem self index len }
    {
        match self.range(index, len) {
            Some(_) => Ok(()),
            None => Err(Refusal::BadState),
        }
    }

    // The item, as a part of the caller's own bytes; the empty part at their start where `item_told` refuses.
    // kept: it cannot fail, and still can't; `item_told` says why there is no item.
    #[tactic(auto, using(crate::proofs::Items::item_fine))]
    pub fn item<'a>(self, index: usize, bytes: &'a [u8]) -> &'a [u8]
        ensures { result.now ≡ item_of self index bytes.now }
    {
        match self.range(index, bytes.len()) {
            Some((start, end)) => &bytes[start..end],
            None => &bytes[..0],
        }
    }
}
