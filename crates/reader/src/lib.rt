// A reader over the lent bytes, as SszDecoder of decode.rs of ethereum_ssz 0.10.4 is: it holds the bytes, where the items lie in them, and
// the number of the next item. The source's name stands for the ranges themselves here, in crate `decode`. The functions over a reader
// leave the work to `step_after` and `SszDecoder::item`. They are laid into their callers: as calls they copy the ranges, over a kilobyte,
// several times. `unmoved` alone is a call: laid in, each good answer is copied number by number for the sake of the refusal.
#![tactic(auto)]

ghost use Rattle.std.specs.Prelude.{◌≡◌};
ghost use Rattle.decode.specs.Reader.{item_of};
ghost use Rattle.reader.specs.Walked.{step_after_lem, reader_at, Decoded, item_next, reader_after};

use decode::decoder::SszDecoder;
use standard::{Refusal, Refused};

#[derive(Clone, Copy, Debug, PartialEq, Eq)]
pub struct SszReader<'a> {
    pub bytes: &'a [u8],
    pub ranges: SszDecoder,
    pub next: usize,
}

// An item, and the reader that comes after it.
#[derive(Clone, Copy, Debug, PartialEq, Eq)]
pub struct Taken<'a> {
    pub item: &'a [u8],
    pub rest: SszReader<'a>,
}

// The work, on numbers: the number behind a next item that there is, or the same number beside a refusal.
#[tactic(auto, using(decode::proofs::Items::item_fine))]
#[inline(always)]
pub fn step_after(ranges: SszDecoder, next: usize, len: usize) -> Result<usize, Refused<usize>>
    ensures { result ≡ step_after_lem ranges next len }
{
    match ranges.item_told(next, len) {
        Ok(()) => Ok(next + 1),
        Err(refusal) => Err(Refused {
            state: next,
            refusal,
        }),
    }
}

// A reader of a built state, from a number on: 0 reads all.
#[inline(always)]
pub fn new<'a>(bytes: &'a [u8], ranges: SszDecoder, next: usize) -> SszReader<'a>
    ensures { result ≡ reader_at bytes.entry ranges next }
{
    SszReader {
        bytes,
        ranges,
        next,
    }
}

// What a refusal gives back: the reader as it was.
#[inline(never)]
fn unmoved<'a>(r: SszReader<'a>, refusal: Refusal) -> Refused<SszReader<'a>>
    ensures { result ≡ record { state = r.entry; refusal = refusal } }
{
    Refused { state: r, refusal }
}

// The next item and the reader that comes after it; past the last one 23, and the reader as it was.
#[inline(always)]
pub fn decode_next<'a>(r: SszReader<'a>) -> Result<Taken<'a>, Refused<SszReader<'a>>>
    ensures { Decoded r.entry result }
{
    let bytes = r.bytes;
    let ranges = r.ranges;
    match step_after(ranges, r.next, bytes.len()) {
        Ok(next) => Ok(Taken {
            item: ranges.item(r.next, bytes),
            rest: new(bytes, ranges, next),
        }),
        Err(refused) => Err(unmoved(r, refused.refusal)),
    }
}

// The next item; the empty part where there is none.
#[inline(always)]
fn next_item<'a>(r: SszReader<'a>) -> &'a [u8]
    ensures { result.now ≡ item_next r.entry }
{
    match decode_next(r) {
        Ok(taken) => taken.item,
        Err(_) => &r.bytes[..0],
    }
}

// The item behind so many, by a reader; the empty part where there is none. Its parameters are plain.
// kept, and `item_then`: they cannot fail, and still can't; `step_after` says why there is no item.
pub fn item_after<'a>(bytes: &'a [u8], ranges: SszDecoder, skip: usize) -> &'a [u8]
    ensures { result.now ≡ item_of ranges skip bytes.now }
{
    next_item(new(bytes, ranges, skip))
}

// The item behind the one that is behind so many, by a reader that goes on: the second step is one of the reader that the first leaves.
// Where the first is refused, that reader still stands at its item.
pub fn item_then<'a>(bytes: &'a [u8], ranges: SszDecoder, skip: usize) -> &'a [u8]
    ensures { result.now ≡ item_next (reader_after (reader_at bytes.entry ranges skip)) }
{
    match decode_next(new(bytes, ranges, skip)) {
        Ok(taken) => next_item(taken.rest),
        Err(refused) => next_item(refused.state),
    }
}
