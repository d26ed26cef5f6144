// Registration as SszDecoderBuilder does it, in numbers alone: where the next head comes, the first offset and the last.
ghost use Rattle.std.specs.Prelude.{◌≡◌, ◌+◌, ◌≤◌, ◌<◌, ◌^◌, length};
ghost use Rattle.decode.specs.Builder.{fresh, step, register_head_lem, build};

use crate::{BYTES_PER_LENGTH_OFFSET, read_offset, sanitize_offset};
use standard::{Head, Refusal};

// How far registration has come.
#[derive(Clone, Copy, Debug, PartialEq, Eq)]
pub struct Progress {
    pub pos: usize,
    pub first: Option<usize>,
    pub previous: Option<usize>,
}

impl Progress {
    // Nothing is registered yet.
    pub fn new() -> Self
        ensures { result ≡ fresh }
    {
        Progress {
            pos: 0,
            first: None,
            previous: None,
        }
    }
}

// Registers an item that takes n bytes.
#[tactic(auto, unfolding(crate::specs::Builder::step))]
fn register_fixed(x: Progress, n: usize, bytes: &[u8]) -> Result<Progress, Refusal>
    requires { (x.pos ≤ length bytes.now) × (length bytes.now < 2 ^ 32) }
    ensures { result ≡ step (Head.Fixed n) bytes.now x }
{
    if n > 4294967295 {
        return Err(Refusal::OverLimit(n, 4294967295));
    }
    let end = x.pos + n;
    if end > bytes.len() {
        return Err(Refusal::InvalidByteLength(bytes.len(), end));
    }
    Ok(Progress { pos: end, ..x })
}

// Registers an item that an offset stands for. The fixed portion is not known yet.
#[tactic(auto, unfolding(crate::specs::Builder::step, standard::specs::Bytes::num_at))]
fn register_variable(x: Progress, bytes: &[u8]) -> Result<Progress, Refusal>
    requires { (x.pos ≤ length bytes.now) × (length bytes.now < 2 ^ 32) }
    ensures { result ≡ step Head.Variable bytes.now x }
{
    let offset = sanitize_offset(read_offset(&bytes[x.pos..])?, x.previous, bytes.len(), None)?;
    Ok(Progress {
        pos: x.pos + BYTES_PER_LENGTH_OFFSET,
        first: x.first.or(Some(offset)),
        previous: Some(offset),
    })
}

// Registers an item by its head.
pub fn register_head(x: Progress, head: Head, bytes: &[u8]) -> Result<Progress, Refusal>
    ensures { result ≡ register_head_lem head bytes.now x }
{
    if x.pos > bytes.len() {
        return Err(Refusal::BadState);
    }
    if bytes.len() > 4294967295 {
        return Err(Refusal::TooLarge);
    }
    match head {
        Head::Fixed(n) => register_fixed(x, n, bytes),
        Head::Variable => register_variable(x, bytes),
    }
}

// Ends the registration over len bytes.
#[tactic(auto, unfolding(crate::specs::Builder::build))]
pub fn finalize(x: Progress, len: usize) -> Result<(), Refusal>
    ensures { result ≡ build len x }
{
    match x.first {
        Some(first) if first < x.pos => Err(Refusal::OffsetIntoFixedPortion(first)),
        Some(first) if first > x.pos => Err(Refusal::OffsetSkipsVariableBytes(first)),
        None if x.pos != len => Err(Refusal::InvalidByteLength(len, x.pos)),
        _ => Ok(()),
    }
}
