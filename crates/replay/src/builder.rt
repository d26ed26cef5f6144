// Operations 50 to 52: the builder and the reader.
use crate::case::Case;
use crate::walked;
use cases::{ANY, is_number, number, number_at};
use decode::decoder::{SszDecoder, SszDecoderBuilder};
use standard::{Refusal, Refused};

// A builder's state is its count, its position, 64 starts and 64 ends.
const BUILDER: usize = 1040;

// What a registration gives: the next state, or the one before.
type Registered = Result<SszDecoderBuilder, Refused<SszDecoderBuilder>>;

// By document 01's one name for either kind. A variable item's length is of no account.
fn by_name(state: SszDecoderBuilder, item: usize, bytes: &[u8]) -> Registered {
    state.register_type_parameterized(item != ANY, item, bytes)
}

// By the function of the kind.
fn by_kind(state: SszDecoderBuilder, item: usize, bytes: &[u8]) -> Registered {
    if item == ANY {
        state.register_variable(bytes)
    } else {
        state.register_fixed(item, bytes)
    }
}

// How many registrations were accepted, and what came of the builder.
#[derive(Clone, Copy)]
struct Ran {
    accepted: usize,
    built: Result<SszDecoder, Refusal>,
}

// The registrations in order up to the first refusal, then the end.
fn register_all<F: Fn(SszDecoderBuilder, usize, &[u8]) -> Registered>(
    bytes: &[u8],
    row: &[u8],
    register: F,
) -> Ran
    requires { F.IsAlwaysCallable register }
{
    let mut state = SszDecoderBuilder::new();
    for (accepted, item) in row.chunks_exact(8).enumerate() {
        match register(state, number_at(item, 0), bytes) {
            Ok(next) => state = next,
            Err(e) => {
                return Ran {
                    accepted,
                    built: Err(e.refusal),
                };
            }
        }
    }
    Ran {
        accepted: row.len() / 8,
        built: state.build(bytes),
    }
}

// Whether the row has just these ranges.
fn is_ranges(row: &[u8], decoder: SszDecoder) -> bool {
    decoder.count <= 64
        && row.len() == 16 * decoder.count
        && row
            .chunks_exact(16)
            .zip(decoder.starts.iter().zip(&decoder.ends))
            .all(|(range, (start, end))| {
                number_at(range, 0) == *start && number_at(range, 1) == *end
            })
}

// Whether this is the expected answer: the number accepted stands beside a refusal too.
fn is_ran(case: Case<'_>, ran: Ran) -> bool {
    let is_end = match ran.built {
        Ok(decoder) => case.is_fine() && is_ranges(case.value(1), decoder),
        Err(e) => case.is_refusal(e, 1),
    };
    is_number(case.value(0), ran.accepted) && is_end
}

// 50: bytes, registrations. How many were accepted, ranges. Both ways to register are asked.
#[inline(never)]
pub(crate) fn build(b: &[u8]) -> Option<bool> {
    let case = Case::new(b, 2, 2, 0)?;
    let bytes = case.part(0);
    let row = case.part(1);
    if row.len() % 8 != 0 {
        return None;
    }
    let named = register_all(bytes, row, by_name);
    let apart = register_all(bytes, row, by_kind);
    Some(is_ran(case, named) && is_ran(case, apart))
}

// The reader with these ranges, at most 64.
fn decoder_of(row: &[u8]) -> Option<SszDecoder> {
    if row.len() % 16 != 0 || row.len() > 1024 {
        return None;
    }
    let mut starts = [0usize; 64];
    let mut ends = [0usize; 64];
    for ((start, end), range) in starts.iter_mut().zip(&mut ends).zip(row.chunks_exact(16)) {
        *start = number_at(range, 0);
        *end = number_at(range, 1);
    }
    Some(SszDecoder {
        count: row.len() / 16,
        starts,
        ends,
    })
}

// 51: bytes, ranges, item number. The item.
#[inline(never)]
pub(crate) fn item(b: &[u8]) -> Option<bool> {
    let case = Case::new(b, 3, 1, 0)?;
    let bytes = case.part(0);
    let decoder = decoder_of(case.part(1))?;
    let index = case.number(2)?;
    let expected = case.value(0);
    Some(match decoder.item_told(index, bytes.len()) {
        Ok(()) => {
            case.is_fine()
                && decoder.item(index, bytes) == expected
                && walked::hands_out(decoder, index, bytes, expected)
        }
        Err(e) => case.is_refusal(e, 0) && walked::refuses(decoder, index, bytes, case.head()),
    })
}

// The row's first 64 numbers.
fn numbers(row: &[u8]) -> [usize; 64] {
    let mut found = [0usize; 64];
    for (slot, bytes) in found.iter_mut().zip(row.chunks_exact(8)) {
        *slot = number_at(bytes, 0);
    }
    found
}

fn builder_of(row: &[u8]) -> Option<SszDecoderBuilder> {
    if row.len() != BUILDER {
        return None;
    }
    Some(SszDecoderBuilder {
        count: number_at(row, 0),
        pos: number_at(row, 1),
        starts: numbers(&row[16..]),
        ends: numbers(&row[528..]),
    })
}

// Whether these are the row's first numbers, as far as it goes.
fn are_numbers(row: &[u8], numbers: &[usize; 64]) -> bool {
    row.chunks_exact(8)
        .zip(numbers)
        .all(|(bytes, number)| number_at(bytes, 0) == *number)
}

// Whether the part is just this state: `builder_of`, without the copies.
fn is_builder(row: &[u8], state: &SszDecoderBuilder) -> bool {
    row.len() == BUILDER
        && number_at(row, 0) == state.count
        && number_at(row, 1) == state.pos
        && are_numbers(&row[16..528], &state.starts)
        && are_numbers(&row[528..], &state.ends)
}

// Whether a registration gives the expected state, beside a refusal the old one.
fn is_registered(case: Case<'_>, answer: Registered) -> bool {
    let is_state = match answer {
        Ok(state) => case.is_fine() && is_builder(case.value(0), &state),
        Err(e) => case.is_refusal(e.refusal, 1) && is_builder(case.value(0), &e.state),
    };
    is_state && case.value(1).is_empty()
}

// 52: bytes, state, registration or nothing for the end. State, ranges. Both ways to register are asked.
#[inline(never)]
pub(crate) fn builder(b: &[u8]) -> Option<bool> {
    let case = Case::new(b, 3, 2, 0)?;
    let bytes = case.part(0);
    let state = builder_of(case.part(1))?;
    if case.part(2).is_empty() {
        let answer = state.build(bytes);
        let is_end = case.has(answer, |decoder| is_ranges(case.value(1), decoder));
        return Some(is_end && case.value(0).is_empty());
    }
    let item = number(case.part(2))?;
    let named = by_name(state, item, bytes);
    let apart = by_kind(state, item, bytes);
    Some(is_registered(case, named) && is_registered(case, apart))
}
