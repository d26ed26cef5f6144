// Operations 60 and 61: the encoder. Operation 60 begins with a fresh one, so none of its states is a bad one.
ghost use Rattle.std.specs.Prelude.{◌+◌, ◌≤◌, length, IfSome};

use crate::case::Case;
use crate::room::{Room, lend};
use cases::{is_number, number_at, part_end};
use encode::encoder::SszEncoder;
use standard::Refusal;
use standard::words::four_at;

// An encoder's state is its fixed size, and how much of each buffer is used.
const ENCODER: usize = 24;

// An item of a row: a word for its kind, then a part. Behind it are the other items.
#[derive(Clone, Copy)]
struct Item<'a> {
    is_fixed: bool,
    body: &'a [u8],
    rest: &'a [u8],
}

// The first item of the row.
#[tactic(auto, using(cases::proofs::Laws::end_within))]
fn first_item(items: &[u8]) -> Option<Item<'_>>
    ensures { IfSome result (λ x. length x.rest.now + 8 ≤ length items.now) }
{
    let kind = four_at(items, 0);
    if kind > 1 {
        return None;
    }
    let end = part_end(items, 4)?;
    Some(Item {
        is_fixed: kind == 0,
        body: &items[8..end],
        rest: &items[end..],
    })
}

// How many items were accepted, and the whole length or a refusal.
#[derive(Clone, Copy)]
struct Encoded {
    accepted: usize,
    ended: Result<usize, Refusal>,
}

// The items in order up to the first refusal, then the end.
fn append_all(size: usize, items: &[u8], fixed: &mut [u8], variable: &mut [u8]) -> Option<Encoded> {
    let mut state = SszEncoder::container(size);
    let mut accepted = 0;
    let mut rest = items;
    while !rest.is_empty() {
        let item = first_item(rest)?;
        match state.append_parameterized(item.is_fixed, item.body, fixed, variable) {
            Ok(next) => state = next,
            Err(e) => {
                return Some(Encoded {
                    accepted,
                    ended: Err(e),
                });
            }
        }
        accepted += 1;
        rest = item.rest;
    }
    Some(Encoded {
        accepted,
        ended: state.finalize(fixed, variable),
    })
}

// 60: fixed size, items, fixed buffer, variable buffer. How many items were accepted, whole length, fixed buffer, variable
// buffer. The number accepted stands beside a refusal too.
#[inline(never)]
pub(crate) fn encode(b: &[u8], room: &mut Room) -> Option<bool> {
    let case = Case::new(b, 4, 2, 2)?;
    let fixed = lend(&mut room.first, case.part(2));
    let variable = lend(&mut room.second, case.part(3));
    let encoded = append_all(case.number(0)?, case.part(1), fixed, variable)?;
    let is_end = match encoded.ended {
        Ok(n) => case.is_fine() && is_number(case.value(1), n),
        Err(e) => case.is_refusal(e, 1),
    };
    Some(
        is_end
            && is_number(case.value(0), encoded.accepted)
            && *fixed == *case.buffer(0)
            && *variable == *case.buffer(1),
    )
}

fn encoder_of(row: &[u8]) -> Option<SszEncoder> {
    if row.len() != ENCODER {
        return None;
    }
    Some(SszEncoder {
        offset: number_at(row, 0),
        fixed_used: number_at(row, 1),
        variable_used: number_at(row, 2),
    })
}

// The row's only item.
fn only_item(items: &[u8]) -> Option<Item<'_>> {
    first_item(items).filter(|item| item.rest.is_empty())
}

// 61: state, item or nothing for the end, fixed buffer, variable buffer. State, whole length, fixed buffer, variable buffer.
#[inline(never)]
pub(crate) fn encoder(b: &[u8], room: &mut Room) -> Option<bool> {
    let case = Case::new(b, 4, 2, 2)?;
    let state = encoder_of(case.part(0))?;
    let fixed = lend(&mut room.first, case.part(2));
    let variable = lend(&mut room.second, case.part(3));
    let is_answer = if case.part(1).is_empty() {
        match state.finalize(fixed, variable) {
            Ok(n) => case.is_fine() && case.value(0).is_empty() && is_number(case.value(1), n),
            Err(e) => case.is_refusal(e, 0),
        }
    } else {
        let item = only_item(case.part(1))?;
        match state.append_parameterized(item.is_fixed, item.body, fixed, variable) {
            Ok(next) => {
                case.is_fine()
                    && encoder_of(case.value(0)) == Some(next)
                    && case.value(1).is_empty()
            }
            Err(e) => case.is_refusal(e, 0),
        }
    };
    Some(is_answer && *fixed == *case.buffer(0) && *variable == *case.buffer(1))
}
