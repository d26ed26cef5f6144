// Operations 1 to 4: offsets, lengths and the split of a union.
use crate::case::Case;
use cases::{is_number, number};

// 1: bytes. Offset.
#[inline(never)]
pub(crate) fn read_offset(b: &[u8]) -> Option<bool> {
    let case = Case::new(b, 1, 1, 0)?;
    let answer = decode::read_offset(case.part(0));
    Some(case.has(answer, |n| is_number(case.value(0), n)))
}

// 2: length. Four bytes.
#[inline(never)]
pub(crate) fn encode_length(b: &[u8]) -> Option<bool> {
    let case = Case::new(b, 1, 1, 0)?;
    let answer = encode::encode_length(case.number(0)?);
    Some(case.has(answer, |bytes| bytes.as_slice() == case.value(0)))
}

// A number that a part may leave out by having no bytes.
fn optional(part: &[u8]) -> Option<Option<usize>> {
    if part.is_empty() {
        Some(None)
    } else {
        number(part).map(Some)
    }
}

// 3: offset, previous offset or nothing, number of bytes, number of fixed bytes or nothing. Offset.
#[inline(never)]
pub(crate) fn sanitize_offset(b: &[u8]) -> Option<bool> {
    let case = Case::new(b, 4, 1, 0)?;
    let previous = optional(case.part(1))?;
    let fixed = optional(case.part(3))?;
    let answer = decode::sanitize_offset(case.number(0)?, previous, case.number(2)?, fixed);
    Some(case.has(answer, |n| is_number(case.value(0), n)))
}

// 4: bytes. Selector, body.
#[inline(never)]
pub(crate) fn split_union_bytes(b: &[u8]) -> Option<bool> {
    let case = Case::new(b, 1, 2, 0)?;
    let body = decode::union_body(case.part(0));
    let answer = decode::split_union_bytes(case.part(0));
    Some(case.has(answer, |s| {
        is_number(case.value(0), usize::from(s.get())) && body == case.value(1)
    }))
}
