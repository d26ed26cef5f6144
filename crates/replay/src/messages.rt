// Operations 70 to 74: the layout check, the message check, the listing, the unfolding and the value writer.
//
// Contents are words in a record and are lent as `u32`.
use crate::case::Case;
use crate::room::{Room, has_words, lend, lend_words};
use cases::is_number;

// 70: layout. Nothing but the head.
#[inline(never)]
pub(crate) fn layout_check(b: &[u8]) -> Option<bool> {
    let case = Case::new(b, 1, 0, 0)?;
    let answer = layout::layout_check(case.part(0));
    Some(case.has(answer, |()| true))
}

// 71: layout, message. Records, contents words, body bytes.
#[inline(never)]
pub(crate) fn check(b: &[u8]) -> Option<bool> {
    let case = Case::new(b, 2, 3, 0)?;
    let answer = message::check(case.part(0), case.part(1));
    Some(case.has_at(answer, |counts| {
        is_number(case.value(0), counts.records)
            && is_number(case.value(1), counts.words)
            && is_number(case.value(2), counts.bytes)
    }))
}

// 72: layout, message, buffer. Records, buffer.
#[inline(never)]
pub(crate) fn listing(b: &[u8], room: &mut Room) -> Option<bool> {
    let case = Case::new(b, 3, 1, 1)?;
    let records = lend(&mut room.first, case.part(2));
    let answer = message::list(case.part(0), case.part(1), records);
    Some(case.has_at(answer, |n| is_number(case.value(0), n)) && *records == *case.buffer(0))
}

// 73: layout, message, contents buffer, bodies buffer. Contents words, body bytes, contents buffer, bodies buffer.
#[inline(never)]
pub(crate) fn unfolding(b: &[u8], room: &mut Room) -> Option<bool> {
    let case = Case::new(b, 4, 2, 2)?;
    let contents = lend_words(&mut room.words, case.part(2))?;
    let bodies = lend(&mut room.first, case.part(3));
    let answer = message::unfold(case.part(0), case.part(1), contents, bodies);
    let is_answer = case.has_at(answer, |sizes| {
        is_number(case.value(0), sizes.words) && is_number(case.value(1), sizes.bytes)
    });
    Some(is_answer && has_words(case.buffer(0), contents) && *bodies == *case.buffer(1))
}

// 74: layout, contents, bodies, buffer. Length, buffer.
#[inline(never)]
pub(crate) fn writing(b: &[u8], room: &mut Room) -> Option<bool> {
    let case = Case::new(b, 4, 1, 1)?;
    let contents = lend_words(&mut room.words, case.part(1))?;
    let out = lend(&mut room.first, case.part(3));
    let answer = value::write(case.part(0), contents, case.part(2), out);
    Some(case.has(answer, |n| is_number(case.value(0), n)) && *out == *case.buffer(0))
}
