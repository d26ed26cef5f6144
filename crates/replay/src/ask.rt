// A record's question put to the library. Each operation is marked as a call of its own: laid into one function, each would pay for the
// room of all, and that of bitfields is cleared.
use crate::bits::Operation;
use crate::room::Room;
use crate::{bits, builder, encoder, messages, offsets};
use bitfield::{BitList, BitVector, Fixed, Variable};
use cases::Verdict;
use standard::words::word_at;

// Whether the answer is the expected one; nothing where the record is malformed.
fn is_expected(b: &[u8], room: &mut Room) -> Option<bool> {
    match word_at(b, 0) {
        1 => offsets::read_offset(b),
        2 => offsets::encode_length(b),
        3 => offsets::sanitize_offset(b),
        4 => offsets::split_union_bytes(b),
        10 => bits::with_capacity(b),
        11 => bits::from_bytes(b, BitList::from_bytes),
        12 => bits::into_bytes(b, room, BitList::into_bytes),
        16 => bits::resize(b),
        17 => bits::clone_zeroed(b),
        30 => bits::new(b),
        31 => bits::from_bytes(b, BitVector::from_bytes),
        32 => bits::into_bytes(b, room, BitVector::into_bytes),
        list @ 13..=25 => bits::alike::<Variable>(b, Operation::of(list)?),
        vector @ 33..=45 => bits::alike::<Fixed>(b, Operation::of(vector - 20)?),
        50 => builder::build(b),
        51 => builder::item(b),
        52 => builder::builder(b),
        60 => encoder::encode(b, room),
        61 => encoder::encoder(b, room),
        70 => messages::layout_check(b),
        71 => messages::check(b),
        72 => messages::listing(b, room),
        73 => messages::unfolding(b, room),
        74 => messages::writing(b, room),
        _ => None,
    }
}

pub(crate) fn ask(b: &[u8], room: &mut Room) -> Verdict {
    is_expected(b, room).map_or(Verdict::Malformed, Verdict::from)
}
