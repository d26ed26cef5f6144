// The forms behind a reference, asked beside the core: each of them must give the same answer.
use decode::decoder::SszDecoder;

// Whether a reader that begins one item earlier comes to this item by the reader that its first step leaves. Where that step is refused it
// stays there, and hands out nothing.
fn goes_on(ranges: SszDecoder, index: usize, bytes: &[u8], item: &[u8]) -> bool {
    let Some(before) = index.checked_sub(1) else {
        return true;
    };
    let came = reader::item_then(bytes, ranges, before);
    match reader::step_after(ranges, before, bytes.len()) {
        Ok(_) => came == item,
        Err(_) => came.is_empty(),
    }
}

// Whether the reader over the lent bytes hands out this item as well, and moves on by one.
pub(crate) fn hands_out(ranges: SszDecoder, index: usize, bytes: &[u8], item: &[u8]) -> bool {
    match reader::step_after(ranges, index, bytes.len()) {
        Ok(next) => {
            index.checked_add(1) == Some(next)
                && reader::item_after(bytes, ranges, index) == item
                && goes_on(ranges, index, bytes, item)
        }
        Err(_) => false,
    }
}

// Whether it refuses as well, with these numbers, hands out nothing and does not move.
pub(crate) fn refuses(ranges: SszDecoder, index: usize, bytes: &[u8], head: &[u8]) -> bool {
    match reader::step_after(ranges, index, bytes.len()) {
        Ok(_) => false,
        Err(e) => {
            e.state == index
                && cases::refusal_matches(head, e.refusal)
                && reader::item_after(bytes, ranges, index).is_empty()
                && goes_on(ranges, index, bytes, &[])
        }
    }
}
