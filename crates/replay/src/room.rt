// Room for what a call is lent.

// No record is longer than the room for a buffer, and none has more words than there is room for.
#[derive(Drop)]
pub(crate) struct Room {
    pub(crate) first: [u8; 262144],
    pub(crate) second: [u8; 262144],
    pub(crate) words: [u32; 65536],
}

// Puts a buffer's contents into the front of the room for it, and lends that.
pub(crate) fn lend<'a>(room: &'a mut [u8], contents: &[u8]) -> &'a mut [u8] {
    let n = contents.len().min(room.len());
    let lent = &mut room[..n];
    lent.copy_from_slice(&contents[..n]);
    lent
}

// The same of a row of words, where they are whole.
pub(crate) fn lend_words<'a>(room: &'a mut [u32], row: &[u8]) -> Option<&'a mut [u32]> {
    let (words, rest) = row.as_chunks::<4>();
    if !rest.is_empty() {
        return None;
    }
    let n = words.len().min(room.len());
    let lent = &mut room[..n];
    for (slot, word) in lent.iter_mut().zip(words) {
        *slot = u32::from_le_bytes(*word);
    }
    Some(lent)
}

// Whether the row has just these words.
pub(crate) fn has_words(row: &[u8], words: &[u32]) -> bool {
    let (expected, rest) = row.as_chunks::<4>();
    rest.is_empty()
        && expected.len() == words.len()
        && expected
            .iter()
            .zip(words)
            .all(|(bytes, word)| u32::from_le_bytes(*bytes) == *word)
}
