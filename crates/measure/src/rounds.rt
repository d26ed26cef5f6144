// The rounds, and what one adds to the sum: lengths and counts, and a byte of what was made, another one in each round. A refusal adds
// nothing.
use standard::Refusal;

// The sum over so many rounds.
pub(crate) fn repeat<F: FnMut(usize) -> usize>(rounds: usize, mut once: F) -> usize
    requires { F.IsAlwaysCallable once }
{
    let mut sum = 0usize;
    for round in 1..=rounds {
        sum = sum.wrapping_add(once(round));
    }
    sum
}

// The byte of a buffer that the round looks at.
pub(crate) fn byte_in(b: &[u8], round: usize) -> usize {
    b.get(round % 256).map_or(0, |byte| usize::from(*byte))
}

// What a count or a length adds.
pub(crate) fn count(answer: Result<usize, Refusal>) -> usize {
    answer.unwrap_or(0)
}
