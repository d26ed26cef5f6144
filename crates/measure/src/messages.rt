// Operations 71 to 74: the message check, the listing, the unfolding and the value writer.
use crate::rounds::{byte_in, repeat};
use cases::part;
use message::{check, list, unfold};
use value::write;

pub(crate) fn run(
    op: usize,
    plan: &[u8],
    contents: &mut [u32],
    bodies: &mut [u8],
    out: &mut [u8],
    rounds: usize,
) -> Option<usize> {
    let layout = part(plan, 1);
    let message = part(plan, 2);
    // kept: numbers, as in `bits`
    match op {
        71 => Some(repeat(rounds, |_| match check(layout, message) {
            Ok(c) => c.records.wrapping_add(c.words.wrapping_add(c.bytes)),
            Err(_) => 0,
        })),
        72 => Some(repeat(rounds, |round| match list(layout, message, bodies) {
            Ok(n) => n.wrapping_add(byte_in(bodies, round)),
            Err(_) => 0,
        })),
        73 => Some(repeat(rounds, |round| {
            match unfold(layout, message, contents, bodies) {
                Ok(n) => n
                    .words
                    .wrapping_add(n.bytes)
                    .wrapping_add(byte_in(bodies, round)),
                Err(_) => 0,
            }
        })),
        ..74 => Some(0),
        _ => {
            let form = unfold(layout, message, contents, bodies).ok()?;
            let contents = contents.get(..form.words)?;
            let bodies = bodies.get(..form.bytes)?;
            Some(repeat(rounds, |round| match write(layout, contents, bodies, out) {
                Ok(n) => n.wrapping_add(byte_in(out, round)),
                Err(_) => 0,
            }))
        }
    }
}
