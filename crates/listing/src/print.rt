// The lines that are printed. Those of a listing are made in a buffer that is written each time it has no room for another line, so that
// each write ends with a line.
use arrayvec::ArrayString;
use message::RefusedAt;
use standard::Numbers;
use standard::words::word_at;
use std::fmt::Write;
use std::{fmt, io};

// Three numbers, each with the byte behind it, take at most so many bytes.
const LINE: usize = 63;
// Room for many lines.
const ROOM: usize = 4096;

// A record of three words, as a line with type, start and end.
#[derive(Clone, Copy)]
struct Record<'a>(&'a [u8]);

impl fmt::Display for Record<'_> {
    fn fmt<W: fmt::Write>(&self, f: &mut fmt::Formatter<W>) -> fmt::Result {
        let kind = word_at(self.0, 0);
        let start = word_at(self.0, 1);
        let end = word_at(self.0, 2);
        writeln!(f, "{kind} {start} {end}")
    }
}

// A line for each record.
pub(crate) fn listing(rt: &impl Print, records: &[u8]) -> io::Result<()> {
    let mut text = ArrayString::<ROOM>::new();
    for record in records.chunks_exact(12) {
        if text.len() > ROOM - LINE {
            rt.write_all(text.as_bytes())?;
            text.clear();
        }
        let line = Record(record);
        write!(text, "{line}").map_err(|_| io::Error::other("a line takes more than its room"))?;
    }
    rt.write_all(text.as_bytes())
}

// The line of a refusal: number, a, b, and the type and the start of its item.
pub(crate) fn refusal(rt: &impl Print, e: RefusedAt) -> io::Result<()> {
    let Numbers { number, a, b } = e.refusal.numbers();
    let kind = e.type_number;
    let start = e.start;
    println!(rt; "refused {number} {a} {b} {kind} {start}")
}
