// The walk over the file: as many bytes as there is room for, the whole records in them, what is left moved down, and on.
ghost use Rattle.std.specs.Prelude.{◌≤◌, length, IfOk};

use crate::ask::ask;
use crate::room::Room;
use cases::{Verdict, record_end};
use standard::words::word_at;
use std::io::Read;
use std::{fmt, io};

// So many records that differ are named.
const NAMED: usize = 10;

// How many records were asked, and how many of them differ.
#[derive(Clone, Copy, Default)]
pub(crate) struct Tally {
    cases: usize,
    differ: usize,
}

// What ends a run: a bad record, by its number, or a line that could not be printed.
#[derive(Debug, Drop)]
pub(crate) enum Stop {
    Bad(usize),
    Unprinted(io::Error),
}

impl From<io::Error> for Stop {
    fn from(error: io::Error) -> Stop {
        Stop::Unprinted(error)
    }
}

// The last line.
impl fmt::Display for Tally {
    fn fmt<W: fmt::Write>(&self, f: &mut fmt::Formatter<W>) -> fmt::Result {
        let cases = self.cases;
        let differ = self.differ;
        write!(f, "{cases} cases, {differ} differ")
    }
}

impl Tally {
    // Counts a record, and names it where it differs; a malformed one ends the run.
    fn count(&mut self, rt: &impl Print, record: &[u8], verdict: Verdict) -> Result<(), Stop> {
        match verdict {
            Verdict::Same => {}
            Verdict::Differs => {
                if self.differ < NAMED {
                    let case = self.cases;
                    let operation = word_at(record, 0);
                    println!(rt; "differs {case} operation {operation}")?;
                }
                self.differ = self.differ.saturating_add(1);
            }
            Verdict::Malformed => return Err(Stop::Bad(self.cases)),
        }
        self.cases = self.cases.saturating_add(1);
        Ok(())
    }
}

// Asks the whole records one after another, and returns how many bytes are left behind them.
#[tactic(auto, using(cases::proofs::Laws::record_within))]
fn ask_all(rt: &impl Print, b: &[u8], tally: &mut Tally, room: &mut Room) -> Result<usize, Stop>
    ensures { IfOk result (λ left. left ≤ length b.now) }
{
    let mut rest = b;
    while let Some(n) = record_end(rest) {
        let (record, behind) = rest.split_at(n);
        tally.count(rt, record, ask(record, room))?;
        rest = behind;
    }
    Ok(rest.len())
}

// Bytes that are left at the file's end are a record that is cut, and no record is longer than b. A proved loop has to end, and nothing
// says that a file does: so the loop counts its turns, up to a number that no run uses up.
pub(crate) fn run<R: Read>(
    rt: &impl Print,
    file: &mut R,
    b: &mut [u8],
    room: &mut Room,
) -> Result<Tally, Stop> {
    let mut tally = Tally::default();
    let mut left = 0;
    for _ in 0..u64::MAX {
        let read = match file.read(&mut b[left..]) {
            Ok(0) if left == 0 => break,
            Ok(0) | Err(_) => return Err(Stop::Bad(tally.cases)),
            Ok(n) => n,
        };
        let full = left + read;
        left = ask_all(rt, &b[..full], &mut tally, room)?;
        b.copy_within(full - left..full, 0);
    }
    Ok(tally)
}
