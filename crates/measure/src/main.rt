// Does one operation of the library so many times and prints the sum of what came out, for a host that takes the time.
//
// The file `plan` in its folder is one record as docs/CASES.md has them, with that page's number of the operation. Its first part is how
// many rounds there are. Bit operations: N, two serializations, and how far to shift; the held fields are read from the serializations.
// Messages: layout and message; what is to be written is unfolded first. No buffer is cleared between rounds.
#![tactic(auto)]

mod bits;
mod messages;
mod rounds;

ghost use Rattle.std.specs.Prelude.{◌≡◌, ◌≤◌, length};

use bitfield::{Fixed, Variable};
use cases::{number, part, record_end};
use standard::words::word_at;
use std::io::Read;
use std::rt::Files;
use std::{fs, io};

// Room for a message of 1 MiB, or for what comes of it.
// kept: in `main` the check would count the array's elements, which are too many for it (tried: its stack of 1 GiB runs out); here the
// length is a law.
fn room() -> [u8; 1310720]
    ensures { 1310720 ≡ length result }
{
    [0; 1310720]
}

// Reads until the room is full, the bytes end or a reading fails, and returns how many bytes there are then.
// kept: `listing` has this too, and `read_exact` doesn't say how many; a crate for these lines, with its contract and edits, is no plainer.
fn read_full<R: Read>(reader: &mut R, b: &mut [u8]) -> usize
    ensures { result ≤ length b.new }
{
    let mut done = 0;
    while let Ok(n @ 1..) = reader.read(&mut b[done..]) {
        done += n;
    }
    done
}

// A file that is missing counts as empty.
fn read_plan(rt: &impl Files, b: &mut [u8]) -> usize
    ensures { result ≤ length b.new }
{
    match fs::open(rt, "plan") {
        Ok(mut file) => read_full(&mut file, b),
        Err(_) => 0,
    }
}

fn run(plan: &[u8], contents: &mut [u32], bodies: &mut [u8], out: &mut [u8]) -> Option<usize> {
    record_end(plan)?;
    let rounds = number(part(plan, 0))?;
    match word_at(plan, 0) {
        op @ ..30 => bits::run::<Variable>(op, plan, out, rounds),
        op @ 30..50 => bits::run::<Fixed>(op - 20, plan, out, rounds),
        op => messages::run(op, plan, contents, bodies, out, rounds),
    }
}

fn main(rt: HostRuntime) -> io::Result<()> {
    let mut plan = room();
    let mut bodies = room();
    let mut out = room();
    let mut contents = [0u32; 65536];
    let n = read_plan(&rt, &mut plan);
    match run(&plan[..n], &mut contents, &mut bodies, &mut out) {
        Some(sum) => println!(rt; "{sum}"),
        None => println!(rt; "bad plan"),
    }
}
