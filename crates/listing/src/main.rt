// Reads the file `layout` and a message on standard input, and prints the listing of the message or what is wrong.
#![tactic(auto)]

mod print;

ghost use Rattle.std.specs.Prelude.{◌≤◌, length};

use message::list;
use std::io::Read;
use std::rt::Files;
use std::{fs, io};

// The file and the input have at most so many bytes.
const LONGEST: usize = 65536;
// Room for one byte more, so that it shows what is longer.
const ROOM: usize = 65537;

// Reads until the room is full, the bytes end or a reading fails, and returns how many bytes there are then.
// kept: `measure` has this too, and `read_exact` doesn't say how many; a crate for these lines, with its contract and edits, is no plainer.
fn read_full<R: Read>(reader: &mut R, b: &mut [u8]) -> usize
    ensures { result ≤ length b.new }
{
    let mut done = 0;
    while let Ok(n @ 1..) = reader.read(&mut b[done..]) {
        done += n;
    }
    done
}

// A file that is missing counts as empty, as does one that can't be read.
fn read_layout(rt: &impl Files, b: &mut [u8]) -> usize
    ensures { result ≤ length b.new }
{
    match fs::open(rt, "layout") {
        Ok(mut file) => read_full(&mut file, b),
        Err(_) => 0,
    }
}

// There is room for 4,000 records of 12 bytes.
fn answer(rt: &impl Print, layout: &[u8], message: &[u8]) -> io::Result<()> {
    let mut records = [0u8; 48000];
    match list(layout, message, &mut records) {
        Ok(n) => print::listing(rt, &records[..12 * n]),
        Err(e) => print::refusal(rt, e),
    }
}

// What is too long comes before a layout that is no whole number of words.
fn run(rt: &impl Print, layout: &[u8], message: &[u8]) -> io::Result<()> {
    if layout.len() > LONGEST || message.len() > LONGEST {
        println!(rt; "too long")
    } else if layout.len() % 4 != 0 {
        println!(rt; "cut word")
    } else {
        answer(rt, layout, message)
    }
}

fn main(rt: HostRuntime) -> io::Result<()> {
    let mut layout = [0u8; ROOM];
    let mut message = [0u8; ROOM];
    let l = read_layout(&rt, &mut layout);
    let m = read_full(&mut rt.stdin(), &mut message);
    run(&rt, &layout[..l], &message[..m])
}
