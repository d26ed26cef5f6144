// Reads the file `cases`, asks the library each question in it, compares the whole answer, and prints.
#![tactic(auto)]

mod ask;
mod bits;
mod builder;
mod case;
mod encoder;
mod messages;
mod offsets;
mod room;
mod run;
mod walked;

use room::Room;
use run::{Stop, Tally};
use std::rt::Files;
use std::{fs, io};

// A file that is missing has no cases; one that can't be opened is a bad one from its first record on.
fn asked(rt: &(impl Files + Print)) -> Result<Tally, Stop> {
    let mut file = match fs::open(rt, "cases") {
        Ok(file) => file,
        Err(e) if e.kind() == io::ErrorKind::NotFound => return Ok(Tally::default()),
        Err(_) => return Err(Stop::Bad(0)),
    };
    let mut bytes = [0u8; 262144];
    let mut room = Room {
        first: [0; 262144],
        second: [0; 262144],
        words: [0; 65536],
    };
    run::run(rt, &mut file, &mut bytes, &mut room)
}

fn main(rt: HostRuntime) -> io::Result<()> {
    match asked(&rt) {
        Ok(tally) => rt.println(tally),
        Err(Stop::Bad(record)) => println!(rt; "bad record {record}"),
        Err(Stop::Unprinted(e)) => Err(e),
    }
}
