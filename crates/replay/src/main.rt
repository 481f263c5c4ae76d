// Makes each call of the list `calls` anew and compares what the function answers and leaves in the lent bytes with what
// was recorded (oracle/README.md has the layout).
#![tactic(auto)]

mod calls;
mod cases;
mod input;
mod pieces;
mod tally;

use std::fs::File;
use std::io;
use tally::Tally;

fn main(rt: HostRuntime) -> io::Result<()> {
    let mut list = File::open(&rt, "calls")?;
    let mut tally = Tally::new();
    let read = cases::run(&mut list, &mut tally);
    tally.print(&rt)?;
    println!(rt; "misread: {}", u8::from(read.is_err()))
}
