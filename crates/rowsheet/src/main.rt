// Prints the row sheet of the S3M file on standard input. Its last line says `end`, `more` or `refused`, each with exit
// status 0; the status is 1 where something could not be read or written.
#![tactic(auto)]

mod rows;

ghost use Rattle.std.specs.Prelude.{◌≡◌, ◌*◌, ◌≤◌, length, IfOk};

use rows::{print_refused, print_tune};
use s3m::header::{Counts, measure};
use s3m::read;
use std::io;
use std::io::Read;
use tune::sizes::Tables;

// The card rate, in micrometres a second.
const RATE: u32 = 60000;

// More patterns are refused with 0: their cells would not fit on the stack.
const PATTERNS: u16 = 6;

// Room for what is read. The contract gives the length alone: the zeros would stand in each goal.
fn room<const N: usize>() -> [u8; N]
    ensures { length result ≡ N }
{
    [0; N]
}

// Reads until the bytes are full or the input ends. The answer is how many bytes are read. (The library's `read_to_end`
// needs a heap, and its `read_exact` does not say how far a shorter input went.)
fn read_full(input: &mut impl Read, bytes: &mut [u8]) -> io::Result<usize>
    ensures { IfOk result (λ n. n ≤ length bytes.new) }
{
    let mut done = 0;
    while done < bytes.len() {
        let n = input.read(&mut bytes[done..])?;
        if n == 0 {
            break;
        }
        done += n;
    }
    Ok(done)
}

// Reads the file into tables of the sizes that it needs, and prints its rows.
fn print_counted(rt: &impl Print, file: &[u8], c: Counts) -> io::Result<()>
    requires { (c.orders ≤ 255) × (c.instruments ≤ 99) × (c.patterns ≤ 6) }
{
    let mut orders = room::<255>();
    let mut samples = room::<1980>();
    let mut cells = room::<61440>();
    let orders = &mut orders[..usize::from(c.orders)];
    let samples = &mut samples[..usize::from(c.instruments) * 20];
    let cells = &mut cells[..usize::from(c.patterns) * 10240];
    match read(file, RATE, orders, samples, cells) {
        Ok(opening) => {
            let tables = Tables {
                orders,
                cells,
                samples,
            };
            print_tune(rt, tables, opening)
        }
        Err(refusal) => print_refused(rt, Some(refusal)),
    }
}

// A file of a size that is taken.
fn print_file(rt: &impl Print, file: &[u8]) -> io::Result<()> {
    match measure(file) {
        Ok(c) if PATTERNS < c.patterns => print_refused(rt, None),
        Ok(c) => print_counted(rt, file, c),
        Err(refusal) => print_refused(rt, Some(refusal)),
    }
}

fn main(rt: HostRuntime) -> io::Result<()> {
    let mut file = room::<65536>();
    let mut further = room::<1>();
    let mut input = rt.reader();
    println!(rt; "order,pattern,row,held,speed,tempo,start,length,strikes")?;
    let n = read_full(&mut input, &mut file)?;
    if read_full(&mut input, &mut further)? != 0 {
        return print_refused(&rt, None);
    }
    print_file(&rt, &file[..n])
}
