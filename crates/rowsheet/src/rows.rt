// The rows of a tune, section by section.
ghost use Rattle.std.specs.Prelude.{◌*◌, ◌≤◌, length};

use crate::room;
use section::open::open;
use section::walk::section;
use sheet::line::line;
use std::io;
use tune::opening::Opening;
use tune::rules::Refusal;
use tune::sizes::Tables;

// The bytes of a record, the rows of a section, whose records stand on the stack, and the sections of a sheet: 10,000 rows.
const RECORD: usize = 536;

const SECTION: u32 = 40;

const SECTIONS: u32 = 250;

// The last line of a file that is not taken: the rule's number, or 0 for a limit of this program's.
pub fn print_refused(rt: &impl Print, refusal: Option<Refusal>) -> io::Result<()> {
    let rule = refusal.map_or(0, |refusal| refusal.number());
    println!(rt; "refused,{rule}")
}

fn print_record(rt: &impl Print, record_bytes: &[u8]) -> io::Result<()> {
    let mut text = room::<64>();
    if let Ok(n) = line(record_bytes, &mut text) {
        rt.write_all(&text[..usize::from(n).min(64)])?;
    }
    Ok(())
}

// The lines of a section's first rows.
fn print_records(rt: &impl Print, records: &[u8], rows: u32) -> io::Result<()>
    requires { rows * 536 ≤ length records.now }
{
    for record_bytes in records.chunks_exact(RECORD).take(rows as usize) {
        print_record(rt, record_bytes)?;
    }
    Ok(())
}

// The last line: how many rows there are, and how long the card is.
fn print_last(rt: &impl Print, ended: bool, rows: u64, length: u64) -> io::Result<()> {
    let word = if ended { "end" } else { "more" };
    println!(rt; "{word},{rows},{length}")
}

// The rows of a tune, up to 10,000, and the last line; or the rule that refuses its tables or opening values. Open stands in
// the function of the loop, so that both have the same stack.
pub fn print_tune(rt: &impl Print, t: Tables, opening: Opening) -> io::Result<()> {
    let mut state = match open(t, opening) {
        Ok(state) => state,
        Err(refusal) => return print_refused(rt, Some(refusal)),
    };
    let mut records = room::<21440>();
    let mut rows: u64 = 0;
    for k in 0..SECTIONS {
        if let Ok(given) = section(t, state, SECTION, &mut records) {
            print_records(rt, &records, given.rows)?;
            rows += u64::from(given.rows);
            state = given.state;
        }
    }
    print_last(rt, state.path.ended, rows, state.path.clock.start)
}
