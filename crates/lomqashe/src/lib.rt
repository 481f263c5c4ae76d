// The calls for a program in C or Rust, over numbers and bytes alone: no caller has anything to show. Each answers a
// number: bits 24 to 31 say why the call refuses (0 it does not, 1 to 17 the rule, 255 a length at this border is wrong or
// a command no byte, and then nothing is written), bits 0 to 23 what it gives.
#![tactic(auto)]

pub mod channels;
pub mod numbers;
pub mod opening;
pub mod state;

ghost use Rattle.std.specs.Prelude.{◌≡◌, ◌+◌, ◌*◌, ◌<◌, eqb, length};
ghost use Rattle.laws.specs.Choice.{pick};
ghost use Rattle.s3m.specs.Opening.{opening_of};
ghost use Rattle.s3m.specs.Answers.{orders_after, samples_after, cells_after};
ghost use Rattle.section.specs.Tables.{lent};
ghost use Rattle.tune.specs.Numbers.{flag};
ghost use Rattle.tune.specs.Rules.{number_of, says};
ghost use Rattle.section.specs.Open.{fresh_state, opened};
ghost use Rattle.closed.specs.Answers.{is_closed_says};
ghost use Rattle.closed.specs.Ends.{most_rows, EndsWithin};
ghost use Rattle.sheet.specs.Strikes.{strikes_say, strikes_output};
ghost use Rattle.sheet.specs.Lines.{line_says, line_output};
ghost use Rattle.columns.specs.Answers.{columns_say, store_output, restore_output};
ghost use Rattle.lomqashe.specs.Openings.{opening_at};
ghost use Rattle.lomqashe.specs.States.{state_bytes, state_of};
ghost use Rattle.lomqashe.specs.Answers.{answer_of, count_bytes, measure_refusal, counts_after, read_refusal, opening_by, opening_after, open_refusal, open_closed_refusal, state_opened, closed_in_one, section_by, section_answer, state_after, records_after, in_one, nothing_in_one, head_refusal, registers_after};

use closed::answer::{is_closed, open_closed};
use columns::{restore, store};
use numbers::put_block;
use opening::{OpeningBytes, opening_of, put_opening};
use punch_head::step;
use s3m::header::{Counts, measure};
use s3m::read;
use section::open::open;
use section::state::State;
use section::walk::section;
use sheet::line::line;
use sheet::strikes::strikes;
use state::{StateBytes, put_state, state_of};
use tune::opening::Opening;
use tune::rules::Refusal;
use tune::sizes::Tables;

// The answer where a length at this border is wrong, or a command no byte.
const WRONG: u32 = 0xFF00_0000;

fn refused(refusal: Refusal) -> u32
    ensures { result ≡ answer_of (number_of refusal) 0 }
{
    u32::from(refusal.number()) * 0x100_0000
}

// A call's answer that gives a number.
fn in_one(answer: Result<u8, Refusal>) -> u32
    ensures { result ≡ in_one (says answer) }
{
    match answer {
        Ok(n) => u32::from(n),
        Err(refusal) => refused(refusal),
    }
}

// A call's answer that gives nothing.
fn nothing_in_one(answer: Result<(), Refusal>) -> u32
    ensures { result ≡ nothing_in_one (says answer) }
{
    match answer {
        Ok(()) => 0,
        Err(refusal) => refused(refusal),
    }
}

// 32 bits for each number.
fn put_counts(out: &mut [u8], c: Counts)
    requires { length out.old ≡ 12 }
    ensures { out.new ≡ count_bytes c }
{
    put_block(out, 0, u32::from(c.orders).to_le_bytes());
    put_block(out, 4, u32::from(c.instruments).to_le_bytes());
    put_block(out, 8, u32::from(c.patterns).to_le_bytes());
}

// Measure: the numbers of orders, instruments and patterns in 12 bytes, 32 bits each.
#[unsafe(no_mangle)]
pub extern "C" fn lomqashe_measure(file: &[u8], counts: &mut [u8]) -> u32
    ensures answer { result ≡ answer_of (measure_refusal file.now counts.old) 0 }
    ensures written { counts.new ≡ counts_after file.now (measure_refusal file.now counts.old) counts.old }
{
    if counts.len() != 12 {
        return WRONG;
    }
    match measure(file) {
        Ok(c) => {
            put_counts(counts, c);
            0
        }
        Err(refusal) => refused(refusal),
    }
}

// The answer of Read in one number, and its opening values where it does not refuse.
fn answer_read(answer: Result<Opening, Refusal>, opening: &mut OpeningBytes) -> u32
    ensures answer { result ≡ answer_of (says answer).number 0 }
    ensures written { opening.new ≡ opening_by answer opening.old }
{
    match answer {
        Ok(o) => {
            put_opening(opening, o);
            0
        }
        Err(rule) => refused(rule),
    }
}

// Read: the three tables, and the opening values in 176 bytes.
#[unsafe(no_mangle)]
pub extern "C" fn lomqashe_read(
    file: &[u8],
    rate: u32,
    orders: &mut [u8],
    samples: &mut [u8],
    cells: &mut [u8],
    opening: &mut [u8],
) -> u32
    ensures answer { result ≡ answer_of (read_refusal file.now orders.old samples.old cells.old opening.old) 0 }
    ensures orders { orders.new ≡ orders_after file.now (read_refusal file.now orders.old samples.old cells.old opening.old) orders.old }
    ensures samples { samples.new ≡ samples_after file.now (read_refusal file.now orders.old samples.old cells.old opening.old) samples.old }
    ensures cells { cells.new ≡ cells_after file.now (read_refusal file.now orders.old samples.old cells.old opening.old) cells.old }
    ensures opening { opening.new ≡ opening_after file.now rate (read_refusal file.now orders.old samples.old cells.old opening.old) opening.old }
    ensures kept { read_refusal file.now orders.old samples.old cells.old opening.old ≡ 0 → opening_at opening.new ≡ opening_of file.now rate }
{
    if opening.len() != 176 {
        return WRONG;
    }
    let answer = read(file, rate, orders, samples, cells);
    answer_read(answer, opening.as_mut_array().unwrap())
}

// The answer of Open in one number, and its state where it does not refuse.
fn answer_opened(answer: Result<State, Refusal>, state: &mut StateBytes) -> u32
    ensures answer { result ≡ answer_of (opened answer).refusal 0 }
    ensures written { state.new ≡ pick (eqb (opened answer).refusal 0) (state_bytes (opened answer).state) state.old }
    ensures kept { (opened answer).refusal ≡ 0 → state_of state.new ≡ (opened answer).state }
{
    match answer {
        Ok(s) => {
            put_state(state, s);
            0
        }
        Err(broken) => refused(broken),
    }
}

// Open: the fresh state in 2,624 bytes.
#[unsafe(no_mangle)]
pub extern "C" fn lomqashe_open(
    orders: &[u8],
    cells: &[u8],
    samples: &[u8],
    opening: &[u8],
    state: &mut [u8],
) -> u32
    ensures answer { result ≡ answer_of (open_refusal (lent orders.now cells.now samples.now) opening.now state.old) 0 }
    ensures written { state.new ≡ state_opened opening.now (open_refusal (lent orders.now cells.now samples.now) opening.now state.old) state.old }
    ensures kept { open_refusal (lent orders.now cells.now samples.now) opening.now state.old ≡ 0 → state_of state.new ≡ fresh_state (opening_at opening.now) }
{
    if opening.len() != 176 {
        return WRONG;
    }
    if state.len() != 2624 {
        return WRONG;
    }
    let tables = Tables {
        orders,
        cells,
        samples,
    };
    let o = opening_of(opening.as_array().unwrap());
    answer_opened(open(tables, o), state.as_mut_array().unwrap())
}

// Whether a tune is closed: gives 1 where it is, 0 where it is not.
#[unsafe(no_mangle)]
pub extern "C" fn lomqashe_is_closed(orders: &[u8], cells: &[u8], samples: &[u8]) -> u32
    ensures { result ≡ closed_in_one (is_closed_says (lent orders.now cells.now samples.now)) }
{
    let tables = Tables {
        orders,
        cells,
        samples,
    };
    match is_closed(tables) {
        Ok(closed) => u32::from(closed),
        Err(refusal) => refused(refusal),
    }
}

// Open for closed tunes alone. The state that it writes is one from which the tune ends.
#[unsafe(no_mangle)]
pub extern "C" fn lomqashe_open_closed(
    orders: &[u8],
    cells: &[u8],
    samples: &[u8],
    opening: &[u8],
    state: &mut [u8],
) -> u32
    ensures answer { result ≡ answer_of (open_closed_refusal (lent orders.now cells.now samples.now) opening.now state.old) 0 }
    ensures written { state.new ≡ state_opened opening.now (open_closed_refusal (lent orders.now cells.now samples.now) opening.now state.old) state.old }
    ensures kept { open_closed_refusal (lent orders.now cells.now samples.now) opening.now state.old ≡ 0 → state_of state.new ≡ fresh_state (opening_at opening.now) }
    ensures ends { open_closed_refusal (lent orders.now cells.now samples.now) opening.now state.old ≡ 0
        → let t = lent orders.now cells.now samples.now in EndsWithin (most_rows t) t (state_of state.new) }
{
    if opening.len() != 176 {
        return WRONG;
    }
    if state.len() != 2624 {
        return WRONG;
    }
    let tables = Tables {
        orders,
        cells,
        samples,
    };
    let o = opening_of(opening.as_array().unwrap());
    answer_opened(open_closed(tables, o), state.as_mut_array().unwrap())
}

// What Section gives: the rows in bits 0 to 15, whether the tune has ended in bit 16.
fn rows_and_ended(rows: u32, ended: bool) -> u32
    requires { rows < 65536 }
    ensures { result ≡ rows + flag ended * 65536 }
{
    if ended { rows + 65536 } else { rows }
}

// Section: the state goes on by up to n rows. Gives the rows in bits 0 to 15, whether the tune has ended in bit 16.
#[unsafe(no_mangle)]
pub extern "C" fn lomqashe_section(
    orders: &[u8],
    cells: &[u8],
    samples: &[u8],
    state: &mut [u8],
    n: u32,
    output: &mut [u8],
) -> u32
    ensures answer { result ≡ section_answer (lent orders.now cells.now samples.now) state.old n output.old }
    ensures state { state.new ≡ state_after (lent orders.now cells.now samples.now) state.old n output.old }
    ensures kept { length state.old ≡ 2624 → state_of state.new ≡ (section_by (lent orders.now cells.now samples.now) state.old n output.old).state }
    ensures records { output.new ≡ records_after (lent orders.now cells.now samples.now) state.old n output.old }
{
    if state.len() != 2624 {
        return WRONG;
    }
    let tables = Tables {
        orders,
        cells,
        samples,
    };
    let s = state_of(state.as_array().unwrap());
    match section(tables, s, n, output) {
        Ok(given) => {
            put_state(state.as_mut_array().unwrap(), given.state);
            rows_and_ended(given.rows, given.ended)
        }
        Err(refusal) => refused(refusal),
    }
}

// Strikes: gives the number of struck channels, which are listed from the lowest frequency up.
#[unsafe(no_mangle)]
pub extern "C" fn lomqashe_strikes(row: &[u8], out: &mut [u8]) -> u32
    ensures answer { result ≡ in_one (strikes_say row.now out.old) }
    ensures written { out.new ≡ strikes_output row.now out.old }
{
    in_one(strikes(row, out))
}

// Line: gives the number of bytes written.
#[unsafe(no_mangle)]
pub extern "C" fn lomqashe_line(row: &[u8], out: &mut [u8]) -> u32
    ensures answer { result ≡ in_one (line_says row.now out.old) }
    ensures written { out.new ≡ line_output row.now out.old }
{
    in_one(line(row, out))
}

// The punch head's step: the sixteen registers are read and written.
#[unsafe(no_mangle)]
pub extern "C" fn lomqashe_head_step(registers: &mut [u8], command: u32, row: &[u8]) -> u32
    ensures answer { result ≡ answer_of (head_refusal registers.old command row.now) 0 }
    ensures written { registers.new ≡ registers_after registers.old command row.now }
{
    if 255 < command {
        return WRONG;
    }
    match step(registers, command as u8, row) {
        Ok(_) => 0,
        Err(refusal) => refused(refusal),
    }
}

// Store: m records as 536 columns of m bytes, differences in each.
#[unsafe(no_mangle)]
pub extern "C" fn lomqashe_store(records: &[u8], m: u32, columns: &mut [u8]) -> u32
    ensures answer { result ≡ nothing_in_one (columns_say records.now m columns.old) }
    ensures written { columns.new ≡ store_output records.now m columns.old }
{
    nothing_in_one(store(records, m, columns))
}

// Restore: the m records of such columns.
#[unsafe(no_mangle)]
pub extern "C" fn lomqashe_restore(columns: &[u8], m: u32, records: &mut [u8]) -> u32
    ensures answer { result ≡ nothing_in_one (columns_say columns.now m records.old) }
    ensures written { records.new ≡ restore_output columns.now m records.old }
{
    nothing_in_one(restore(columns, m, records))
}
