// Reads an S3M file: `header::measure` and `read`.
#![tactic(auto)]

pub mod header;
pub mod instruments;
pub mod opening;
pub mod patterns;

ghost use Rattle.std.specs.Prelude.{◌≡◌, ◌+◌, ◌≤◌, length};
ghost use Rattle.laws.specs.Refusals.{said};
ghost use Rattle.tune.specs.Rules.{verdict, says};
ghost use Rattle.s3m.specs.Layout.{bytes_at};
ghost use Rattle.s3m.specs.Opening.{opening_of};
ghost use Rattle.s3m.specs.Refusals.{rule6, measure_rule, filling_rule, read_rule};
ghost use Rattle.s3m.specs.Answers.{refusal_of, orders_after, samples_after, cells_after};

use header::{Counts, check_file, counts_of};
use instruments::{instruments_past, read_samples};
use opening::opening_of;
use patterns::{patterns_past, read_cells};
use tune::opening::Opening;
use tune::parts::copy_from;
use tune::rules::{Refusal, refuse_if};

// The three lengths stay numbers: Read is lent the tables to write, one by one.
fn check_lengths(c: Counts, orders: usize, samples: usize, cells: usize) -> Result<(), Refusal>
    ensures { verdict result ≡ rule6 c orders samples cells }
{
    let fit = (orders == usize::from(c.orders))
        & (samples == usize::from(c.instruments) * 20)
        & (cells == usize::from(c.patterns) * 10240);
    refuse_if(!fit, Refusal::TableLengths)
}

// Rules 6 to 8 of a file that Measure accepts, for tables of so many bytes.
#[tactic(auto, using(tune::proofs::Checks::refused, tune::proofs::Checks::passed), unfolding(crate::specs::Refusals::filling_rule))]
fn check_filling(file: &[u8], orders: usize, samples: usize, cells: usize) -> Result<(), Refusal>
    requires { measure_rule file.now ≡ 0 }
    ensures { verdict result ≡ filling_rule file.now orders samples cells }
{
    let c = counts_of(file);
    check_lengths(c, orders, samples, cells)?;
    refuse_if(
        instruments_past(file, c.instruments_at(), usize::from(c.instruments)),
        Refusal::InstrumentPast,
    )?;
    refuse_if(
        patterns_past(file, c.patterns_at(), usize::from(c.patterns)),
        Refusal::PatternPast,
    )
}

// The first of rules 1 to 8 that is broken.
#[tactic(auto, using(tune::proofs::Checks::refused, tune::proofs::Checks::passed), unfolding(crate::specs::Refusals::read_rule))]
fn check_read(file: &[u8], orders: usize, samples: usize, cells: usize) -> Result<(), Refusal>
    ensures { verdict result ≡ read_rule file.now orders samples cells }
{
    check_file(file)?;
    check_filling(file, orders, samples, cells)
}

fn read_orders(file: &[u8], n: usize, orders: &mut [u8])
    requires { (96 + n ≤ length file.now) × (length orders.old ≡ n) }
    ensures { orders.new ≡ bytes_at file.now 96 n }
{
    copy_from(orders, file, 96);
}

// Read: fills the three tables and gives the opening values with the rate that it is handed, or says why not and leaves
// the tables as they are.
pub fn read(
    file: &[u8],
    rate: u32,
    orders: &mut [u8],
    samples: &mut [u8],
    cells: &mut [u8],
) -> Result<Opening, Refusal>
    ensures says { says result ≡ said (refusal_of file.now orders.old samples.old cells.old) (opening_of file.now rate) }
    ensures orders_after { orders.new ≡ orders_after file.now (refusal_of file.now orders.old samples.old cells.old) orders.old }
    ensures samples_after { samples.new ≡ samples_after file.now (refusal_of file.now orders.old samples.old cells.old) samples.old }
    ensures cells_after { cells.new ≡ cells_after file.now (refusal_of file.now orders.old samples.old cells.old) cells.old }
{
    check_read(file, orders.len(), samples.len(), cells.len())?;
    let c = counts_of(file);
    read_orders(file, usize::from(c.orders), orders);
    read_samples(
        file,
        c.instruments_at(),
        usize::from(c.instruments),
        samples,
    );
    read_cells(file, c.patterns_at(), usize::from(c.patterns), cells);
    Ok(opening_of(file, rate))
}
