// The header and the lists behind it: counts, and rules 1 to 5.
ghost use Rattle.std.specs.Prelude.{◌≡◌, ◌≤◌, ◌<◌, length, ◌+◌, ◌*◌};
ghost use Rattle.laws.specs.Refusals.{said};
ghost use Rattle.s3m.specs.Layout.{counts_of, instruments_at, patterns_at, pans_place, pointer_at, lists_end};
ghost use Rattle.s3m.specs.Refusals.{rule2, rule3, rule4, rule5, header_rule, measure_rule};
ghost use Rattle.tune.specs.Rules.{verdict, says};

use tune::numbers::bytes_at;
use tune::opening::levels_broken;
use tune::rules::{Refusal, refuse_if};

#[derive(Clone, Copy)]
pub struct Counts {
    pub orders: u16,
    pub instruments: u16,
    pub patterns: u16,
}

// Where the lists behind the header stand.
impl Counts {
    pub fn instruments_at(self) -> usize
        ensures { result ≡ instruments_at self }
    {
        96 + usize::from(self.orders)
    }

    pub fn patterns_at(self) -> usize
        ensures { result ≡ patterns_at self }
    {
        self.instruments_at() + usize::from(self.instruments) * 2
    }

    pub fn pans_at(self) -> usize
        ensures { result ≡ pans_place self }
    {
        self.patterns_at() + usize::from(self.patterns) * 2
    }
}

// The counts, each of 16 bits. That the header is there stays a fact about the file: the rules and counts are of the file's
// bytes, and with a header of a type of its own each contract would name two places for one.
pub fn counts_of(file: &[u8]) -> Counts
    requires { 96 ≤ length file.now }
    ensures { result ≡ counts_of file.now }
{
    Counts {
        orders: u16::from_le_bytes(bytes_at(file, 32)),
        instruments: u16::from_le_bytes(bytes_at(file, 34)),
        patterns: u16::from_le_bytes(bytes_at(file, 36)),
    }
}

// Pointer k of a list, of 16 bits each.
pub fn pointer_at(file: &[u8], list: usize, k: usize) -> u16
    requires { list + (k + 1) * 2 ≤ length file.now }
    ensures { result ≡ pointer_at file.now list k }
{
    u16::from_le_bytes(bytes_at(file, list + k * 2))
}

fn check_mark(file: &[u8]) -> Result<(), Refusal>
    requires { 96 ≤ length file.now }
    ensures { verdict result ≡ rule2 file.now }
{
    let there = (file[44] == b'S') & (file[45] == b'C') & (file[46] == b'R') & (file[47] == b'M');
    refuse_if(!there, Refusal::NoMark)
}

fn check_counts(c: Counts) -> Result<(), Refusal>
    ensures { verdict result ≡ rule3 c }
{
    let broken = (c.orders == 0) | (255 < c.orders) | (99 < c.instruments) | (100 < c.patterns);
    refuse_if(broken, Refusal::Counts)
}

fn lists_end(file: &[u8], c: Counts) -> usize
    requires { 96 ≤ length file.now }
    ensures { result ≡ lists_end file.now c }
{
    let pans = c.pans_at();
    if file[53] == 252 { pans + 32 } else { pans }
}

fn check_lists(file: &[u8], c: Counts) -> Result<(), Refusal>
    requires { 96 ≤ length file.now }
    ensures { verdict result ≡ rule4 file.now c }
{
    refuse_if(file.len() < lists_end(file, c), Refusal::Lists)
}

fn check_levels(file: &[u8]) -> Result<(), Refusal>
    requires { 96 ≤ length file.now }
    ensures { verdict result ≡ rule5 file.now }
{
    refuse_if(
        levels_broken(file[49], file[50], file[48]),
        Refusal::HeaderLevels,
    )
}

// Rules 2 to 5 of a file that is long enough for its header.
#[tactic(auto, using(tune::proofs::Checks::refused, tune::proofs::Checks::passed), unfolding(crate::specs::Refusals::header_rule))]
fn check_header(file: &[u8]) -> Result<(), Refusal>
    requires { 96 ≤ length file.now }
    ensures { verdict result ≡ header_rule file.now }
{
    let c = counts_of(file);
    check_mark(file)?;
    check_counts(c)?;
    check_lists(file, c)?;
    check_levels(file)
}

// The first of rules 1 to 5 that the file breaks.
#[tactic(auto, unfolding(crate::specs::Refusals::measure_rule, laws::specs::Refusals::or_else))]
pub fn check_file(file: &[u8]) -> Result<(), Refusal>
    ensures { verdict result ≡ measure_rule file.now }
{
    if file.len() < 96 {
        return Err(Refusal::ShortFile);
    }
    check_header(file)
}

// Measure: the numbers of orders, instruments and patterns, or why not.
#[tactic(auto, using(tune::proofs::Checks::kept, crate::proofs::Accepted::accepted))]
pub fn measure(file: &[u8]) -> Result<Counts, Refusal>
    ensures { says result ≡ said (measure_rule file.now) (counts_of file.now) }
{
    check_file(file)?;
    Ok(counts_of(file))
}
