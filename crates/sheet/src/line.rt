// Line: a record's line of the sheet.
ghost use Rattle.std.specs.Prelude.{◌≡◌, ◌+◌, ◌%◌, ◌≤◌, ◌<◌, ◌∷◌, ◌++◌, length, take, drop};
ghost use Rattle.tune.specs.Rules.{says};
ghost use Rattle.sheet.specs.Digits.{digits, mark_at};
ghost use Rattle.sheet.specs.Lines.{decimal, spelled, line_fields, line_says, line_output};

use crate::record::{Record, check_record};
use tune::numbers::{u32_at, u64_at};
use tune::rules::Refusal;

// How many digits a number has.
#[tactic(auto, using(crate::proofs::Digits::width_is))]
fn width(n: u64) -> usize
    ensures { result ≡ length (decimal 20 n) }
{
    n.max(1).ilog10() as usize + 1
}

// The last digit of a number.
fn digit(n: u64) -> u8
    ensures { result ≡ 48 + n % 10 }
{
    b'0' + (n % 10) as u8
}

// Writes the last k digits of a number, the last one first.
fn put_digits(out: &mut [u8], at: usize, n: u64, k: usize)
    requires { at + k ≤ length out.old }
    ensures { out.new ≡ take at out.old ++ (digits k n ++ drop (at + k) out.old) }
{
    let mut rest = n;
    for i in (0..k).rev() {
        out[at + i] = digit(rest);
        rest /= 10;
    }
}

// Writes a number at a place, and gives the next place.
fn put_number(out: &mut [u8], at: usize, n: u64) -> usize
    requires { at + length (decimal 20 n) ≤ length out.old }
    ensures value { result ≡ at + length (decimal 20 n) }
    ensures out_after { out.new ≡ take at out.old ++ (decimal 20 n ++ drop result out.old) }
{
    let k = width(n);
    put_digits(out, at, n, k);
    at + k
}

// The byte behind field i: a comma, or behind the last a line feed.
fn mark_at(i: usize) -> u8
    ensures { result ≡ mark_at i }
{
    if i == 8 { b'\n' } else { b',' }
}

// Writes a number and the byte behind it, and gives the next place.
fn put_field(out: &mut [u8], at: usize, n: u64, mark: u8) -> usize
    requires { at + length (decimal 20 n) < length out.old }
    ensures value { result ≡ at + length (decimal 20 n) + 1 }
    ensures out_after { out.new ≡ take at out.old ++ (decimal 20 n ++ (mark ∷ drop result out.old)) }
{
    let end = put_number(out, at, n);
    out[end] = mark;
    end + 1
}

// Writes the nine fields, and gives how many bytes they take.
fn put_fields(out: &mut [u8], fields: [u64; 9]) -> usize
    requires { length (spelled fields) ≤ length out.old }
    ensures value { result ≡ length (spelled fields) }
    ensures out_after { out.new ≡ spelled fields ++ drop result out.old }
{
    let mut at: usize = 0;
    for (i, &field) in fields.iter().enumerate() {
        at = put_field(out, at, field, mark_at(i));
    }
    at
}

// The nine numbers of a record's line, which takes at most 64 bytes.
fn fields_of(row: &Record) -> [u64; 9]
    ensures value { result ≡ line_fields row.now }
    ensures short { length (spelled result) ≤ 64 }
{
    [
        row[0] as u64,
        row[1] as u64,
        row[2] as u64,
        row[3] as u64,
        row[4] as u64,
        row[5] as u64,
        u64_at(row, 8),
        u32_at(row, 20) as u64,
        u32_at(row, 16).count_ones() as u64,
    ]
}

// Line: a record's line in the first bytes of the output, and how many they are; or rule 13.
pub fn line(row: &[u8], out: &mut [u8]) -> Result<u8, Refusal>
    ensures answer { says result ≡ line_says row.now out.old }
    ensures written { out.new ≡ line_output row.now out.old }
{
    let row = check_record(row, out.len(), 64)?;
    let n = put_fields(out, fields_of(row));
    Ok(n as u8)
}
