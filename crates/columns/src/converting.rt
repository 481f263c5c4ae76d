// Both ways by one set of loops: tiles of 16 records that go down a strip of 8 columns, strips across a block of records,
// blocks. The last tile of a strip begins 16 records before its end, and writes what the one before wrote there once more.
ghost use Rattle.std.specs.Prelude.{◌≡◌, ◌+◌, ◌<◌, ◌≤◌};
ghost use Rattle.columns.specs.Places.{made, made_at, place_of, Sized, Stays, Rows, Strip};

use crate::steps::Way;

// Columns c to c + 7 of the records from s up to e.
fn strip<W: Way>(input: &[u8], m: usize, out: &mut [u8], c: usize, s: usize, e: usize)
    requires sized { Sized m input.now out.old × (c + 8 ≤ 536) × (1 ≤ s) × (s ≤ e) × (17 ≤ e) × (e ≤ m) }
    requires strip { Strip (place_of W.storing m) (made_at W.storing input.now m) out.old c s }
    ensures stays { Stays (made_at W.storing input.now m) out.old out.new }
    ensures made { Strip (place_of W.storing m) (made_at W.storing input.now m) out.new c e }
{
    for k in 0..(e - s).div_ceil(16) {
        W::tile(input, m, out, c, (s + k * 16).min(e - 16));
    }
}

// All columns of the records from s up to e.
fn block<W: Way>(input: &[u8], m: usize, out: &mut [u8], s: usize, e: usize)
    requires sized { Sized m input.now out.old × (1 ≤ s) × (s ≤ e) × (17 ≤ e) × (e ≤ m) }
    requires rows { Rows (place_of W.storing m) (made_at W.storing input.now m) out.old s }
    ensures { Rows (place_of W.storing m) (made_at W.storing input.now m) out.new e }
{
    for k in 0..67 {
        strip::<W>(input, m, out, k * 8, s, e);
    }
}

// All columns of record r, byte by byte.
fn convert_record<W: Way>(input: &[u8], m: usize, out: &mut [u8], r: usize)
    requires sized { Sized m input.now out.old × (r < m) }
    requires rows { Rows (place_of W.storing m) (made_at W.storing input.now m) out.old r }
    ensures { Rows (place_of W.storing m) (made_at W.storing input.now m) out.new (r + 1) }
{
    for c in 0..536 {
        out[W::place(m, c, r)] = W::byte(input, m, out, c, r);
    }
}

// All records: the first one byte by byte, for it has none before it, then 768 at a time, which stay in the second cache while
// all their columns are made.
#[tactic(auto, using(crate::proofs::Ways::made_whole))]
fn blocks<W: Way>(input: &[u8], m: usize, out: &mut [u8])
    requires { Sized m input.now out.old × (17 ≤ m) }
    ensures { out.new ≡ made W.storing input.now m }
{
    convert_record::<W>(input, m, out, 0);
    for k in 0..(m - 1).div_ceil(768) {
        let s = 1 + k * 768;
        block::<W>(input, m, out, s, (s + 768).min(m));
    }
}

// Too few records for a tile and the record before it.
#[tactic(auto, using(crate::proofs::Ways::made_whole))]
fn convert_few<W: Way>(input: &[u8], m: usize, out: &mut [u8])
    requires { Sized m input.now out.old }
    ensures { out.new ≡ made W.storing input.now m }
{
    for r in 0..m {
        convert_record::<W>(input, m, out, r);
    }
}

// What storing or restoring makes of the input, over the whole output.
pub fn convert<W: Way>(input: &[u8], m: usize, out: &mut [u8])
    requires { Sized m input.now out.old }
    ensures { out.new ≡ made W.storing input.now m }
{
    if m < 17 {
        convert_few::<W>(input, m, out);
    } else {
        blocks::<W>(input, m, out);
    }
}
